//! The graph of a tree.
ghost use Rattle.std.specs.Prelude.{◌≡◌, [], IfOk, OnOk};
ghost use Rattle.hm_graph.specs.Going.{Goes, IsWalk};
ghost use Rattle.hm_graph_laws.specs.Units.{units_of};

use crate::along::{Along, add_found};
use crate::building::GraphBuilder;
use crate::graph::Graph;
use crate::rules::EdgeRules;
use crate::visitors::{NoVisitor, Visitor};
use crate::walked::Walked;
use hm_base::{Format, OutOfMemory, SpellRules};
use hm_event_parts::find_event;
use hm_refs::Table;
use hm_tree::Tree;
use std::alloc::Global;

/// Adds the steps of a tree.
#[inline(always)]
fn add_tree<V: Visitor>(
    along: &mut Along<'_, V>,
    tree: &Tree,
    rules: SpellRules,
) -> Result<(), V::Stop>
    ensures { OnOk result (Goes V.goes_on (units_of rules tree.now) [] along.old along.new) }
{
    for i in 0..tree.len() {
        add_found(along, find_event(tree, rules, i))?;
    }
    Ok(())
}

/// Calls a visitor for each step of a tree's graph in a format, and returns it after the last one. The graph isn't
/// kept.
///
/// Fails with `OutOfMemory` if `Graph::of` does.
pub fn walk<V: Visitor>(
    alloc: Global,
    tree: &Tree,
    table: &Table,
    rules: SpellRules,
    format: Format,
    visitor: V,
) -> Result<(Walked, V), V::Stop>
    ensures { IfOk result (λ made. IsWalk V.goes_on (record { tree = tree.now; table = table.now; rules = rules; format = format }) visitor made.0 made.1) }
{
    let edges = EdgeRules {
        spell: rules,
        format,
    };
    let mut along = Along {
        graph: GraphBuilder::new(alloc, table, edges, false)?,
        by: visitor,
    };
    add_tree(&mut along, tree, rules)?;
    let Along { graph, by } = along;
    Ok((graph.into_walked(), by))
}

impl<'t> Graph<'t> {
    /// Makes the graph of a tree in a format, by the names of a table and these rules.
    ///
    /// Fails with `OutOfMemory` too if the tree has 2^29 units or more, if an edge writes 2^33 bytes or more, or if
    /// there are 2^29 different steps or lists of states.
    pub fn of(
        alloc: Global,
        tree: &'t Tree,
        table: &'t Table,
        rules: SpellRules,
        format: Format,
    ) -> Result<Graph<'t>, OutOfMemory>
        ensures { IfOk result (λ graph. graph.source ≡ record { tree = tree.now; table = table.now; rules = rules; format = format }) }
    {
        let (graph, _none) = Graph::visited(alloc, tree, table, rules, format, NoVisitor)?;
        Ok(graph)
    }

    /// Makes the graph as `of` does. A visitor is called for each step as it is added, and is returned after the last
    /// one.
    pub fn visited<V: Visitor>(
        alloc: Global,
        tree: &'t Tree,
        table: &'t Table,
        rules: SpellRules,
        format: Format,
        visitor: V,
    ) -> Result<(Graph<'t>, V), V::Stop>
        ensures source { IfOk result (λ made. made.0.source ≡ record { tree = tree.now; table = table.now; rules = rules; format = format }) }
        ensures goes_on { IfOk result (λ made. (end : V) → V.goes_on end table.now.entries [] [] made.1 → V.goes_on end table.now.entries (units_of rules tree.now) made.0.steps visitor) }
    {
        let edges = EdgeRules {
            spell: rules,
            format,
        };
        let mut along = Along {
            graph: GraphBuilder::new(alloc, table, edges, true)?,
            by: visitor,
        };
        add_tree(&mut along, tree, rules)?;
        let Along { graph, by } = along;
        let graph = graph.into_graph(tree)?;
        Ok((graph, by))
    }
}
