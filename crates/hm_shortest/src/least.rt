//! The length of the shortest text of a tree, without that text.
ghost use Rattle.std.specs.Prelude.{◌≡◌, IfOk};
ghost use Rattle.hm_cert.specs.Layout.{told};
ghost use Rattle.hm_graph_laws.specs.ExchangeLaws.{sparing_plain};
ghost use Rattle.hm_graph_laws.specs.States.{first_state};
ghost use Rattle.hm_graph_laws.specs.UnitEdges.{edges_of};
ghost use Rattle.hm_graph_laws.specs.Units.{units_of};
ghost use Rattle.hm_graph_laws.specs.Ways.{least};

use crate::plans::backward;
use hm_base::{Format, OutOfMemory, SpellRules};
use hm_graph::Graph;
use hm_graph::laws::every_graph;
use hm_refs::Table;
use hm_tree::Tree;
use std::alloc::Global;

/// The length in bytes of the shortest text of a tree, by all edges of its graph.
pub fn least_price(
    alloc: Global,
    tree: &Tree,
    table: &Table,
    rules: SpellRules,
) -> Result<u64, OutOfMemory>
    ensures { IfOk result (λ price. told price ≡ least (edges_of (sparing_plain table.now.entries rules)) (units_of rules tree.now) first_state) }
{
    let graph = Graph::of(alloc, tree, table, rules, Format::Compact)?;
    every_graph(&graph);
    let plan = backward(alloc, &graph)?;
    Ok(plan.first)
}
