//! The shortest text of a tree, and its certificate.
ghost use Rattle.std.specs.Prelude.{IfOk};
ghost use Rattle.hm_cert.specs.Certificate.{AreRows};
ghost use Rattle.hm_elements.specs.Settled.{Settled};
ghost use Rattle.hm_shortest.specs.Minified.{IsMinifiedBy};
ghost use Rattle.hm_shortest.specs.Shortest.{IsShortest, certified_rows};

use crate::direct::{Stop, write_directly};
use crate::{backward, write_path};
use hm_base::{Format, OutOfMemory, SpellRules};
use hm_graph::Graph;
use hm_graph::laws::every_graph;
use hm_refs::Table;
use hm_refs::laws::every_table;
use hm_tree::Tree;
use std::alloc::Global;

/// The shortest text of a tree, and the text of the certificate of its least prices.
#[derive(Drop)]
pub struct Minified {
    pub out: Vec<u8>,
    pub certificate: Vec<u8>,
    /// The number of layers of the tree's graph: one more than its units.
    pub layers: usize,
}

/// Writes the shortest text of a tree with the graph of a format, from its last layer on.
fn write_by_graph(
    alloc: Global,
    tree: &Tree,
    table: &Table,
    rules: SpellRules,
    format: Format,
) -> Result<Minified, OutOfMemory>
    ensures made { IfOk result (IsMinifiedBy table.now.entries rules format tree.now) }
    ensures readable { IfOk result (λ made. Settled tree.now → AreRows (certified_rows table.now.entries rules format tree.now)) }
{
    every_table(table);
    let graph = Graph::of(alloc, tree, table, rules, format)?;
    every_graph(&graph);
    let plan = backward(alloc, &graph)?;
    let out = write_path(alloc, &graph, plan.choices.as_slice())?;
    Ok(Minified {
        out,
        certificate: plan.certificate,
        layers: graph.len() + 1,
    })
}

/// Writes the shortest text of a tree and its certificate. If the certificate omits layers with nothing to choose, the
/// text is written while the graph is found.
fn write_shortest(
    alloc: Global,
    tree: &Tree,
    table: &Table,
    rules: SpellRules,
    format: Format,
) -> Result<Minified, OutOfMemory>
    ensures made { IfOk result (IsMinifiedBy table.now.entries rules format tree.now) }
    ensures readable { IfOk result (λ made. Settled tree.now → AreRows (certified_rows table.now.entries rules format tree.now)) }
{
    if format != Format::Sparse {
        return write_by_graph(alloc, tree, table, rules, format);
    }
    match write_directly(alloc, tree, table, rules) {
        Ok(made) => Ok(made),
        Err(Stop::Closed) => write_by_graph(alloc, tree, table, rules, format),
        Err(Stop::OutOfMemory) => Err(OutOfMemory),
    }
}

/// Writes the shortest text of a tree by a table and these rules, and its certificate in a format. The text is the same
/// in each format. If the tree is settled, the text parses to it and is the shortest of its spellings, and the
/// certificate can be read and shows it.
pub fn minify_tree(
    alloc: Global,
    tree: &Tree,
    table: &Table,
    rules: SpellRules,
    format: Format,
) -> Result<Minified, OutOfMemory>
    ensures made { IfOk result (IsMinifiedBy table.now.entries rules format tree.now) }
    ensures readable { IfOk result (λ made. Settled tree.now → AreRows (certified_rows table.now.entries rules format tree.now)) }
    ensures shortest { IfOk result (λ made. Settled tree.now → IsShortest table.now.entries rules format tree.now made.out.items made.certificate.items) }
{
    every_table(table);
    write_shortest(alloc, tree, table, rules, format)
}
