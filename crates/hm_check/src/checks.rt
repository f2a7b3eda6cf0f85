//! The check of a text and a certificate.
ghost use Rattle.std.specs.Prelude.{◌≡◌, IfOk};
ghost use Rattle.hm_cert.specs.Certificate.{AreRows};
ghost use Rattle.hm_elements.specs.Settled.{Settled};
ghost use Rattle.hm_graph.specs.Graphs.{tree_edges};
ghost use Rattle.hm_optimality_laws.specs.Formats.{follows_by};
ghost use Rattle.hm_graph_laws.specs.Units.{units_of};
ghost use Rattle.hm_check.specs.Verdicts as verdicts;
ghost use Rattle.hm_check.specs.Verdicts.{verdict};

use crate::followed::graph_followed;
use crate::rows::by_rows;
use crate::trees::find_difference;
use crate::{Verdict, Why};
use hm_base::{Format, OUTPUT_LIMIT, OutOfMemory, SpellRules};
use hm_cert::Certificate;
use hm_graph::Graph;
use hm_graph::laws::every_graph;
use hm_refs::Table;
use hm_refs::laws::every_table;
use hm_tree::Tree;
use std::alloc::Global;

/// Whether the rules are equal.
fn same_rules(left: SpellRules, right: SpellRules) -> bool
    ensures { result ≡ verdicts.same_rules left right }
{
    left.omit == right.omit
        && left.unquote == right.unquote
        && left.tight == right.tight
        && left.ascii == right.ascii
        && left.frame == right.frame
}

/// What is found of the certificate's rows, for a text of `length` bytes.
fn by_certificate(
    alloc: Global,
    table: &Table,
    wanted: &Tree,
    certificate: &Certificate,
    rules: SpellRules,
    length: u64,
) -> Result<Verdict, OutOfMemory>
    requires { AreRows certificate.now.prices }
    ensures { IfOk result (λ found. found ≡ verdicts.by_rows (tree_edges table.now.entries rules certificate.now.format)
        (follows_by certificate.now.format (tree_edges table.now.entries rules certificate.now.format)) length (units_of rules wanted.now) certificate.now.prices) }
{
    let graph = Graph::of(alloc, wanted, table, rules, certificate.format)?;
    every_graph(&graph);
    by_rows(alloc, &graph, &certificate.prices, length)
}

/// Checks whether a certificate shows that a text is the shortest of a tree, by a table of names and these rules. The
/// prices of a certificate that was read can be written.
///
/// Takes time linear in the text, the tree and the certificate, and keeps two layers of prices.
pub fn check(
    alloc: Global,
    table: &Table,
    wanted: &Tree,
    out: &[u8],
    certificate: &Certificate,
    rules: SpellRules,
) -> Result<Verdict, OutOfMemory>
    requires { AreRows certificate.now.prices }
    ensures { IfOk result (λ found. found ≡ verdict table.now.entries rules wanted.now out.now certificate.now) }
{
    if !same_rules(certificate.rules, rules) {
        return Ok(Verdict::No {
            why: Why::RulesDiffer,
        });
    }
    match find_difference(alloc, table, wanted, out) {
        Ok(None) => by_certificate(alloc, table, wanted, certificate, rules, out.len() as u64),
        Ok(Some(why)) => Ok(Verdict::No { why }),
        Err(OutOfMemory) => Err(OutOfMemory),
    }
}

/// How many bytes of a text without tags are read in the time in which the bytes of one event are followed, as
/// measured.
const BYTES_AN_EVENT: usize = 64;

/// As `check`, for a settled tree. A text that follows the tree's graph isn't parsed: what follows the graph spells the
/// tree. It is followed if that is cheaper than parsing: along the graph of a sparse certificate, where most states
/// have one edge, and if the tree has many events for the bytes of the text.
pub fn check_settled<'t>(
    alloc: Global,
    table: &'t Table,
    wanted: &'t Tree,
    out: &[u8],
    certificate: &Certificate,
    rules: SpellRules,
) -> Result<Verdict, OutOfMemory>
    requires rows { AreRows certificate.now.prices }
    requires settled { Settled wanted.now }
    ensures { IfOk result (λ found. found ≡ verdict table.now.entries rules wanted.now out.now certificate.now) }
{
    every_table(table);
    let is_sparse = certificate.format == Format::Sparse;
    let has_many_events = out.len() / BYTES_AN_EVENT <= wanted.len() as usize;
    if is_sparse
        && has_many_events
        && same_rules(certificate.rules, rules)
        && out.len() <= OUTPUT_LIMIT as usize
    {
        if let Some(graph) = graph_followed(alloc, wanted, table, rules, certificate.format, out)? {
            every_graph(&graph);
            return by_rows(alloc, &graph, &certificate.prices, out.len() as u64);
        }
    }
    check(alloc, table, wanted, out, certificate, rules)
}
