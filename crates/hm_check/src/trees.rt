//! Whether a text has the wanted tree.
ghost use Rattle.std.specs.Prelude.{◌≡◌, IfOk, IfErr};
ghost use Rattle.hm_build.specs.Parsing.{IsRefusedAs};
ghost use Rattle.hm_build.specs.Trees.{built};
ghost use Rattle.hm_check.specs.Differences as differences;
ghost use Rattle.hm_check.specs.Trees.{tree_why};
ghost use Rattle.hm_check.specs.Verdicts.{out_outcome};

use crate::Why;
use hm_base::{OUTPUT_LIMIT, OutOfMemory, Refused, SourceText};
use hm_build::parse;
use hm_refs::Table;
use hm_tree::Tree;
use std::alloc::Global;

/// The tree of a text.
fn read_out(alloc: Global, table: &Table, out: &[u8]) -> Result<Tree, Refused>
    ensures built { IfOk result (λ tree. out_outcome table.now.entries out.now ≡ built tree) }
    ensures refused { IfErr result (IsRefusedAs (out_outcome table.now.entries out.now)) }
{
    match SourceText::read(alloc, out, OUTPUT_LIMIT) {
        Ok(text) => parse(alloc, &text, table),
        Err(fault) => Err(fault.refusal(OUTPUT_LIMIT)),
    }
}

/// The first event in which the trees differ.
fn first_difference(tree: &Tree, wanted: &Tree) -> Option<u32>
    ensures { result ≡ differences.first_difference tree.now wanted.now }
{
    tree.first_other(wanted)
}

/// Why a text doesn't have the wanted tree; None if it has it.
pub(crate) fn find_difference(
    alloc: Global,
    table: &Table,
    wanted: &Tree,
    out: &[u8],
) -> Result<Option<Why>, OutOfMemory>
    ensures { IfOk result (λ found. found ≡ tree_why wanted.now (out_outcome table.now.entries out.now)) }
{
    match read_out(alloc, table, out) {
        Ok(tree) => match first_difference(&tree, wanted) {
            Some(event) => Ok(Some(Why::TreesDiffer { event })),
            None => Ok(None),
        },
        Err(Refused::Page { rule, at }) => Ok(Some(Why::OutRefused { rule, at })),
        Err(Refused::OutOfMemory) => Err(OutOfMemory),
    }
}
