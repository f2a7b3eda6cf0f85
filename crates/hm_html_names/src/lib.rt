//! The table of the HTML Standard's named character references: constants of the program, with their trie.
#![tactic(auto)]

ghost use Rattle.std.specs.Prelude.{◌≡◌, IfOk};
ghost use Rattle.hm_html_names.specs.declared.counts.TheConstants.{COUNTS};
ghost use Rattle.hm_html_names.specs.declared.depths.TheConstants.{DEPTHS};
ghost use Rattle.hm_html_names.specs.declared.index.TheConstants.{NUMBERS, POINTS};
ghost use Rattle.hm_html_names.specs.declared.last_bytes.TheConstants.{BYTES};
ghost use Rattle.hm_html_names.specs.declared.names.TheConstants.{LENGTHS, TEXT};
ghost use Rattle.hm_html_names.specs.declared.places.TheConstants.{PLACES};
ghost use Rattle.hm_html_names.specs.declared.points.TheConstants.{FIRSTS, SECONDS};
ghost use Rattle.hm_html_names.specs.declared.prefixes.TheConstants.{NAMES};
ghost use Rattle.hm_html_names.specs.HtmlNames.{html_entries};

mod counts;
mod depths;
mod index;
mod last_bytes;
pub mod laws;
mod names;
mod places;
mod points;
mod prefixes;

use hm_base::OutOfMemory;
use hm_refs::{ReadyIndex, ReadyNames, ReadyNodes, Table};
use std::alloc::Global;

/// The table of the standard's 2,231 names (#named-character-references). It reads no file.
pub fn html_table(alloc: Global) -> Result<Table, OutOfMemory>
    ensures { IfOk result (λ table. table.entries ≡ html_entries) }
{
    Table::ready(alloc, ready_names(), ready_nodes(), ready_index())
}

/// The names.
fn ready_names() -> ReadyNames
    ensures text { result.text.now ≡ TEXT.now }
    ensures lengths { result.lengths.now ≡ LENGTHS }
    ensures firsts { result.firsts.now ≡ FIRSTS }
    ensures seconds { result.seconds.now ≡ SECONDS }
{
    ReadyNames {
        text: names::TEXT,
        lengths: &names::LENGTHS,
        firsts: &points::FIRSTS,
        seconds: &points::SECONDS,
    }
}

/// The trie of the names.
fn ready_nodes() -> ReadyNodes
    ensures names { result.names.now ≡ NAMES }
    ensures depths { result.depths.now ≡ DEPTHS }
    ensures bytes { result.bytes.now ≡ BYTES }
    ensures counts { result.counts.now ≡ COUNTS }
    ensures places { result.places.now ≡ PLACES }
{
    ReadyNodes {
        names: &prefixes::NAMES,
        depths: &depths::DEPTHS,
        bytes: &last_bytes::BYTES,
        counts: &counts::COUNTS,
        places: &places::PLACES,
    }
}

/// The names in the order of their first code points.
fn ready_index() -> ReadyIndex
    ensures points { result.points.now ≡ POINTS }
    ensures names { result.names.now ≡ NUMBERS }
{
    ReadyIndex {
        points: &index::POINTS,
        names: &index::NUMBERS,
    }
}
