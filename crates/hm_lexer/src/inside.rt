//! The text of one element, up to its end tag.
ghost use Rattle.std.specs.Prelude.{◌≡◌, ◌≢◌, ◌-◌, ◌^◌, ◌<◌, ◌≤◌, drop, false, length, true, IfOk, IfErr, Some, IsCharBoundary};
ghost use Rattle.hm_base.specs.Bytes.{head_is};
ghost use Rattle.hm_base.specs.Forms.{is_small};
ghost use Rattle.hm_base.specs.RawText.{raw_end, script_end};
ghost use Rattle.hm_token_laws.specs.First.{read_inside};
ghost use Rattle.hm_tree.specs.Lexemes.{token_of};
ghost use Rattle.hm_tree.specs.Tokens.{BeginsAt, Reads, refused};
ghost use Rattle.hm_lexer.specs.Steps.{Ends, IsEndAt, read_piece};

use hm_refs::Table;
use hm_scan::{scan_raw, scan_script, scan_tag_into, scan_text};
use hm_tree::{Lexeme, ScanFault, Tag};
use std::alloc::Global;

/// The end of the text from byte `at` on: the first end tag of that name.
pub fn raw_text_end(text: &str, at: u32, name: &str) -> Option<u32>
    requires boundary { IsCharBoundary text.now at }
    requires size { length text.now < 2 ^ 32 }
    requires name { head_is is_small name.now ≡ true }
    ensures { Ends (raw_end name.now (drop at text.now)) text.now at result }
{
    match scan_raw(text, at, name) {
        Ok((_token, to)) => Some(to),
        Err(_fault) => None,
    }
}

/// The end of the text of a script from byte `at` on.
fn script_text_end(text: &str, at: u32) -> Option<u32>
    requires boundary { IsCharBoundary text.now at }
    requires size { length text.now < 2 ^ 32 }
    ensures { Ends (script_end (drop at text.now)) text.now at result }
{
    match scan_script(text, at) {
        Ok((_token, to)) => Some(to),
        Err(_fault) => None,
    }
}

/// Reads from byte `at` on in the text of an element that ends at byte `to` (HTML Standard, #rcdata-state): a piece of
/// it, or at `to` the end tag. `references` is true if the text may have character references.
pub fn scan_up_to(
    alloc: Global,
    text: &str,
    at: u32,
    to: u32,
    table: &Table,
    references: bool,
    tag: &mut Tag,
) -> Result<(Lexeme, u32), ScanFault>
    requires boundary { IsCharBoundary text.now at }
    requires size { length text.now < 2 ^ 32 }
    requires end { IsEndAt (Some (to - at)) text.now at to }
    ensures ok { IfOk result (λ r. Reads (read_inside table.now.entries (drop at text.now) (Some (to - at)) (read_piece references table.now.entries)) text.now (token_of r.0 tag.new) r.1) }
    ensures err { IfErr result
        (λ fault. fault ≢ ScanFault.OutOfMemory → read_inside table.now.entries (drop at text.now) (Some (to - at)) (read_piece references table.now.entries) ≡ refused fault) }
    ensures forward { IfOk result (λ r. at < r.1) }
    ensures placed { IfOk result (λ r. BeginsAt at (token_of r.0 tag.new)) }
{
    if at == to {
        return scan_tag_into(alloc, text, at, table, tag);
    }
    if references {
        let (token, after) = scan_text(&text[..to as usize], at, true, table);
        return Ok((Lexeme::of(token, tag), after));
    }
    Ok((Lexeme::Slice { from: at, to }, to))
}

/// Reads from byte `at` on in the raw text of an element of that name (#rawtext-state).
pub fn scan_raw_text(
    alloc: Global,
    text: &str,
    at: u32,
    name: &str,
    table: &Table,
    tag: &mut Tag,
) -> Result<(Lexeme, u32), ScanFault>
    requires boundary { IsCharBoundary text.now at }
    requires size { length text.now < 2 ^ 32 }
    requires name { head_is is_small name.now ≡ true }
    ensures ok { IfOk result (λ r. Reads (read_inside table.now.entries (drop at text.now) (raw_end name.now (drop at text.now)) (read_piece false table.now.entries)) text.now (token_of r.0 tag.new) r.1) }
    ensures err { IfErr result
        (λ fault. fault ≢ ScanFault.OutOfMemory → read_inside table.now.entries (drop at text.now) (raw_end name.now (drop at text.now)) (read_piece false table.now.entries) ≡ refused fault) }
    ensures forward { IfOk result (λ r. at < r.1) }
    ensures placed { IfOk result (λ r. BeginsAt at (token_of r.0 tag.new)) }
{
    match raw_text_end(text, at, name) {
        Some(to) => scan_up_to(alloc, text, at, to, table, false, tag),
        None => Err(ScanFault::Cut),
    }
}

/// Reads from byte `at` on in the text of a script (#script-data-state).
pub fn scan_script_text(
    alloc: Global,
    text: &str,
    at: u32,
    table: &Table,
    tag: &mut Tag,
) -> Result<(Lexeme, u32), ScanFault>
    requires boundary { IsCharBoundary text.now at }
    requires size { length text.now < 2 ^ 32 }
    ensures ok { IfOk result (λ r. Reads (read_inside table.now.entries (drop at text.now) (script_end (drop at text.now)) (read_piece false table.now.entries)) text.now (token_of r.0 tag.new) r.1) }
    ensures err { IfErr result
        (λ fault. fault ≢ ScanFault.OutOfMemory → read_inside table.now.entries (drop at text.now) (script_end (drop at text.now)) (read_piece false table.now.entries) ≡ refused fault) }
    ensures forward { IfOk result (λ r. at < r.1) }
    ensures placed { IfOk result (λ r. BeginsAt at (token_of r.0 tag.new)) }
{
    match script_text_end(text, at) {
        Some(to) => scan_up_to(alloc, text, at, to, table, false, tag),
        None => Err(ScanFault::Cut),
    }
}
