//! Ordinary text: markup, and the text between it.
ghost use Rattle.std.specs.Prelude.{◌≡◌, ◌≢◌, ◌+◌, ◌^◌, ◌<◌, ◌≤◌, drop, false, length, true, IfOk, IfErr, IsCharBoundary};
ghost use Rattle.hm_scan.specs.Texts as texts;
ghost use Rattle.hm_token_laws.specs.First as tokens;
ghost use Rattle.hm_token_laws.specs.First.{read_here, read_markup};
ghost use Rattle.hm_tree.specs.Lexemes.{token_of};
ghost use Rattle.hm_tree.specs.Tokens.{BeginsAt, Reads, refused};
ghost use Rattle.hm_lexer.specs.Reading.{front_here, markup_front};
ghost use Rattle.hm_lexer.specs.Steps as steps;
ghost use Rattle.hm_lexer.specs.Steps.{IsAfterNothing, read_with};

use hm_refs::Table;
use hm_scan::{
    begins_cdata, begins_doctype, begins_markup, begins_tag, scan_cdata, scan_comment,
    scan_doctype, scan_tag_into, scan_text,
};
use hm_tree::{Lexeme, ScanFault, Tag, Token};
use std::alloc::Global;

/// Whether the bytes start with `</>`, which is no token (#end-tag-open-state).
fn begins_empty_tag(bytes: &[u8]) -> bool
    ensures { result ≡ steps.begins_empty_tag bytes.now }
{
    match bytes {
        [first, second, third, ..] => { *first == b'<' && (*second == b'/' && *third == b'>') }
        _ => false,
    }
}

/// The first place at or after `at` that has no `</>` (#end-tag-open-state).
pub fn after_empty_tags(text: &str, at: u32) -> u32
    requires boundary { IsCharBoundary text.now at }
    requires size { length text.now < 2 ^ 32 }
    ensures { IsAfterNothing tokens.ordinary text.now at result }
{
    let bytes = text.as_bytes();
    let mut from = at as usize;
    while begins_empty_tag(&bytes[from..]) {
        from += 3;
    }
    from as u32
}

/// A token that was read, with its tag's name and attributes put into `tag`.
fn placed(read: Result<(Token, u32), ScanFault>, tag: &mut Tag) -> Result<(Lexeme, u32), ScanFault>
    ensures { read ≡ read_with result tag.new }
{
    match read {
        Ok((token, to)) => Ok((Lexeme::of(token, tag), to)),
        Err(fault) => Err(fault),
    }
}

/// Reads the markup that starts at byte `at` (#markup-declaration-open-state). It isn't a tag.
fn scan_markup(
    alloc: Global,
    text: &str,
    at: u32,
    table: &Table,
    foreign: bool,
    tag: &mut Tag,
) -> Result<(Lexeme, u32), ScanFault>
    requires inside { at < length text.now }
    requires begins { texts.begins_markup (drop at text.now) ≡ true }
    requires real { steps.begins_empty_tag (drop at text.now) ≡ false }
    requires size { length text.now < 2 ^ 32 }
    ensures ok { IfOk result
        (λ r. Reads (read_markup table.now.entries foreign (drop at text.now)) text.now (token_of r.0 tag.new) r.1) }
    ensures err { IfErr result
        (λ fault. fault ≢ ScanFault.OutOfMemory → read_markup table.now.entries foreign (drop at text.now) ≡ refused fault) }
    ensures forward { IfOk result (λ r. at < r.1) }
    ensures placed { IfOk result (λ r. BeginsAt (at + markup_front foreign (drop at text.now)) (token_of r.0 tag.new)) }
{
    if begins_tag(text, at) {
        return scan_tag_into(alloc, text, at, table, tag);
    }
    if begins_doctype(text, at) {
        return placed(scan_doctype(text, at), tag);
    }
    if foreign && begins_cdata(text, at) {
        return placed(scan_cdata(text, at), tag);
    }
    placed(scan_comment(text, at), tag)
}

/// Reads the markup or the piece of text that starts at byte `at` (#tag-open-state, #end-tag-open-state). `foreign` is
/// true in SVG, where a CDATA section may start there.
pub fn scan_here(
    alloc: Global,
    text: &str,
    at: u32,
    table: &Table,
    foreign: bool,
    tag: &mut Tag,
) -> Result<(Lexeme, u32), ScanFault>
    requires inside { at < length text.now }
    requires boundary { IsCharBoundary text.now at }
    requires real { steps.begins_empty_tag (drop at text.now) ≡ false }
    requires size { length text.now < 2 ^ 32 }
    ensures ok { IfOk result
        (λ r. Reads (read_here table.now.entries foreign (drop at text.now)) text.now (token_of r.0 tag.new) r.1) }
    ensures err { IfErr result
        (λ fault. fault ≢ ScanFault.OutOfMemory → read_here table.now.entries foreign (drop at text.now) ≡ refused fault) }
    ensures forward { IfOk result (λ r. at < r.1) }
    ensures placed { IfOk result (λ r. BeginsAt (at + front_here foreign (drop at text.now)) (token_of r.0 tag.new)) }
{
    if begins_markup(text, at) {
        scan_markup(alloc, text, at, table, foreign, tag)
    } else {
        placed(Ok(scan_text(text, at, false, table)), tag)
    }
}
