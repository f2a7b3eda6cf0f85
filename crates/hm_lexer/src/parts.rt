//! Pieces of an ordinary text of which more may follow.
ghost use Rattle.std.specs.Prelude.{◌≡◌, ◌^◌, ◌<◌, ◌≤◌, drop, false, length, true, MatchOption, IsCharBoundary};
ghost use Rattle.memchr.specs.Find.{IsFirstByte};
ghost use Rattle.hm_base.specs.Bytes.{some_passes};
ghost use Rattle.hm_scan.specs.TextPlaces as texts_at;
ghost use Rattle.hm_scan.specs.Texts as texts;
ghost use Rattle.hm_tree.specs.Lexemes.{token_of};
ghost use Rattle.hm_tree.specs.Tokens.{Reads};
ghost use Rattle.hm_tree.specs.declared.tokens.Tag.{Tag};
ghost use Rattle.hm_lexer.specs.Ready as specs;
ghost use Rattle.hm_lexer.specs.Ready.{text_part};
ghost use Rattle.hm_lexer.specs.Parts as parts;
ghost use Rattle.hm_lexer.specs.Parts.{IsPieceTo};

use hm_refs::{Table, read_reference};
use hm_scan::begins_markup;
use hm_tree::Lexeme;
use memchr::memchr2;

/// Whether the bytes after a `<` are enough to decide whether it starts markup.
fn tells_markup(bytes: &[u8]) -> bool
    ensures { result ≡ specs.tells_markup bytes.now }
{
    match bytes {
        [] => false,
        [only] => *only != b'/',
        [_, _, ..] => true,
    }
}

/// Whether a byte ends each reference that is unfinished before it.
#[tactic(auto, unfolding(hm_base::specs::Bytes::is_alnum, hm_base::specs::Bytes::is_letter, hm_base::specs::Bytes::is_digit_of))]
fn ends_reference(byte: u8) -> bool
    ensures { result ≡ specs.ends_reference byte }
{
    !(byte.is_ascii_alphanumeric() || byte == b'#')
}

/// Whether a reference that is unfinished before these bytes ends in them.
fn has_reference_end(bytes: &[u8]) -> bool
    ensures { result ≡ some_passes specs.ends_reference bytes.now }
{
    for byte in bytes {
        if ends_reference(*byte) {
            return true;
        }
    }
    false
}

/// Whether the bytes are enough to decide whether markup or a reference starts at their first one.
fn is_told(bytes: &[u8]) -> bool
    requires { 0 < length bytes.now }
    ensures { result ≡ parts.is_told_here bytes.now }
{
    match bytes[0] {
        b'<' => tells_markup(&bytes[1..]),
        b'&' => has_reference_end(&bytes[1..]),
        _ => true,
    }
}

/// Whether the byte at a place is plain text, whatever follows the text.
fn stays_plain(table: &Table, text: &str, at: usize) -> bool
    requires inside { at < length text.now }
    requires size { length text.now < 2 ^ 32 }
    ensures { result ≡ parts.stays_plain table.now.entries (drop at text.now) }
{
    let bytes = &text.as_bytes()[at..];
    if !is_told(bytes) || begins_markup(text, at as u32) {
        return false;
    }
    bytes[0] != b'&' || read_reference(table, bytes, false).is_none()
}

/// Whether the byte is `<` or `&`.
fn is_sign(byte: u8) -> bool
    ensures { result ≡ texts_at.is_sign false byte }
{
    byte == b'<' || byte == b'&'
}

/// How many bytes are compared one by one before a search by vectors.
const NEAR: usize = 8;

/// The first `<` or `&` among the bytes. Most pieces of text are short, so the first bytes are compared one by one.
fn first_sign(bytes: &[u8]) -> Option<usize>
    ensures { IsFirstByte (texts_at.is_sign false) bytes.now result }
{
    let near = bytes.len().min(NEAR);
    for i in 0..near {
        if is_sign(bytes[i]) {
            return Some(i);
        }
    }
    match memchr2(b'<', b'&', &bytes[near..]) {
        Some(found) => Some(near + found),
        None => None,
    }
}

/// The end of the piece of text that started before `from`: the next markup or reference, or the first place that needs
/// more input.
fn piece_end(table: &Table, text: &str, from: usize) -> usize
    requires inside { from ≤ length text.now }
    requires size { length text.now < 2 ^ 32 }
    ensures { IsPieceTo table.now.entries text.now from result }
{
    let bytes = text.as_bytes();
    let mut at = from;
    'signs: while let Some(found) = first_sign(&bytes[at..]) {
        let to = at + found;
        if !stays_plain(table, text, to) {
            return to;
        }
        at = to + 1;
    }
    bytes.len()
}

/// Reads the start of the ordinary text at `from`: one reference, or a piece of text. No markup starts there. None if
/// more input is needed to decide whether markup or a reference starts there.
pub fn scan_part(text: &str, from: u32, table: &Table) -> Option<(Lexeme, u32)>
    requires inside { from < length text.now }
    requires boundary { IsCharBoundary text.now from }
    requires size { length text.now < 2 ^ 32 }
    requires markup { texts.begins_markup (drop from text.now) ≡ false }
    ensures { MatchOption result (parts.is_told_here (drop from text.now) ≡ false)
        (λ r. (parts.is_told_here (drop from text.now) ≡ true) × (from < r.1) × IsCharBoundary text.now r.1 × ((tag : Tag) → Reads (text_part table.now.entries (drop from text.now)) text.now (token_of r.0 tag) r.1)) }
{
    let at = from as usize;
    let bytes = &text.as_bytes()[at..];
    if !is_told(bytes) {
        return None;
    }
    if bytes[0] == b'&' {
        if let Some(reference) = read_reference(table, bytes, false) {
            let points = reference.points;
            return Some((Lexeme::Points { points }, (at + reference.len) as u32));
        }
    }
    let to = piece_end(table, text, at + 1) as u32;
    Some((Lexeme::Slice { from, to }, to))
}
