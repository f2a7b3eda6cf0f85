//! Pieces of text, after the HTML Standard (#character-reference-state to #numeric-character-reference-end-state).
ghost use Rattle.std.specs.Prelude.{◌≡◌, ◌^◌, ◌<◌, drop, false, length, IsTrue, IsCharBoundary};
ghost use Rattle.hm_scan.specs.Texts as texts;

use crate::printed::is_value;
use crate::rows::{cut, expect};
use hm_refs::Table;
use hm_scan::{begins_markup, scan_text};
use hm_tree::Token;
use std::process::Abort;
use std::test::Fail;

/// A table with a few names.
const NAMES: &str =
    "{\"&amp\":{\"codepoints\":[38]},\"&amp;\":{\"codepoints\":[38]},\"&lt\":{\"codepoints\":[60]},\"&lt;\":{\"codepoints\":[60]},\"&not\":{\"codepoints\":[172]},\"&not;\":{\"codepoints\":[172]},\"&notin;\":{\"codepoints\":[8713]},\"&nesim;\":{\"codepoints\":[8770,824]},\"&copy\":{\"codepoints\":[169]},\"&copy;\":{\"codepoints\":[169]}}";

/// Whether a piece of text can be read at a place.
fn is_text(text: &str, at: u32, rcdata: bool) -> bool
    ensures { IsTrue result
        → (at < length text.now)
        × ((length text.now < 2 ^ 32)
        × (IsCharBoundary text.now at × (rcdata ≡ false → texts.begins_markup (drop at text.now) ≡ false))) }
{
    (at as usize) < text.len()
        && text.len() < 1000
        && text.is_char_boundary(at as usize)
        && (rcdata || !begins_markup(text, at))
}

/// Whether a token and the place after it are as expected: where its text starts and ends, or its code points.
fn is_read(token: &Token, place: u32, wanted: &str) -> bool {
    match token {
        Token::Slice { from, to } => is_value(wanted, &(*from, *to, place)),
        Token::Points { points } => is_value(wanted, &(points.first, points.second, place)),
        _ => false,
    }
}

/// Whether the piece of text at a place is as expected, in a title or outside.
fn is_piece(table: &Table, rcdata: bool, text: &str, at: u32, wanted: &str) -> bool {
    if is_text(text, at, rcdata) {
        let (token, place) = scan_text(text, at, rcdata, table);
        is_read(&token, place, wanted)
    } else {
        false
    }
}

/// In each line a place in a text, the text, and what is read there: where its text starts and ends or its code points,
/// and the place after it. It is the same in a title.
const REFERENCES: &str = "\
    0 &copy= ⇒ ('©', None, 5)\n\
    0 &copy;= ⇒ ('©', None, 6)\n\
    0 &notit; ⇒ ('¬', None, 4)\n\
    0 &nesim; ⇒ ('≂', Some('\\u{338}'), 7)\n\
    0 &#x80; ⇒ ('€', None, 6)\n\
    0 &#65< ⇒ ('A', None, 4)\n\
    0 &#1114112;x ⇒ ('\u{FFFD}', None, 10)\n\
    2 é&lt;y ⇒ ('<', None, 6)\n";

/// As `REFERENCES`, outside of titles.
const SLICES: &str = "\
    0 &#; ⇒ (0, 3, 3)\n\
    0 &#x;&# ⇒ (0, 6, 6)\n\
    0 a<1</>b ⇒ (0, 3, 3)\n\
    0 a</ ⇒ (0, 3, 3)\n\
    0 <<a ⇒ (0, 1, 1)\n\
    0 x&y&amp;z ⇒ (0, 3, 3)\n\
    8 x&y&amp;z ⇒ (8, 9, 9)\n\
    0 é<! ⇒ (0, 2, 2)\n";

/// As `REFERENCES`, in a title.
const TITLES: &str = "\
    0 a<b>&copy; ⇒ (0, 4, 4)\n\
    0 <b></b> ⇒ (0, 7, 7)\n\
    0 &<!--&lt ⇒ (0, 5, 5)\n";

/// Whether the text in a line has the piece there.
fn is_line(table: &Table, rcdata: bool, line: &str) -> bool {
    let (at, rest) = cut(line, " ");
    let (text, wanted) = cut(rest, " ⇒ ");
    match at.parse::<u32>() {
        Ok(at) => is_piece(table, rcdata, text, at, wanted),
        Err(_) => false,
    }
}

/// Asserts each line.
fn expect_lines(rt: &impl Abort, table: &Table, rcdata: bool, lines: &str) {
    for line in lines.lines() {
        expect(rt, is_line(table, rcdata, line), line);
    }
}

/// Asserts the lines of each table.
fn expect_tables(rt: &impl Abort, table: &Table) {
    expect_lines(rt, table, false, REFERENCES);
    expect_lines(rt, table, true, REFERENCES);
    expect_lines(rt, table, false, SLICES);
    expect_lines(rt, table, true, TITLES);
}

/// Pieces of text end, and references are read, as the standard says.
#[test]
fn pieces_of_text(rt: HostRuntime) -> Result<(), Fail> {
    let table = Table::read(rt.alloc(), NAMES.as_bytes())?;
    expect_tables(&rt, &table);
    Ok(())
}

/// Starts of markup.
const MARKUP: &str = "<a <Z </> </a <! <?";

/// Starts of other texts.
const NO_MARKUP: &str = "</ < <1 <<a";

/// Which bytes start markup.
#[test]
fn starts_of_markup(rt: HostRuntime) {
    for text in MARKUP.split(' ') {
        expect(&rt, begins_markup(text, 0), text);
    }
    for text in NO_MARKUP.split(' ') {
        expect(&rt, !begins_markup(text, 0), text);
    }
}
