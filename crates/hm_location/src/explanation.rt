//! The lines of `explain` for a page.
ghost use Rattle.std.specs.Prelude.{◌≡◌, ◌⊎◌, ◌++◌, ◌∷◌, [], ◌≤◌, IfOk, OnOk, length, map, filter, string_bytes, codes};
ghost use Rattle.std.specs.Fmt.{is_char_start};
ghost use Rattle.hm_location.specs.Shown.{front_shown, rest_shown};
ghost use Rattle.hm_location.specs.Explanations.{IsPlaceIn};
ghost use Rattle.hm_location.specs.Explanations as spec;

use crate::place::{Location, is_char_start, location_of, without_mark};
use crate::sentences::meaning;
use crate::shown::shown_line;
use hm_base::{PAGE_LIMIT, Rule};
use std::alloc::{AllocError, Global};

/// The line with the place of the fault, the name of its rule and what the rule means.
fn place_line(
    alloc: Global,
    name: &str,
    location: Location,
    rule: Rule,
) -> Result<String, AllocError>
    ensures { IfOk result (λ line. string_bytes line ≡ spec.place_line name.now location.line location.column rule) }
{
    let Location { line, column } = location;
    let rule_name = rule.name();
    let sentence = meaning(rule);
    format!(in alloc; "{name}:{line}:{column}: {rule_name}: {sentence}\n")
}

/// A byte as it is printed: `?` for a control character other than TAB.
fn shown_byte(byte: u8) -> u8
    ensures { result ≡ spec.shown_byte byte }
{
    if byte < 32 && byte != b'\t' || byte == 127 {
        b'?'
    } else {
        byte
    }
}

/// Appends bytes as they are printed.
fn push_shown(lines: &mut Vec<u8>, bytes: &[u8]) -> Result<(), AllocError>
    ensures { OnOk result (lines.new.items ≡ lines.old.items ++ map spec.shown_byte bytes.now) }
{
    for byte in bytes {
        lines.push(shown_byte(*byte))?;
    }
    Ok(())
}

/// The byte below a character before the place: a TAB below a TAB, otherwise a space.
fn caret_byte(byte: u8) -> u8
    ensures { result ≡ spec.caret_byte byte }
{
    if byte == b'\t' { b'\t' } else { b' ' }
}

/// Appends the bytes below the characters of a line before the place.
fn push_carets(lines: &mut Vec<u8>, front: &[u8]) -> Result<(), AllocError>
    ensures { OnOk result (lines.new.items ≡ lines.old.items ++ map spec.caret_byte (filter is_char_start front.now)) }
{
    for byte in front {
        if is_char_start(*byte) {
            lines.push(caret_byte(*byte))?;
        }
    }
    Ok(())
}

/// Appends the printed part of the line of a place, and a caret below the place.
fn push_lines(lines: &mut Vec<u8>, page: &[u8], at: usize) -> Result<(), AllocError>
    requires { at ≤ length page.now }
    ensures { OnOk result (lines.new.items ≡ lines.old.items ++ (spec.page_line (front_shown page.now at) (rest_shown page.now at) ++ spec.caret_line (front_shown page.now at))) }
{
    let shown = shown_line(page, at);
    push_shown(lines, shown.bytes)?;
    lines.push(b'\n')?;
    push_carets(lines, without_mark(&shown.bytes[..shown.front]))?;
    lines.extend_from_slice(b"^\n")
}

/// A place of a page, or the end of the page if that comes first. Both are bytes of the page.
fn place_in(page: &[u8], at: u32) -> usize
    ensures place { IsPlaceIn page.now at result }
    ensures inside { result ≤ length page.now }
{
    let at = at as usize;
    if at < page.len() { at } else { page.len() }
}

/// The three lines for a page that `rule` refuses at byte `at` of the page.
fn explained(
    alloc: Global,
    name: &str,
    page: &[u8],
    rule: Rule,
    at: u32,
) -> Result<Vec<u8>, AllocError>
    ensures { IfOk result (λ lines. lines.items ≡ spec.explained name.now page.now rule at) }
{
    let place = place_in(page, at);
    let line = place_line(alloc, name, location_of(page, place), rule)?;
    let mut lines = Vec::from_slice(alloc, line.as_bytes())?;
    push_lines(&mut lines, page, place)?;
    Ok(lines)
}

/// The three lines for a page that `rule` refuses at byte `at` of the page. If the page is too long, only the bytes up
/// to its limit are looked at.
pub fn explained_page(
    alloc: Global,
    name: &str,
    page: &[u8],
    rule: Rule,
    at: u32,
) -> Result<Vec<u8>, AllocError>
    ensures { IfOk result (λ lines. lines.items ≡ spec.explained_page name.now page.now rule at) }
{
    let most = PAGE_LIMIT as usize;
    if page.len() > most {
        explained(alloc, name, &page[..most], rule, at)
    } else {
        explained(alloc, name, page, rule, at)
    }
}

/// The line for a page that isn't refused. `page` is its length in bytes, `out` that of its tree, written shortest.
pub fn settled_line(
    alloc: Global,
    name: &str,
    page: usize,
    out: usize,
) -> Result<String, AllocError>
    ensures { IfOk result (λ line. string_bytes line ≡ spec.settled_line name.now page out) }
{
    format!(in alloc; "{name}: settled, page {page} output {out}\n")
}
