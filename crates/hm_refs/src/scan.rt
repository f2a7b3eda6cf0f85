//! Reading a character reference.
ghost use Rattle.std.specs.Prelude.{◌≡◌, ◌<◌, ◌≤◌, ◌&&◌, ◌∷◌, length, drop, true, not, None, MatchOption, slice_index, ◌+◌, if◌then◌else◌};
ghost use Rattle.std.specs.Char.{digit_value};
ghost use Rattle.hm_base.specs.Bytes.{all_pass, rest_after, front, head_is, is_digit_of};
ghost use Rattle.hm_refs.specs.Names as names;
ghost use Rattle.hm_refs.specs.Names.{longest};
ghost use Rattle.hm_refs.specs.Numbers.{point_of};
ghost use Rattle.hm_refs.specs.References as refs;
ghost use Rattle.hm_refs.specs.Reads.{IsEndOf, IsReadReference};

use crate::Table;
use crate::laws::every_table;
use crate::numbers::number_value;
use hm_base::{Points, is_digit};

/// The code points of a reference, and how many bytes it has.
#[derive(Clone, Copy)]
pub struct Reference {
    pub points: Points,
    pub len: usize,
}

/// The value of a digit.
#[tactic(auto, unfolding(hm_base::specs::Bytes::is_digit_of))]
fn digit(byte: u8, base: u32) -> u32
    requires low { 2 ≤ base }
    requires high { base ≤ 16 }
    requires digit { is_digit_of base byte ≡ true }
    ensures value { result ≡ digit_value byte }
    ensures below { result < base }
{
    char::from(byte).to_digit(base).unwrap_or(0)
}

/// The end of the digits that start at `from`.
fn digits_end(text: &[u8], from: usize, base: u32) -> usize
    requires inside { from ≤ length text.now }
    requires low { 2 ≤ base }
    requires high { base ≤ 16 }
    ensures { IsEndOf (is_digit_of base) text.now from result }
{
    let mut at = from;
    while at < text.len() && is_digit(text[at], base) {
        at += 1;
    }
    at
}

/// A number that gives the same code point as the one of these digits. Above 0x10FFFF it may be another one.
fn number(digits: &[u8], base: u32) -> u32
    requires digits { all_pass (is_digit_of base) digits.now ≡ true }
    requires low { 2 ≤ base }
    requires high { base ≤ 16 }
    ensures { point_of result ≡ point_of (refs.value_of base digits.now) }
{
    let mut number = 0;
    for byte in digits {
        if number <= 0x10FFFF {
            number = number * base + digit(*byte, base);
        }
    }
    number
}

/// The reference whose digits start at `from`, after `&#` or `&#x` (#hexadecimal-character-reference-start-state to
/// #decimal-character-reference-state, and #numeric-character-reference-end-state).
fn numeric_reference(text: &[u8], from: usize, base: u32) -> Option<Reference>
    requires inside { from ≤ length text.now }
    requires low { 2 ≤ base }
    requires high { base ≤ 16 }
    ensures { let rest = drop from text.now in
        let read = refs.numeric from base (front (is_digit_of base) rest) (rest_after (is_digit_of base) rest) in
        MatchOption result (read ≡ None) (IsReadReference read text.now) }
{
    let to = digits_end(text, from, base);
    if to == from {
        return None;
    }
    let points = Points {
        first: number_value(number(&text[from..to], base)),
        second: None,
    };
    let len = to + semicolon_len(text, to);
    Some(Reference { points, len })
}

/// 1 if there is a `;` at a place, else 0.
fn semicolon_len(text: &[u8], at: usize) -> usize
    requires { at ≤ length text.now }
    ensures { result ≡ (if head_is refs.is_semicolon (drop at text.now) then 1 else 0) }
{
    if at < text.len() && text[at] == b';' {
        1
    } else {
        0
    }
}

/// The reference that starts with `&#` (#numeric-character-reference-state).
fn hash_reference(text: &[u8]) -> Option<Reference>
    requires { 2 ≤ length text.now }
    ensures { MatchOption result (refs.hash (drop 2 text.now) ≡ None) (IsReadReference (refs.hash (drop 2 text.now)) text.now) }
{
    if text.len() > 2 && (text[2] == b'x' || text[2] == b'X') {
        numeric_reference(text, 3, 16)
    } else {
        numeric_reference(text, 2, 10)
    }
}

/// Whether a name at the start of the text isn't a reference (#named-character-reference-state): it is in an attribute
/// value, doesn't end in `;`, and `=`, a letter or a digit follows.
fn is_blocked(in_value: bool, name: &[u8], text: &[u8]) -> bool
    requires { length name.now ≤ length text.now }
    ensures { result
        ≡ (in_value
        && not (names.is_closed name.now)
        && head_is refs.blocks (drop (length name.now) text.now)) }
{
    in_value && !is_closed(name) && begins_with_blocking(&text[name.len()..])
}

/// Whether a name ends in `;`.
pub fn is_closed(name: &[u8]) -> bool
    ensures { result ≡ names.is_closed name.now }
{
    match name {
        [.., last] => *last == b';',
        [] => false,
    }
}

/// Whether the byte is `=`, a letter or a digit: in an attribute value a name without `;` before it is no reference.
pub fn blocks(byte: u8) -> bool
    ensures { result ≡ refs.blocks byte }
{
    byte == b'=' || byte.is_ascii_alphanumeric()
}

/// Whether the first byte is `=`, a letter or a digit.
fn begins_with_blocking(rest: &[u8]) -> bool
    ensures { result ≡ head_is refs.blocks rest.now }
{
    match rest {
        [first, ..] => blocks(*first),
        [] => false,
    }
}

/// The reference by the longest name that the text starts with (#named-character-reference-state).
fn named_reference(table: &Table, text: &[u8], in_value: bool) -> Option<Reference>
    ensures { let read = refs.named in_value (longest table.now.entries text.now) in
        MatchOption result (read ≡ None) (IsReadReference read text.now) }
{
    every_table(table);
    let id = table.longest(text)?;
    let name = table.name(id);
    if is_blocked(in_value, name, text) {
        return None;
    }
    Some(Reference {
        points: table.points(id),
        len: name.len(),
    })
}

/// The reference at the start of a text that starts with `&` (#character-reference-state). `in_value` is true in an
/// attribute value.
pub fn read_reference(table: &Table, text: &[u8], in_value: bool) -> Option<Reference>
    requires some { 0 < length text.now }
    requires amp { slice_index text.now 0 ≡ 38 }
    ensures { let read = refs.reference table.now.entries in_value text.now in
        MatchOption result (read ≡ None) (IsReadReference read text.now) }
{
    if text.len() > 1 && text[1] == b'#' {
        hash_reference(text)
    } else {
        named_reference(table, text, in_value)
    }
}
