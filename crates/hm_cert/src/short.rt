//! Lines of prices of few digits. They are checked from their start and read from their end.
ghost use Rattle.std.specs.Prelude.{◌≡◌, ◌<◌, length, map, reverse, IfOk, IfSome};
ghost use Rattle.hm_cert.specs.Layout.{told};
ghost use Rattle.hm_cert.specs.Short.{AreDigits, IsBackTo, IsLastPrice, IsShortLine, IsShortRow, IsShortWord};

use crate::leading::LeadingDigits;
use crate::lines::has_number_form;
use crate::prices::INFINITE;
use hm_base::OutOfMemory;

/// How many digits a text starts with.
fn count_digits(text: &[u8]) -> usize
    ensures { AreDigits text.now result }
{
    for (len, byte) in text.iter().enumerate() {
        if !byte.is_ascii_digit() {
            return len;
        }
    }
    text.len()
}

/// The length in bytes of an infinite price at the start of a text, if there is one and more text after it.
fn closed_word(text: &[u8]) -> Option<usize>
    ensures { IfSome result (IsShortWord text.now) }
{
    match text {
        [b'-', _, ..] => Some(1),
        _ => None,
    }
}

/// The length in bytes of a price at the start of a text, if there is one that is infinite or has at most 18 digits,
/// and more text after it.
fn short_word(text: &[u8]) -> Option<usize>
    ensures { IfSome result (IsShortWord text.now) }
{
    let len = count_digits(text);
    if !has_number_form(&text[..len]) {
        return closed_word(text);
    }
    if len > 18 {
        return None;
    }
    if len == text.len() {
        return None;
    }
    Some(len)
}

/// The length in bytes of a price with these first digits at the start of a text, if there is one and more text after
/// it.
fn word_with(known: &LeadingDigits<'_>, text: &[u8]) -> Option<usize>
    ensures { IfSome result (IsShortWord text.now) }
{
    if text.len() == known.width() {
        return None;
    }
    match known.number_of(text) {
        Some(_) => Some(known.width()),
        None => None,
    }
}

/// As `short_word`, given the first digits of an earlier price. If this price has other ones, `known` becomes these.
fn short_word_like<'a>(text: &'a [u8], known: &mut LeadingDigits<'a>) -> Option<usize>
    ensures { IfSome result (IsShortWord text.now) }
{
    if let Some(len) = word_with(known, text) {
        return Some(len);
    }
    let len = short_word(text)?;
    if let Some(leading) = LeadingDigits::read(&text[..len]) {
        *known = leading;
    }
    Some(len)
}

/// The end of the first line of a text, in bytes, if each of its words is such a price.
pub(crate) fn short_line<'a>(text: &'a [u8], known: &mut LeadingDigits<'a>) -> Option<usize>
    ensures { IfSome result (IsShortLine text.now) }
{
    let mut at = 0;
    while let Some(len) = short_word_like(&text[at..], known) {
        let end = at + len;
        if text[end] == b'\n' {
            return Some(end);
        }
        if text[end] != b' ' {
            return None;
        }
        at = end + 1;
    }
    None
}

/// The number of the digits at the end of a text, at most 18, and the byte at which they start.
fn back_number(text: &[u8]) -> (u64, usize)
    ensures { IsBackTo text.now result.1 result.0 }
{
    let low = text.len().saturating_sub(18);
    let mut number: u64 = 0;
    let mut power: u64 = 1;
    let mut at = text.len();
    while at > low {
        let byte = text[at - 1];
        if !byte.is_ascii_digit() {
            return (number, at);
        }
        number += u64::from(byte - b'0') * power;
        power *= 10;
        at -= 1;
    }
    (number, at)
}

/// The price at the end of a text and the byte at which it starts, if it is infinite or has at most 18 digits.
fn back_price(text: &[u8]) -> Option<(u64, usize)>
    ensures { IfSome result (λ found. IsLastPrice text.now found.1 found.0) }
{
    let (number, at) = back_number(text);
    if has_number_form(&text[at..]) {
        return Some((number, at));
    }
    match text {
        [.., b'-'] => Some((INFINITE, text.len() - 1)),
        _ => None,
    }
}

/// The price with these first digits at the end of a text, and the byte at which it starts.
fn price_with(known: &LeadingDigits<'_>, text: &[u8]) -> Option<(u64, usize)>
    ensures { IfSome result (λ found. IsLastPrice text.now found.1 found.0) }
{
    if text.len() < known.width() {
        return None;
    }
    let at = text.len() - known.width();
    let number = known.number_of(&text[at..])?;
    Some((number, at))
}

/// As `back_price`, given the first digits of another price. If this price has other ones, `known` becomes these.
fn back_price_like<'a>(text: &'a [u8], known: &mut LeadingDigits<'a>) -> Option<(u64, usize)>
    ensures { IfSome result (λ found. IsLastPrice text.now found.1 found.0) }
{
    if let Some(found) = price_with(known, text) {
        return Some(found);
    }
    let (price, at) = back_price(text)?;
    if let Some(leading) = LeadingDigits::of(&text[at..], price) {
        *known = leading;
    }
    Some((price, at))
}

/// Reverses a row. Most have at most three prices.
fn turn(row: &mut Vec<u64>)
    ensures { row.new.items ≡ reverse row.old.items }
{
    let len = row.len();
    if len > 3 {
        row.reverse();
    } else if len > 1 {
        row.swap(0, len - 1);
    }
}

/// Reads the row whose line ends at byte `end` into a list, whose old items are dropped. An infinite price is
/// `INFINITE`. Returns the byte at which the line starts, or None if a finite price has more than 18 digits.
pub(crate) fn short_row_before<'a>(
    text: &'a [u8],
    end: usize,
    into: &mut Vec<u64>,
    known: &mut LeadingDigits<'a>,
) -> Result<Option<usize>, OutOfMemory>
    requires { end < length text.now }
    ensures { IfOk result (λ found. IfSome found (IsShortRow text.now end (map told into.new.items))) }
{
    into.clear();
    let mut front = end;
    while let Some((next, at)) = back_price_like(&text[..front], known) {
        into.push(next)?;
        if at == 0 || text[at - 1] == b'\n' {
            turn(into);
            return Ok(Some(at));
        }
        if text[at - 1] != b' ' {
            return Ok(None);
        }
        front = at - 1;
    }
    Ok(None)
}
