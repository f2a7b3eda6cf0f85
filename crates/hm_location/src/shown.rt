//! The part of a line that is printed for a byte.
ghost use Rattle.std.specs.Prelude.{◌≡◌, ◌++◌, ◌≤◌, drop, length, take};
ghost use Rattle.hm_location.specs.declared.shown.TheConstants.{BEFORE, AFTER_PLACE};
ghost use Rattle.hm_location.specs.Shown.{IsPart, front_shown, line_at, line_rest, rest_shown, shown_before, shown_after, shown_place};

use crate::place::{is_char_start, line_start};

/// The most bytes that are printed before a place.
pub const BEFORE: usize = 60;

/// The most bytes that are printed from a place on.
pub const AFTER_PLACE: usize = 40;

/// A part of a line, and how many of its bytes are before the place.
#[derive(Clone, Copy)]
pub struct ShownLine<'a> {
    /// The bytes, without the end of the line.
    pub bytes: &'a [u8],
    /// How many of the bytes are before the place.
    pub front: usize,
}

/// The part of the line of byte `at` that is printed: at most 60 bytes before the place and 40 from it on, cut between
/// characters. For the LF of a CR LF the place is its CR.
pub fn shown_line(text: &[u8], at: usize) -> ShownLine<'_>
    requires { at ≤ length text.now }
    ensures bytes { result.bytes.now ≡ front_shown text.now at ++ rest_shown text.now at }
    ensures front { take result.front result.bytes.now ≡ front_shown text.now at }
    ensures inside { result.front ≤ length result.bytes.now }
    ensures short { length result.bytes.now ≤ 100 }
    ensures part { IsPart result.bytes.now (line_at text.now (shown_place text.now at)) }
{
    let place = shown_place(text, at);
    let begin = line_start(text, place).begin;
    let front = &text[begin..place];
    let rest = &text[place..place + rest_len(&text[place..])];
    let cut = cut_before(front);
    let kept = cut_after(rest);
    ShownLine {
        bytes: &text[begin + cut..place + kept],
        front: front.len() - cut,
    }
}

/// The place, or that of the CR if it is the LF of a CR LF.
fn shown_place(text: &[u8], at: usize) -> usize
    requires { at ≤ length text.now }
    ensures place { result ≡ shown_place text.now at }
    ensures inside { result ≤ at }
{
    if at == 0 || at == text.len() {
        return at;
    }
    if text[at - 1] == b'\r' && text[at] == b'\n' {
        at - 1
    } else {
        at
    }
}

/// How many bytes are before the end of the line.
fn rest_len(text: &[u8]) -> usize
    ensures inside { result ≤ length text.now }
    ensures rest { take result text.now ≡ line_rest text.now }
{
    let mut len = 0;
    while len < text.len() && text[len] != b'\n' && text[len] != b'\r' {
        len += 1;
    }
    len
}

/// How many bytes at the start of `front`, the line before the place, aren't printed.
fn cut_before(front: &[u8]) -> usize
    ensures inside { result ≤ length front.now }
    ensures shown { drop result front.now ≡ shown_before BEFORE front.now }
{
    if front.len() <= BEFORE {
        return 0;
    }
    let mut from = front.len() - BEFORE;
    while from < front.len() && !is_char_start(front[from]) {
        from += 1;
    }
    from
}

/// How many bytes from the place on are printed.
fn cut_after(rest: &[u8]) -> usize
    ensures inside { result ≤ length rest.now }
    ensures shown { take result rest.now ≡ shown_after AFTER_PLACE rest.now }
{
    let mut to = AFTER_PLACE;
    while to > 0 && to < rest.len() && !is_char_start(rest[to]) {
        to -= 1;
    }
    to.min(rest.len())
}
