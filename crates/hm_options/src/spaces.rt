//! The whitespace of one text.
ghost use Rattle.std.specs.Prelude.{◌≡◌, ◌<◌, ◌≤◌, ◌++◌, length, take, drop, Bool, true, false, OnOk, string_bytes};
ghost use Rattle.hm_base.specs.Bytes as bytes;
ghost use Rattle.hm_options.specs.Fronts as fronts;
ghost use Rattle.hm_options.specs.Fronts.{AreSteady, IsSpacedFront, IsSteady};
ghost use Rattle.hm_options.specs.Space.{spaced, without_leading, without_trailing};

use hm_base::{OutOfMemory, is_space};

/// The front of a text that doesn't change when each longest run of whitespace becomes one space. It ends at byte `to`:
/// the end of the text, or whitespace that changes. `after` says whether a space is directly before.
#[derive(Clone, Copy)]
pub(crate) struct SpacedFront {
    pub(crate) to: usize,
    pub(crate) after: bool,
}

/// Whether a byte is whitespace. Most bytes of a text are greater than a space.
#[tactic(auto, unfolding(hm_base::specs::Bytes::is_space))]
fn is_blank(byte: u8) -> bool
    ensures { result ≡ bytes.is_space byte }
{
    byte <= b' ' && is_space(byte as char)
}

/// As `is_blank`. Every comparison is made, without a branch, so that many bytes can be tested at once.
#[inline(always)]
#[tactic(auto, unfolding(hm_base::specs::Bytes::is_space))]
fn is_any_space(byte: u8) -> bool
    ensures { result ≡ bytes.is_space byte }
{
    (byte == b'\t') | (byte == b'\n') | (byte == 12) | (byte == b'\r') | (byte == b' ')
}

/// As `changes`. Every comparison is made, without a branch.
#[inline(always)]
fn changes_at(after: bool, byte: u8) -> bool
    ensures { result ≡ fronts.changes after byte }
{
    is_any_space(byte) & (after | (byte != b' '))
}

/// Whether a byte is whitespace that changes. `after` says whether whitespace is directly before it.
fn changes(after: bool, byte: u8) -> bool
    ensures { result ≡ fronts.changes after byte }
{
    is_blank(byte) && (after || byte != b' ')
}

/// Whether one of the bytes in `here` is whitespace that changes. `earlier` has the byte before each of them. All are
/// tested, without a branch.
#[inline(always)]
fn has_change(earlier: &[u8], here: &[u8]) -> bool
    requires { length earlier.now ≡ length here.now }
    ensures { result ≡ false → AreSteady earlier.now here.now }
{
    let mut found = false;
    for i in 0..here.len() {
        found |= changes_at(is_any_space(earlier[i]), here[i]);
    }
    found
}

/// The end of a front in which no whitespace after the first byte changes. It is searched for by 16 bytes at a time.
fn steady_end(bytes: &[u8]) -> usize
    requires { 0 < length bytes.now }
    ensures inside { result ≤ length bytes.now }
    ensures some { 0 < result }
    ensures steady { IsSteady bytes.now 1 result }
{
    let mut at = 1;
    while bytes.len() - at >= 16 && !has_change(&bytes[at - 1..at + 15], &bytes[at..at + 16]) {
        at += 16;
    }
    at
}

/// A front in which no whitespace changes.
fn steady_front(bytes: &[u8]) -> SpacedFront
    ensures inside { result.to ≤ length bytes.now }
    ensures same { spaced false bytes.now ≡ take result.to bytes.now ++ spaced result.after (drop result.to bytes.now) }
{
    if bytes.is_empty() || changes(false, bytes[0]) {
        return SpacedFront {
            to: 0,
            after: false,
        };
    }
    let to = steady_end(bytes);
    SpacedFront {
        to,
        after: is_blank(bytes[to - 1]),
    }
}

/// The longest front in which no whitespace changes.
pub(crate) fn spaced_front(bytes: &[u8]) -> SpacedFront
    ensures { IsSpacedFront bytes.now result }
{
    let front = steady_front(bytes);
    let mut to = front.to;
    let mut after = front.after;
    while to < bytes.len() && !changes(after, bytes[to]) {
        after = is_blank(bytes[to]);
        to += 1;
    }
    SpacedFront { to, after }
}

/// The text without its leading whitespace.
fn after_space(text: &str) -> &str
    ensures same { spaced true text.now ≡ spaced false result.now }
    ensures shorter { length result.now ≤ length text.now }
{
    let bytes = text.as_bytes();
    let mut at = 0;
    while at < bytes.len() && is_space(bytes[at] as char) {
        at += 1;
    }
    &text[at..]
}

/// Appends the text with each longest run of whitespace as one space.
pub(crate) fn push_spaced(out: &mut String, text: &str) -> Result<(), OutOfMemory>
    ensures { OnOk result (string_bytes out.new ≡ string_bytes out.old ++ spaced false text.now) }
{
    let mut rest = text;
    'runs: loop {
        let front = spaced_front(rest.as_bytes());
        out.push_str(&rest[..front.to])?;
        if front.to == rest.len() {
            return Ok(());
        }
        if !front.after {
            out.push_str(" ")?;
        }
        rest = after_space(&rest[front.to + 1..]);
    }
}

/// Whether the first byte is a space.
pub(crate) fn begins_with_space(text: &str) -> bool
    ensures { (edge : Bool) → result ≡ false → text.now ≡ without_leading edge text.now }
{
    let bytes = text.as_bytes();
    !bytes.is_empty() && bytes[0] == b' '
}

/// Whether the last byte is a space.
pub(crate) fn ends_with_space(text: &str) -> bool
    ensures { (edge : Bool) → result ≡ false → text.now ≡ without_trailing edge text.now }
{
    let bytes = text.as_bytes();
    !bytes.is_empty() && bytes[bytes.len() - 1] == b' '
}

/// The text without a space at its start, if `edge` is set.
pub(crate) fn without_leading(text: &str, edge: bool) -> &str
    ensures { result.now ≡ without_leading edge text.now }
{
    let bytes = text.as_bytes();
    if edge && !bytes.is_empty() && bytes[0] == b' ' {
        return &text[1..];
    }
    text
}

/// The text without a space at its end, if `edge` is set.
pub(crate) fn without_trailing(text: &str, edge: bool) -> &str
    ensures { result.now ≡ without_trailing edge text.now }
{
    let bytes = text.as_bytes();
    if edge && !bytes.is_empty() && bytes[bytes.len() - 1] == b' ' {
        return &text[..bytes.len() - 1];
    }
    text
}
