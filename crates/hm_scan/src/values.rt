//! Values of attributes with their character references read.
ghost use Rattle.std.specs.Prelude.{false, ◌≡◌, ◌++◌, ◌≤◌, length, drop, string_bytes, encode_utf8_all, IfOk, OnOk, MatchOption, IsUtf8};
ghost use Rattle.hm_refs.specs.Tables.{points_list};
ghost use Rattle.hm_scan.specs.Reads.{IsNext};
ghost use Rattle.hm_scan.specs.Values as values;

use hm_base::{OutOfMemory, Points};
use hm_refs::{Reference, Table, read_reference};
use memchr::memchr;
use std::alloc::Global;

/// A reference that starts at `at`.
#[derive(Clone, Copy)]
pub(crate) struct PlacedReference {
    pub(crate) at: usize,
    pub(crate) reference: Reference,
}

/// The first reference of a value at or after `from`.
fn next_reference(table: &Table, bytes: &[u8], from: usize) -> Option<PlacedReference>
    requires utf8 { IsUtf8 bytes.now }
    requires inside { from ≤ length bytes.now }
    ensures { MatchOption result
        (values.read_value table.now.entries (drop from bytes.now) ≡ drop from bytes.now)
        (IsNext table.now.entries bytes.now from) }
{
    let mut at = from;
    while let Some(len) = memchr(b'&', &bytes[at..]) {
        let amp = at + len;
        if let Some(reference) = read_reference(table, &bytes[amp..], true) {
            return Some(PlacedReference { at: amp, reference });
        }
        at = amp + 1;
    }
    None
}

/// Whether a value has a character reference in it.
pub(crate) fn has_reference(written: &str, table: &Table) -> bool
    ensures { result ≡ false → values.read_value table.now.entries written.now ≡ written.now }
{
    next_reference(table, written.as_bytes(), 0).is_some()
}

/// Appends the code points of a reference to a text.
fn push_points(text: &mut String, points: Points) -> Result<(), OutOfMemory>
    ensures { OnOk result
        (string_bytes text.new ≡ string_bytes text.old ++ encode_utf8_all (points_list points)) }
{
    text.push(points.first)?;
    if let Some(second) = points.second {
        text.push(second)?;
    }
    Ok(())
}

/// A value from its bytes in the page (#attribute-value-(double-quoted)-state to #attribute-value-(unquoted)-state),
/// with its character references read (#character-reference-state).
pub(crate) fn read_value(alloc: Global, written: &str, table: &Table) -> Result<String, OutOfMemory>
    ensures { IfOk result
        (λ value. string_bytes value ≡ values.read_value table.now.entries written.now) }
{
    let mut value = String::new(alloc);
    let mut at = 0;
    while let Some(placed) = next_reference(table, written.as_bytes(), at) {
        value.push_str(&written[at..placed.at])?;
        push_points(&mut value, placed.reference.points)?;
        at = placed.at + placed.reference.len;
    }
    value.push_str(&written[at..])?;
    Ok(value)
}
