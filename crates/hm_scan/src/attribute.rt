//! The parts of an attribute, by their places in the text.
ghost use Rattle.std.specs.Prelude.{◌≡◌, ◌+◌, ◌≤◌, ◌<◌, length, drop, true, false, slice_index, slice_range, IfSome, IsUtf8, IsCharBoundary};
ghost use Rattle.memchr.specs.Find.{IsFirstByte, Nowhere, Passes, is_byte};
ghost use Rattle.hm_base.specs.Bytes.{rest_after, is_space};
ghost use Rattle.hm_scan.specs.Tags as tags;
ghost use Rattle.hm_scan.specs.Tags.{cut_assigned, cut_quoted, cut_value};
ghost use Rattle.hm_scan.specs.TagPlaces.{IsAttributeAt, IsCutAt, IsOrdinaryName};
ghost use Rattle.hm_refs.specs.Reads.{IsEndOf};

use crate::names::is_tag_byte;
use crate::tag_runs::{ByteRun, plain_run_end, run_end};
use memchr::{memchr, memchr2};

/// A value: the bytes from `from` up to `to`. The bytes after it and its quote start at `after`. `plain` means that it
/// has no `&`, so that its bytes are its text.
#[derive(Clone, Copy)]
pub(crate) struct Value {
    pub(crate) from: usize,
    pub(crate) to: usize,
    pub(crate) after: usize,
    pub(crate) plain: bool,
}

/// The place of the first quote of one kind. `plain` means that no `&` comes before it.
#[derive(Clone, Copy)]
struct FoundQuote {
    at: Option<usize>,
    plain: bool,
}

/// An attribute whose name ends at `name_to`. `plain` means that the name is allowed and its bytes are its text.
#[derive(Clone, Copy)]
pub(crate) struct WrittenAttribute {
    pub(crate) name_to: usize,
    pub(crate) plain: bool,
    pub(crate) value: Value,
}

/// The end of an attribute's name. `plain` means that the name is allowed and its bytes are its text.
#[derive(Clone, Copy)]
struct NamePart {
    to: usize,
    plain: bool,
}

/// An empty value at a place.
fn empty(at: usize) -> Value
    ensures { result ≡ record { from = at; to = at; after = at; plain = false } }
{
    Value {
        from: at,
        to: at,
        after: at,
        plain: false,
    }
}

/// Whether the byte is `"` or `'`.
#[tactic(auto, unfolding(crate::specs::Tags::is_quote))]
fn is_quote(byte: u8) -> bool
    ensures { result ≡ tags.is_quote byte }
{
    byte == b'"' || byte == b'\''
}

/// The place of the first quote at or after `from`.
fn quote_from(bytes: &[u8], from: usize, quote: u8) -> Option<usize>
    requires inside { from ≤ length bytes.now }
    requires none { Nowhere (Passes (is_byte quote) bytes.now) 0 from }
    ensures { IsFirstByte (is_byte quote) bytes.now result }
{
    match memchr(quote, &bytes[from..]) {
        Some(len) => Some(from + len),
        None => None,
    }
}

/// The place of the first quote of one kind. The same search finds the first `&`.
fn find_quote(bytes: &[u8], quote: u8) -> FoundQuote
    requires { tags.is_quote quote ≡ true }
    ensures found { IsFirstByte (is_byte quote) bytes.now result.at }
    ensures plain { result.plain ≡ true → IfSome result.at (λ n. Nowhere (Passes (is_byte 38) bytes.now) 0 n) }
{
    match memchr2(quote, b'&', bytes) {
        Some(at) => {
            if bytes[at] == quote {
                return FoundQuote {
                    at: Some(at),
                    plain: true,
                };
            }
            FoundQuote {
                at: quote_from(bytes, at, quote),
                plain: false,
            }
        }
        None => FoundQuote {
            at: None,
            plain: false,
        },
    }
}

/// The value that starts after a quote (#attribute-value-(double-quoted)-state,
/// #attribute-value-(single-quoted)-state).
fn quoted_value(bytes: &[u8], from: usize, quote: u8) -> Value
    requires utf8 { IsUtf8 bytes.now }
    requires quote { tags.is_quote quote ≡ true }
    requires boundary { IsCharBoundary bytes.now from }
    ensures cut { IsCutAt (cut_quoted quote (drop from bytes.now)) bytes.now result }
    ensures forward { from ≤ result.after }
{
    let found = find_quote(&bytes[from..], quote);
    match found.at {
        Some(len) => Value {
            from,
            to: from + len,
            after: from + len + 1,
            plain: found.plain,
        },
        None => Value {
            from,
            to: bytes.len(),
            after: bytes.len(),
            plain: false,
        },
    }
}

/// The value that starts after `=` and whitespace (#before-attribute-value-state to #attribute-value-(unquoted)-state).
fn value_at(bytes: &[u8], from: usize) -> Value
    requires utf8 { IsUtf8 bytes.now }
    requires boundary { IsCharBoundary bytes.now from }
    ensures cut { IsCutAt (cut_value (drop from bytes.now)) bytes.now result }
    ensures forward { from ≤ result.after }
{
    if from == bytes.len() {
        return empty(from);
    }
    let quote = bytes[from];
    if is_quote(quote) {
        return quoted_value(bytes, from + 1, quote);
    }
    let to = run_end(bytes, from, ByteRun::Unquoted);
    Value {
        from,
        to,
        after: to,
        plain: false,
    }
}

/// The value of an attribute whose name ends at `from` (#after-attribute-name-state).
fn assigned_value(bytes: &[u8], from: usize) -> Value
    requires utf8 { IsUtf8 bytes.now }
    requires boundary { IsCharBoundary bytes.now from }
    ensures cut { IsCutAt (cut_assigned (drop from bytes.now) (rest_after is_space (drop from bytes.now))) bytes.now result }
    ensures forward { from ≤ result.after }
{
    let equals = run_end(bytes, from, ByteRun::Space);
    if equals == bytes.len() {
        return empty(equals);
    }
    if bytes[equals] != b'=' {
        return empty(from);
    }
    value_at(bytes, run_end(bytes, equals + 1, ByteRun::Space))
}

/// Whether the byte at `to` ends the name of an attribute.
fn ends_name(bytes: &[u8], to: usize) -> bool
    ensures inside { result ≡ true → to < length bytes.now }
    ensures ends { result ≡ true → tags.is_later_byte (slice_index bytes.now to) ≡ false }
{
    to < bytes.len() && !ByteRun::AttributeName.has(bytes[to])
}

/// The name of the attribute that starts at `at`.
fn name_part(bytes: &[u8], at: usize) -> NamePart
    requires { at < length bytes.now }
    ensures end { IsEndOf tags.is_later_byte bytes.now (at + 1) result.to }
    ensures plain { result.plain ≡ true → IsOrdinaryName (slice_range bytes.now at result.to) }
{
    let to = plain_run_end(bytes, at + 1);
    if is_tag_byte(bytes[at]) && ends_name(bytes, to) {
        return NamePart { to, plain: true };
    }
    NamePart {
        to: run_end(bytes, at + 1, ByteRun::AttributeName),
        plain: false,
    }
}

/// The attribute that starts at `at` (#attribute-name-state).
pub(crate) fn attribute_at(bytes: &[u8], at: usize) -> WrittenAttribute
    requires utf8 { IsUtf8 bytes.now }
    requires inside { at < length bytes.now }
    ensures { IsAttributeAt bytes.now at result }
{
    let name = name_part(bytes, at);
    WrittenAttribute {
        name_to: name.to,
        plain: name.plain,
        value: assigned_value(bytes, name.to),
    }
}
