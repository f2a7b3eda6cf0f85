//! Plain text: what is neither markup nor a character reference.
ghost use Rattle.std.specs.Prelude.{◌≡◌, ◌<◌, ◌≤◌, drop, length, MatchOption, None};
ghost use Rattle.memchr.specs.Find.{IsFirstByte};
ghost use Rattle.hm_refs.specs.Reads.{IsReadReference};
ghost use Rattle.hm_scan.specs.TextPlaces as places;
ghost use Rattle.hm_scan.specs.TextPlaces.{IsPlainTo, ends_before, is_sign};
ghost use Rattle.hm_scan.specs.Texts as texts;

use hm_refs::{Reference, Table, read_reference};
use memchr::{memchr, memchr2};

/// Whether a `<` before these bytes starts markup.
#[inline(always)]
#[tactic(auto, unfolding(hm_base::specs::Bytes::is_letter))]
fn opens_markup(bytes: &[u8]) -> bool
    ensures { result ≡ texts.opens_markup bytes.now }
{
    match bytes {
        [first, rest @ ..] => {
            first.is_ascii_alphabetic()
                || *first == b'!'
                || *first == b'?'
                || (*first == b'/' && !rest.is_empty())
        }
        [] => false,
    }
}

/// Whether the bytes start with markup.
#[inline(always)]
#[tactic(auto, unfolding(crate::specs::Texts::begins_markup))]
pub fn markup_here(bytes: &[u8]) -> bool
    ensures { result ≡ texts.begins_markup bytes.now }
{
    match bytes {
        [first, rest @ ..] => *first == b'<' && opens_markup(rest),
        [] => false,
    }
}

/// The character reference at the start of the bytes.
pub fn reference_here(table: &Table, bytes: &[u8]) -> Option<Reference>
    requires { 0 < length bytes.now }
    ensures { let read = places.reference_here table.now.entries bytes.now in
        MatchOption result (read ≡ None) (IsReadReference read bytes.now) }
{
    if bytes[0] == b'&' {
        read_reference(table, bytes, false)
    } else {
        None
    }
}

/// Whether a plain text ends before these bytes. `rcdata` is true in a title or a textarea.
fn ends_plain(table: &Table, bytes: &[u8], rcdata: bool) -> bool
    requires { 0 < length bytes.now }
    ensures { result ≡ ends_before table.now.entries rcdata bytes.now }
{
    (!rcdata && markup_here(bytes)) || reference_here(table, bytes).is_some()
}

/// How many bytes after a place the next byte is before which a plain text can end.
fn next_sign(bytes: &[u8], from: usize, rcdata: bool) -> Option<usize>
    requires { from ≤ length bytes.now }
    ensures { IsFirstByte (is_sign rcdata) (drop from bytes.now) result }
{
    if rcdata {
        memchr(b'&', &bytes[from..])
    } else {
        memchr2(b'<', b'&', &bytes[from..])
    }
}

/// The end of the plain text that starts at `from`. `rcdata` is true in a title or a textarea.
pub fn plain_end(table: &Table, bytes: &[u8], from: usize, rcdata: bool) -> usize
    requires { from ≤ length bytes.now }
    ensures { IsPlainTo table.now.entries rcdata bytes.now from result }
{
    let mut at = from;
    'signs: while let Some(len) = next_sign(bytes, at, rcdata) {
        let to = at + len;
        if ends_plain(table, &bytes[to..], rcdata) {
            return to;
        }
        at = to + 1;
    }
    bytes.len()
}
