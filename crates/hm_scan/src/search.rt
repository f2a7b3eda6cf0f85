//! Searches of the bytes of a text.
ghost use Rattle.std.specs.Prelude.{◌≡◌, ℕ, ◌+◌, ◌<◌, ◌≤◌, [], ◌∷◌, drop, length, codes, MatchOption, None, Some};
ghost use Rattle.hm_base.specs.Bytes.{cut_at, strip, strip_word, is_space, rest_after, lower};
ghost use Rattle.hm_scan.specs.Comments.{begins};
ghost use Rattle.hm_scan.specs.Found.{Finds};

use hm_base::leading_space;
use memchr::{memchr, memmem};

/// A piece of a text, the bytes from `from` up to `to`. Its end mark is at `to`, and the bytes after that start at
/// `after`.
#[derive(Clone, Copy)]
pub struct MarkPiece {
    pub from: usize,
    pub to: usize,
    pub after: usize,
}

/// The bytes from a place on up to the first `>`.
pub fn up_to_greater(bytes: &[u8], from: usize) -> Option<MarkPiece>
    requires { from ≤ length bytes.now }
    ensures { Finds bytes.now from (cut_at (codes ">") (drop from bytes.now)) result }
{
    match memchr(b'>', &bytes[from..]) {
        Some(found) => Some(MarkPiece {
            from,
            to: from + found,
            after: from + found + 1,
        }),
        None => None,
    }
}

/// The bytes from a place on up to the first `]]>`.
pub fn up_to_brackets(bytes: &[u8], from: usize) -> Option<MarkPiece>
    requires { from ≤ length bytes.now }
    ensures { Finds bytes.now from (cut_at (codes "]]>") (drop from bytes.now)) result }
{
    match memmem::find(&bytes[from..], b"]]>") {
        Some(found) => Some(MarkPiece {
            from,
            to: from + found,
            after: from + found + 3,
        }),
        None => None,
    }
}

/// Whether the bytes start with a mark.
#[tactic(auto, using(crate::proofs::Steps::begins_is))]
pub fn begins_with(bytes: &[u8], mark: &[u8]) -> bool
    ensures { result ≡ begins mark.now bytes.now }
{
    bytes.starts_with(mark)
}

/// The bytes after a mark, if they start with it.
pub fn after_mark<'t>(bytes: &'t [u8], mark: &[u8]) -> Option<&'t [u8]>
    ensures { MatchOption result (strip mark.now bytes.now ≡ None) (λ rest. strip mark.now bytes.now ≡ Some rest.now) }
{
    if bytes.starts_with(mark) {
        Some(&bytes[mark.len()..])
    } else {
        None
    }
}

/// The lowercase letter of an ASCII uppercase letter. Another byte is unchanged.
#[tactic(auto, unfolding(hm_base::specs::Bytes::lower))]
fn lowered(byte: u8) -> u8
    ensures { result ≡ lower byte }
{
    byte.to_ascii_lowercase()
}

/// The bytes after a word of lowercase letters, if they start with it in any ASCII case.
#[tactic(auto, using(crate::proofs::Steps::word_short))]
pub fn after_word<'t>(bytes: &'t [u8], word: &[u8]) -> Option<&'t [u8]>
    ensures { MatchOption result (strip_word word.now bytes.now ≡ None) (λ rest. strip_word word.now bytes.now ≡ Some rest.now) }
{
    if bytes.len() < word.len() {
        return None;
    }
    for i in 0..word.len() {
        if word[i] != lowered(bytes[i]) {
            return None;
        }
    }
    Some(&bytes[word.len()..])
}

/// The bytes after the whitespace at their start.
pub fn after_space(bytes: &[u8]) -> &[u8]
    ensures { result.now ≡ rest_after is_space bytes.now }
{
    &bytes[leading_space(bytes)..]
}
