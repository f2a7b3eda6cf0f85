//! Raw text.
ghost use Rattle.std.specs.Prelude.{◌≡◌, ℕ, ◌^◌, ◌<◌, ◌≤◌, drop, length, IfOk, IfErr, IsCharBoundary};
ghost use Rattle.hm_base.specs.Bytes.{head_is, strip_word};
ghost use Rattle.hm_base.specs.RawText as raw;
ghost use Rattle.hm_tree.specs.Tokens.{BeginsAt, Reads, refused};
ghost use Rattle.hm_scan.specs.Found.{FindsPlace};
ghost use Rattle.hm_scan.specs.RawTexts.{read_raw};

use crate::search::after_word;
use hm_base::is_space_byte;
use hm_tree::{ScanFault, Token};
use memchr::memmem;

/// Whether the bytes begin with one that ends the name of a tag.
#[tactic(auto, unfolding(hm_base::specs::RawText::is_name_end))]
fn ends_name(bytes: &[u8]) -> bool
    ensures { result ≡ head_is raw.is_name_end bytes.now }
{
    match bytes.first() {
        Some(byte) => is_space_byte(*byte) || *byte == b'/' || *byte == b'>',
        None => false,
    }
}

/// Whether the bytes start with a word of lowercase letters, in any ASCII case, and then the end of a name.
pub fn begins_with_name(bytes: &[u8], word: &[u8]) -> bool
    ensures { result ≡ raw.is_found_whole (strip_word word.now bytes.now) }
{
    match after_word(bytes, word) {
        Some(rest) => ends_name(rest),
        None => false,
    }
}

/// Whether the bytes start with an end tag of that name.
#[tactic(auto, unfolding(hm_base::specs::RawText::begins_end_tag), using(crate::proofs::Lowered::words_joined))]
fn begins_end_tag(bytes: &[u8], name: &[u8]) -> bool
    ensures { result ≡ raw.begins_end_tag name.now bytes.now }
{
    match after_word(bytes, b"</") {
        Some(rest) => begins_with_name(rest, name),
        None => false,
    }
}

/// The place of the first end tag of that name at or after `from`: `</`, the name in any ASCII case, and whitespace,
/// `/` or `>`.
pub fn end_tag_place(bytes: &[u8], from: usize, name: &[u8]) -> Option<usize>
    requires { from ≤ length bytes.now }
    ensures { FindsPlace bytes.now from (raw.raw_end name.now (drop from bytes.now)) result }
{
    let mut at = from;
    'tags: while let Some(found) = memmem::find(&bytes[at..], b"</") {
        let to = at + found;
        if begins_end_tag(&bytes[to..], name) {
            return Some(to);
        }
        at = to + 1;
    }
    None
}

/// Reads the text from byte `at` on up to the end tag of that name (#rcdata-less-than-sign-state to
/// #rawtext-end-tag-name-state). The end tag is `</`, the name in any ASCII case, and whitespace, `/` or `>`. `name` is
/// in lowercase letters. `Cut` means that no such end tag follows.
pub fn scan_raw(text: &str, at: u32, name: &str) -> Result<(Token, u32), ScanFault>
    requires boundary { IsCharBoundary text.now at }
    requires size { length text.now < 2 ^ 32 }
    ensures ok { IfOk result (λ r. Reads (read_raw name.now (drop at text.now)) text.now r.0 r.1) }
    ensures err { IfErr result (λ fault. read_raw name.now (drop at text.now) ≡ refused fault) }
    ensures forward { IfOk result (λ r. at ≤ r.1) }
    ensures placed { IfOk result (λ r. BeginsAt at r.0) }
{
    match end_tag_place(text.as_bytes(), at as usize, name.as_bytes()) {
        Some(to) => Ok((
            Token::Slice {
                from: at,
                to: to as u32,
            },
            to as u32,
        )),
        None => Err(ScanFault::Cut),
    }
}
