//! Names of tags and attributes.
ghost use Rattle.std.specs.Prelude.{◌≡◌, map, string_bytes, true, IfOk, OnOk};
ghost use Rattle.hm_base.specs.Bytes.{lower, all_pass, some_passes};
ghost use Rattle.hm_base.specs.Forms as forms;
ghost use Rattle.hm_scan.specs.TagPlaces.{IsPlainName};
ghost use Rattle.hm_scan.specs.Reading as reading;

use hm_base::OutOfMemory;
use std::alloc::Global;

/// Replaces a text by the name, with its ASCII uppercase letters in lowercase.
#[tactic(auto, using(crate::proofs::NameReads::lowercase_is))]
pub(crate) fn put_lowered(text: &mut String, name: &str) -> Result<(), OutOfMemory>
    ensures { OnOk result (string_bytes text.new ≡ map lower name.now) }
{
    text.clear();
    text.push_str(name)?;
    text.make_ascii_lowercase();
    Ok(())
}

/// Replaces a text by the name in lowercase letters. `plain` means that it already is.
#[inline(always)]
pub(crate) fn put_name(text: &mut String, name: &str, plain: bool) -> Result<(), OutOfMemory>
    requires { plain ≡ true → IsPlainName name.now }
    ensures { OnOk result (string_bytes text.new ≡ map lower name.now) }
{
    if !plain {
        return put_lowered(text, name);
    }
    text.clear();
    text.push_str(name)?;
    Ok(())
}

/// A copy of the name, with its ASCII uppercase letters in lowercase.
pub(crate) fn lowered(alloc: Global, name: &str) -> Result<String, OutOfMemory>
    ensures { IfOk result (λ text. string_bytes text ≡ map lower name.now) }
{
    let mut text = String::new(alloc);
    put_lowered(&mut text, name)?;
    Ok(text)
}

/// Whether the byte is an ASCII lowercase letter.
#[tactic(auto, unfolding(hm_base::specs::Forms::is_small))]
pub(crate) fn is_small(byte: u8) -> bool
    ensures { result ≡ forms.is_small byte }
{
    byte >= b'a' && byte <= b'z'
}

/// Whether the byte may stand in the name of an element.
#[tactic(auto, using(hm_refs::proofs::Digits::digit_is), unfolding(hm_base::specs::Forms::is_tag_byte))]
pub(crate) fn is_tag_byte(byte: u8) -> bool
    ensures { result ≡ forms.is_tag_byte byte }
{
    is_small(byte)
        || byte.is_ascii_digit()
        || byte == b'.'
        || byte == b'_'
        || byte == b':'
        || byte == b'-'
}

/// Whether all bytes are allowed in the name of an element, after the first one.
fn are_tag_bytes(name: &[u8]) -> bool
    ensures { result ≡ all_pass forms.is_tag_byte name.now }
{
    for byte in name {
        if !is_tag_byte(*byte) {
            return false;
        }
    }
    true
}

/// Whether this name of an element is allowed (#tag-name-state): a lowercase letter, and after it lowercase letters,
/// digits, `.`, `_`, `:` and `-`.
#[tactic(auto, unfolding(hm_base::specs::Forms::is_tag_name))]
pub fn is_tag_name(name: &[u8]) -> bool
    ensures { result ≡ forms.is_tag_name name.now }
{
    match name {
        [first, rest @ ..] => is_small(*first) && are_tag_bytes(rest),
        [] => false,
    }
}

/// Whether the byte is a quote or `<`.
#[tactic(auto, unfolding(crate::specs::Reading::is_bad_byte))]
fn is_bad_byte(byte: u8) -> bool
    ensures { result ≡ reading.is_bad_byte byte }
{
    byte == b'"' || byte == b'\'' || byte == b'<'
}

/// Whether one of the bytes is a quote or `<`.
fn has_bad_byte(name: &[u8]) -> bool
    ensures { result ≡ some_passes reading.is_bad_byte name.now }
{
    for byte in name {
        if is_bad_byte(*byte) {
            return true;
        }
    }
    false
}

/// Whether this name of an attribute isn't allowed: it starts with `=`, or has a quote or `<` in it.
pub(crate) fn is_bad_name(name: &[u8]) -> bool
    ensures { result ≡ reading.is_bad_name name.now }
{
    match name {
        [first, ..] => *first == b'=' || has_bad_byte(name),
        [] => false,
    }
}
