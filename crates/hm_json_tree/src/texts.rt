//! Names and texts that the rules of settled trees allow.
ghost use Rattle.std.specs.Prelude.{◌≡◌, ◌++◌, length, IfOk};
ghost use Rattle.hm_base.specs.Bytes.{all_pass, strip};
ghost use Rattle.hm_base.specs.Bytes as bytes;
ghost use Rattle.hm_base.specs.Forms as forms;
ghost use Rattle.hm_base.specs.RawText.{is_found};
ghost use Rattle.hm_elements.specs.Settled.{end_tag, is_place, raw_text_end};

use hm_base::{OutOfMemory, is_space};
use hm_elements::same_name;
use hm_scan::{end_tag_place, script_end};
use std::alloc::Global;

/// Whether the byte is among these.
pub(crate) fn has_byte(text: &[u8], byte: u8) -> bool
    ensures { result ≡ forms.has_byte byte text.now }
{
    for one in text {
        if *one == byte {
            return true;
        }
    }
    false
}

/// Whether these are only whitespace.
pub(crate) fn is_blank(text: &[u8]) -> bool
    ensures { result ≡ forms.is_blank text.now }
{
    for byte in text {
        if !is_space(*byte as char) {
            return false;
        }
    }
    true
}

/// Whether an attribute of a tree may have this name.
#[tactic(auto, unfolding(hm_base::specs::Forms::is_attribute_name))]
pub(crate) fn is_attribute_name(name: &[u8]) -> bool
    ensures { result ≡ forms.is_attribute_name name.now }
{
    match name {
        [] => false,
        [_, ..] => are_attribute_bytes(name),
    }
}

/// Whether all bytes are allowed in the name of an attribute of a tree.
fn are_attribute_bytes(name: &[u8]) -> bool
    ensures { result ≡ all_pass forms.is_attribute_byte name.now }
{
    for byte in name {
        if !is_attribute_byte(*byte) {
            return false;
        }
    }
    true
}

/// Whether the byte is allowed in the name of an attribute of a tree.
#[tactic(auto, unfolding(hm_base::specs::Forms::is_attribute_byte))]
fn is_attribute_byte(byte: u8) -> bool
    ensures { result ≡ forms.is_attribute_byte byte }
{
    !(byte.is_ascii_uppercase()
        || is_space(byte as char)
        || matches!(byte, b'/' | b'>' | b'=' | b'"' | b'\'' | b'<' | 0))
}

/// Whether the text is allowed in a comment.
#[tactic(auto, unfolding(hm_base::specs::Forms::is_comment_text))]
pub(crate) fn is_comment_text(text: &[u8]) -> bool
    ensures { result ≡ forms.is_comment_text text.now }
{
    !has_byte(text, b'\r')
        && !begins(text, b">")
        && !begins(text, b"->")
        && !has_mark(text, b"-->")
        && !has_mark(text, b"--!>")
}

/// Whether the text starts with a mark.
#[tactic(auto, using(hm_scan::proofs::Steps::begins_is))]
fn begins(text: &[u8], mark: &[u8]) -> bool
    ensures { result ≡ is_found (strip mark.now text.now) }
{
    text.starts_with(mark)
}

/// Whether a mark is in the text.
fn has_mark(text: &[u8], mark: &[u8]) -> bool
    ensures { result ≡ forms.has_mark mark.now text.now }
{
    for i in 0..text.len() {
        if begins(&text[i..], mark) {
            return true;
        }
    }
    false
}

/// Whether a raw text in an element of this name ends right at an end tag of that name directly after it.
pub(crate) fn ends_raw(alloc: Global, name: &str, text: &str) -> Result<bool, OutOfMemory>
    ensures { IfOk result (λ ends. ends ≡ is_place (length text.now) (raw_text_end name.now (text.now ++ end_tag name.now))) }
{
    let bytes = with_end_tag(alloc, name, text)?;
    let end = if same_name(name, "script") {
        script_end(&bytes, 0)
    } else {
        end_tag_place(&bytes, 0, name.as_bytes())
    };
    match end {
        Some(at) => Ok(at == text.len()),
        None => Ok(false),
    }
}

/// The text, and an end tag of this name after it.
fn with_end_tag(alloc: Global, name: &str, text: &str) -> Result<Vec<u8>, OutOfMemory>
    ensures { IfOk result (λ bytes. bytes.items ≡ text.now ++ end_tag name.now) }
{
    let mut bytes = Vec::new(alloc);
    bytes.extend_from_slice(text.as_bytes())?;
    bytes.extend_from_slice(b"</")?;
    bytes.extend_from_slice(name.as_bytes())?;
    bytes.extend_from_slice(b">")?;
    Ok(bytes)
}
