//! Where tags begin.
ghost use Rattle.std.specs.Prelude.{◌≡◌, ◌≤◌, drop, length};
ghost use Rattle.hm_base.specs.Bytes.{head_is, is_letter};
ghost use Rattle.hm_scan.specs.Reading as reading;

/// Whether the byte is an ASCII letter.
#[tactic(auto, using(crate::proofs::TagStarts::alphabetic_is))]
fn is_letter(byte: u8) -> bool
    ensures { result ≡ is_letter byte }
{
    byte.is_ascii_alphabetic()
}

/// Whether the first byte is a letter.
#[inline(always)]
fn begins_with_letter(bytes: &[u8]) -> bool
    ensures { result ≡ head_is is_letter bytes.now }
{
    match bytes {
        [first, ..] => is_letter(*first),
        [] => false,
    }
}

/// Whether the bytes start with a tag.
#[inline(always)]
fn bytes_begin_tag(bytes: &[u8]) -> bool
    ensures { result ≡ reading.begins_tag bytes.now }
{
    if bytes.len() < 2 {
        return false;
    }
    if bytes[0] != b'<' {
        return false;
    }
    if bytes[1] == b'/' {
        return begins_with_letter(&bytes[2..]);
    }
    begins_with_letter(&bytes[1..])
}

/// Whether a tag starts at byte `at` of the text: `<` or `</`, and a letter (#tag-open-state and #end-tag-open-state).
#[inline(always)]
pub fn begins_tag(text: &str, at: u32) -> bool
    requires { at ≤ length text.now }
    ensures { result ≡ reading.begins_tag (drop at text.now) }
{
    bytes_begin_tag(&text.as_bytes()[at as usize..])
}
