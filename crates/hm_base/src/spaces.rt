//! ASCII whitespace (https://infra.spec.whatwg.org/#ascii-whitespace), and digits.
ghost use Rattle.std.specs.Prelude.{◌≡◌, ◌≤◌, length, take, drop};
ghost use Rattle.hm_base.specs.Bytes.{front, head_is, is_digit_of, is_space, rest_after};
ghost use Rattle.hm_base.specs.Forms as forms;

/// Whether `c` is whitespace: TAB, LF, FF, CR or SPACE.
#[tactic(auto, unfolding(crate::specs::Bytes::is_space))]
pub fn is_space(c: char) -> bool
    ensures { result ≡ is_space c }
{
    c == '\t' || c == '\n' || c == '\u{c}' || c == '\r' || c == ' '
}

/// Whether the byte is whitespace.
pub fn is_space_byte(byte: u8) -> bool
    ensures { result ≡ is_space byte }
{
    is_space(char::from(byte))
}

/// Whether the bytes begin with whitespace.
pub fn begins_with_space(bytes: &[u8]) -> bool
    ensures { result ≡ head_is is_space bytes.now }
{
    match bytes {
        [first, ..] => is_space_byte(*first),
        [] => false,
    }
}

/// Whether the bytes are only whitespace, or none.
pub fn is_blank(bytes: &[u8]) -> bool
    ensures { result ≡ forms.is_blank bytes.now }
{
    for byte in bytes {
        if !is_space_byte(*byte) {
            return false;
        }
    }
    true
}

/// How many bytes of whitespace stand at the start.
pub fn leading_space(bytes: &[u8]) -> usize
    ensures inside { result ≤ length bytes.now }
    ensures space { take result bytes.now ≡ front is_space bytes.now }
    ensures rest { drop result bytes.now ≡ rest_after is_space bytes.now }
{
    let mut at = 0;
    while at < bytes.len() && is_space_byte(bytes[at]) {
        at += 1;
    }
    at
}

/// The whitespace that a text begins with, and what follows it.
pub fn split_space(text: &str) -> (&str, &str)
    ensures space { result.0.now ≡ front is_space text.now }
    ensures rest { result.1.now ≡ rest_after is_space text.now }
{
    text.split_at(leading_space(text.as_bytes()))
}

/// Whether the byte is a digit of the base.
#[tactic(auto, unfolding(crate::specs::Bytes::is_digit_of))]
pub fn is_digit(byte: u8, base: u32) -> bool
    requires low { 2 ≤ base }
    requires high { base ≤ 16 }
    ensures { result ≡ is_digit_of base byte }
{
    char::from(byte).is_digit(base)
}
