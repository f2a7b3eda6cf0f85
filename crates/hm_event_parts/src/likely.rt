//! Names by their length and first byte. So most names of pages are told apart from those in
//! the rules of tags without a search through a list.
ghost use Rattle.std.specs.Prelude.{◌≡◌};
ghost use Rattle.hm_event_parts.specs.Likely as likely;

/// Whether a void element has a name with this length and first byte.
pub(crate) fn may_be_void(name: &str) -> bool
    ensures { result ≡ likely.like_void name.now }
{
    match name.as_bytes() {
        [a, _] => *a == b'b' || *a == b'h',
        [a, _, _] => *a == b'c' || *a == b'i' || *a == b'w',
        [a, _, _, _] => *a == b'a' || *a == b'b' || *a == b'l' || *a == b'm',
        [a, _, _, _, _] => *a == b'e' || *a == b'i' || *a == b'p' || *a == b't',
        [a, _, _, _, _, _] => *a == b's',
        _ => false,
    }
}

/// Whether `html`, `head`, `body`, `colgroup` or a section of a table has a name with this length and first byte.
pub(crate) fn may_be_page_part(name: &str) -> bool
    ensures { result ≡ likely.like_part name.now }
{
    match name.as_bytes() {
        [a, _, _, _] => *a == b'h' || *a == b'b',
        [a, _, _, _, _] => *a == b't',
        [a, _, _, _, _, _, _, _] => *a == b'c',
        _ => false,
    }
}

/// Whether an element whose end tag may be omitted has a name with this length and first byte.
pub(crate) fn may_have_optional_end(name: &str) -> bool
    ensures { result ≡ likely.like_ended name.now }
{
    match name.as_bytes() {
        [a] => *a == b'p',
        [a, _] => *a == b't' || *a == b'l' || *a == b'd' || *a == b'r',
        [a, _, _, _] => *a == b'h' || *a == b'b',
        [a, _, _, _, _] => *a == b't',
        [a, _, _, _, _, _] => *a == b'o',
        [a, _, _, _, _, _, _] => *a == b'c',
        [a, _, _, _, _, _, _, _] => *a == b'c' || *a == b'o',
        _ => false,
    }
}
