//! Lines and columns.
ghost use Rattle.std.specs.Prelude.{◌≡◌, ◌+◌, ◌-◌, ◌<◌, ◌≤◌, take, drop, length, slice_index};
ghost use Rattle.std.specs.Fmt.{char_count, is_char_start};
ghost use Rattle.hm_location.specs.Lines.{column_of, columns, ends_line, line_front, line_of, without_mark};

/// A line and a column, both counted from 1, as editors do.
#[derive(Clone, Copy, PartialEq, Eq)]
pub struct Location {
    pub line: usize,
    /// The characters of the line that start before the byte, plus 1. A byte order mark isn't counted.
    pub column: usize,
}

/// A line, and the byte of the text at which it starts.
#[derive(Clone, Copy)]
pub(crate) struct LineStart {
    pub(crate) number: usize,
    pub(crate) begin: usize,
}

/// The line and column of byte `at` of a text, or of its end. Lines end with LF, CR or CR LF.
///
/// If the bytes before `at` are UTF-8, the column counts whole characters, even if `at` is no UTF-8. A byte order mark
/// isn't counted.
pub fn location_of(text: &[u8], at: usize) -> Location
    requires { at ≤ length text.now }
    ensures line { result.line ≡ line_of text.now at }
    ensures column { result.column ≡ column_of text.now at }
{
    let start = line_start(text, at);
    Location {
        line: start.number,
        column: 1 + count_columns(&text[start.begin..at]),
    }
}

/// The line of byte `at`.
pub(crate) fn line_start(text: &[u8], at: usize) -> LineStart
    requires { at ≤ length text.now }
    ensures number { result.number ≡ line_of text.now at }
    ensures inside { result.begin ≤ at }
    ensures front { take (at - result.begin) (drop result.begin text.now) ≡ line_front text.now at }
{
    let mut number = 1;
    let mut begin = 0;
    for index in 0..at {
        if ends_line(text, index) {
            number += 1;
            begin = index + 1;
        }
    }
    LineStart { number, begin }
}

/// Whether the byte at an index ends a line. The CR of a CR LF doesn't.
fn ends_line(text: &[u8], index: usize) -> bool
    requires { index < length text.now }
    ensures { result ≡ ends_line (slice_index text.now index) (drop (index + 1) text.now) }
{
    match &text[index..] {
        [b'\r', b'\n', ..] => false,
        [first, ..] => *first == b'\n' || *first == b'\r',
        [] => false,
    }
}

/// The columns of the bytes at the start of a line.
#[tactic(auto, unfolding(crate::specs::Lines::columns))]
pub(crate) fn count_columns(bytes: &[u8]) -> usize
    ensures count { result ≡ columns bytes.now }
    ensures few { result ≤ length bytes.now }
{
    count_chars(without_mark(bytes))
}

/// The start of a line without a byte order mark.
pub fn without_mark(bytes: &[u8]) -> &[u8]
    ensures bytes { result.now ≡ without_mark bytes.now }
    ensures few { length result.now ≤ length bytes.now }
{
    match bytes {
        [0xEF, 0xBB, 0xBF, rest @ ..] => rest,
        _ => bytes,
    }
}

/// How many characters start in some bytes.
#[tactic(auto, using(crate::proofs::LineLaws::next_char, crate::proofs::LineLaws::no_chars))]
pub(crate) fn count_chars(bytes: &[u8]) -> usize
    ensures count { result ≡ char_count bytes.now }
    ensures few { result ≤ length bytes.now }
{
    let mut count = 0;
    for byte in bytes {
        if is_char_start(*byte) {
            count += 1;
        }
    }
    count
}

/// Whether a byte is the first of a character.
pub fn is_char_start(byte: u8) -> bool
    ensures { result ≡ is_char_start byte }
{
    byte < 0x80 || byte >= 0xC0
}
