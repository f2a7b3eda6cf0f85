//! The code points of numeric character references (HTML Standard, #numeric-character-reference-end-state).
ghost use Rattle.std.specs.Prelude.{◌≡◌};
ghost use Rattle.hm_refs.specs.Numbers.{best_number, look_back, look_up, point_of, replaced};

/// The numbers of C1 controls that give another code point, each with that one.
const REPLACED: [(u32, char); 27] = [
    (0x80, '\u{20AC}'),
    (0x82, '\u{201A}'),
    (0x83, '\u{0192}'),
    (0x84, '\u{201E}'),
    (0x85, '\u{2026}'),
    (0x86, '\u{2020}'),
    (0x87, '\u{2021}'),
    (0x88, '\u{02C6}'),
    (0x89, '\u{2030}'),
    (0x8A, '\u{0160}'),
    (0x8B, '\u{2039}'),
    (0x8C, '\u{0152}'),
    (0x8E, '\u{017D}'),
    (0x91, '\u{2018}'),
    (0x92, '\u{2019}'),
    (0x93, '\u{201C}'),
    (0x94, '\u{201D}'),
    (0x95, '\u{2022}'),
    (0x96, '\u{2013}'),
    (0x97, '\u{2014}'),
    (0x98, '\u{02DC}'),
    (0x99, '\u{2122}'),
    (0x9A, '\u{0161}'),
    (0x9B, '\u{203A}'),
    (0x9C, '\u{0153}'),
    (0x9E, '\u{017E}'),
    (0x9F, '\u{0178}'),
];

/// The code point of `&#` and the digits of `n` (#numeric-character-reference-end-state): U+FFFD for zero, a surrogate
/// and a number above 0x10FFFF.
///
/// All numbers above 0x10FFFF give the same, so a reader of digits may stop at 0x110000.
pub fn number_value(n: u32) -> char
    ensures { result ≡ point_of n }
{
    if n == 0 {
        return '\u{FFFD}';
    }
    match char::from_u32(n) {
        Some(c) => replacement(n).unwrap_or(c),
        None => '\u{FFFD}',
    }
}

/// The least number whose reference gives `c`. None if there is none.
///
/// No decimal reference to `c` is shorter than the one with this number.
#[tactic(auto, unfolding(crate::specs::Numbers::best_number))]
pub fn best_number(c: char) -> Option<u32>
    ensures { result ≡ best_number c }
{
    if c == '\u{FFFD}' {
        return Some(0);
    }
    if let Some(n) = replaced_number(c) {
        return Some(n);
    }
    if number_value(c as u32) == c {
        Some(c as u32)
    } else {
        None
    }
}

/// The code point that the number of a C1 control gives, if that is another one.
fn replacement(n: u32) -> Option<char>
    ensures { result ≡ look_up n replaced }
{
    if n < 0x80 || n > 0x9F {
        return None;
    }
    for (number, c) in REPLACED {
        if number == n {
            return Some(c);
        }
    }
    None
}

/// The number of the C1 control that gives this code point.
fn replaced_number(c: char) -> Option<u32>
    ensures { result ≡ look_back c replaced }
{
    if c < '\u{0152}' || c > '\u{2122}' {
        return None;
    }
    for (number, point) in REPLACED {
        if point == c {
            return Some(number);
        }
    }
    None
}
