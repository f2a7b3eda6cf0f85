//! Numbers among the arguments.
ghost use Rattle.std.specs.Prelude.{◌≡◌};
ghost use Rattle.std.specs.Char.{is_ascii_digit};
ghost use Rattle.std.specs.List.{list_all};
ghost use Rattle.hm_words.specs.Words as spec;

/// Whether an argument is only decimal digits.
fn are_digits(word: &str) -> bool
    ensures { result ≡ list_all is_ascii_digit word.now }
{
    word.as_bytes().iter().all(|digit| digit.is_ascii_digit())
}

/// Whether an argument isn't empty and has no leading zero; `0` itself is one without.
fn has_no_zero(word: &str) -> bool
    ensures { result ≡ spec.has_no_zero word.now }
{
    match word.as_bytes() {
        [] => false,
        [first, more @ ..] => *first != b'0' || more.is_empty(),
    }
}

/// Whether an argument is decimal digits without leading zeros; `0` itself is a number.
fn is_number(word: &str) -> bool
    ensures { result ≡ spec.is_number word.now }
{
    are_digits(word) && has_no_zero(word)
}

/// The number that an argument writes in decimal digits without leading zeros, if it is between `least` and `most`.
pub fn number_in(word: &str, least: u32, most: u32) -> Option<u32>
    ensures { result ≡ spec.number_in least most word.now }
{
    if !is_number(word) {
        return None;
    }
    match word.parse::<u32>() {
        Ok(number) if least <= number && number <= most => Some(number),
        _ => None,
    }
}
