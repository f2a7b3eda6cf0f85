//! Numbers of six to ten digits that differ only in their last two digits from an earlier one.
ghost use Rattle.std.specs.Prelude.{◌≡◌, ◌+◌, ◌≤◌, length, take, IfSome, IsTrue};
ghost use Rattle.std.specs.Fmt.{decimal};
ghost use Rattle.std.specs.Int.{w32, to_le_bytes};
ghost use Rattle.hm_cert.specs.Certificate.{IsPrice, price_text};
ghost use Rattle.hm_cert.specs.Layout.{told};
ghost use Rattle.hm_cert.specs.Leading.{BeginsWith, HasFour, IsLeading, WritesPair};

use crate::lines::read_price;

/// The digits of a number without its last two, and their value. Many prices of a certificate have the same ones as
/// their neighbours.
#[derive(Clone, Copy)]
pub(crate) struct LeadingDigits<'a> {
    digits: &'a [u8],
    number: u64,
    ghost known: { IsLeading digits.now number },
}

/// Four bytes of a text, from `at` on, as one number.
fn four(text: &[u8], at: usize) -> u32
    requires { at + 4 ≤ length text.now }
    ensures { HasFour text.now at (to_le_bytes w32 result) }
{
    u32::from_le_bytes([text[at], text[at + 1], text[at + 2], text[at + 3]])
}

/// Whether a text starts with these digits, of which there are four to eight.
fn begins_with(text: &[u8], digits: &[u8]) -> bool
    requires some { 4 ≤ length digits.now }
    requires few { length digits.now ≤ 8 }
    requires inside { length digits.now ≤ length text.now }
    ensures { IsTrue result → take (length digits.now) text.now ≡ digits.now }
{
    let last = digits.len() - 4;
    four(text, 0) == four(digits, 0) && four(text, last) == four(digits, last)
}

/// The number of two decimal digits. None if a byte isn't a digit.
fn pair(tens: u8, ones: u8) -> Option<u64>
    ensures { IfSome result (WritesPair tens ones) }
{
    if !tens.is_ascii_digit() || !ones.is_ascii_digit() {
        return None;
    }
    Some(u64::from(tens - b'0') * 10 + u64::from(ones - b'0'))
}

impl<'a> LeadingDigits<'a> {
    /// The first digits of some number, before any is read.
    pub(crate) fn any() -> LeadingDigits<'a> {
        LeadingDigits {
            digits: b"1000",
            number: 1000,
        }
    }

    /// The first digits of a price written as `word`. None if it hasn't six to ten digits.
    pub(crate) fn of(word: &'a [u8], price: u64) -> Option<LeadingDigits<'a>>
        requires can { IsPrice (told price) }
        requires word { word.now ≡ price_text (told price) }
    {
        if word.len() < 6 || word.len() > 10 {
            return None;
        }
        Some(LeadingDigits {
            digits: &word[..word.len() - 2],
            number: price / 100,
        })
    }

    /// The first digits of the price that is written as `word`. None if it isn't a price of six to ten digits.
    pub(crate) fn read(word: &'a [u8]) -> Option<LeadingDigits<'a>> {
        let price = read_price(word)?;
        LeadingDigits::of(word, price)
    }

    /// How many digits a number with these first digits has.
    pub(crate) fn width(&self) -> usize
        ensures width { result ≡ length self.now.digits.now + 2 }
        ensures few { result ≤ 10 }
    {
        self.digits.len() + 2
    }

    /// The number at the start of a text. None if it doesn't start with these first digits and two more.
    pub(crate) fn number_of(&self, text: &[u8]) -> Option<u64>
        ensures { IfSome result (BeginsWith text.now (length self.now.digits.now + 2)) }
    {
        let len = self.digits.len();
        if text.len() < len + 2 || !begins_with(text, self.digits) {
            return None;
        }
        let last = pair(text[len], text[len + 1])?;
        Some(self.number * 100 + last)
    }
}
