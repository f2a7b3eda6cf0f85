//! The digits of prices, from their end.
ghost use Rattle.std.specs.Prelude.{◌≡◌, ◌∷◌, [], ◌++◌, ◌+◌, ◌*◌, ◌/◌, ◌%◌, ◌^◌, ◌<◌, ◌≤◌, length, reverse, take, IfSome, IsTrue, OnOk};
ghost use Rattle.std.specs.Fmt.{decimal};
ghost use Rattle.hm_cert.specs.Certificate.{price_text};
ghost use Rattle.hm_cert.specs.Layout.{told};
ghost use Rattle.hm_cert.specs.Hundreds.{HasHundreds, IsKept, IsPut};

use hm_base::OutOfMemory;

/// The digits of the hundreds of a number below 10^9.
#[derive(Clone, Copy)]
struct KeptDigits {
    /// The least number with these hundreds.
    base: u64,
    /// A space and that number, last byte first, and then spaces.
    text: [u8; 16],
    /// How many bytes the first space and the number have.
    len: usize,
    ghost kept: { IsKept base text len },
}

impl KeptDigits {
    /// The digits of some number, before any is written.
    fn new() -> KeptDigits {
        KeptDigits {
            base: 100,
            text: *b" 001            ",
            len: 4,
        }
    }

    /// The digits of this number's hundreds.
    fn of(number: u64) -> KeptDigits
        requires some { 100 ≤ number }
        requires low { number < 10 ^ 9 }
        ensures { HasHundreds result.base number }
    {
        let hundreds = number / 100;
        let mut text = *b" 00             ";
        let mut len = 3;
        let mut rest = hundreds;
        while rest >= 10 {
            text[len] = b'0' + (rest % 10) as u8;
            rest /= 10;
            len += 1;
        }
        text[len] = b'0' + rest as u8;
        KeptDigits {
            base: hundreds * 100,
            text,
            len: len + 1,
        }
    }

    /// Whether a price has these hundreds.
    #[inline(always)]
    fn has(&self, price: u64) -> bool
        ensures { IsTrue result → HasHundreds self.now.base price }
    {
        price.wrapping_sub(self.base) < 100
    }

    /// Writes a space and a price with these hundreds, last byte first, at the start of a line. Returns how many bytes
    /// they have.
    #[inline(always)]
    fn put(&self, line: &mut [u8], price: u64) -> usize
        requires room { 16 ≤ length line.old }
        requires has { HasHundreds self.now.base price }
        ensures { IsPut line.new price result }
    {
        let text = self.text;
        line[..16].copy_from_slice(&text);
        let digits = two_digits((price - self.base) as u8);
        line[1] = digits[0];
        line[2] = digits[1];
        self.len
    }
}

/// The digits of the last two hundreds that were written. Neighbouring prices mostly differ only in their last two
/// digits, and those of a row rarely have more than two hundreds.
#[derive(Clone, Copy)]
pub(crate) struct Hundreds {
    latest: KeptDigits,
    earlier: KeptDigits,
}

impl Hundreds {
    /// The digits of some numbers, before any is written.
    pub(crate) fn new() -> Hundreds {
        let digits = KeptDigits::new();
        Hundreds {
            latest: digits,
            earlier: digits,
        }
    }

    /// Writes a space and a price, last byte first, at the start of a line. Returns how many bytes they have, or None
    /// if the price is below 100 or at least 10^9. Keeps the hundreds of the price.
    #[inline(always)]
    pub(crate) fn put(&mut self, line: &mut [u8], price: u64) -> Option<usize>
        requires { 16 ≤ length line.old }
        ensures { IfSome result (IsPut line.new price) }
    {
        if self.latest.has(price) {
            return Some(self.latest.put(line, price));
        }
        if self.earlier.has(price) {
            return Some(self.earlier.put(line, price));
        }
        self.put_other(line, price)
    }

    /// As `put`, for a price whose hundreds aren't kept.
    #[inline(never)]
    fn put_other(&mut self, line: &mut [u8], price: u64) -> Option<usize>
        requires { 16 ≤ length line.old }
        ensures { IfSome result (IsPut line.new price) }
    {
        if price < 100 || price >= 1_000_000_000 {
            return None;
        }
        self.earlier = self.latest;
        self.latest = KeptDigits::of(price);
        Some(self.latest.put(line, price))
    }
}

/// Appends the digits of a number, last digit first.
pub(crate) fn put_number(out: &mut Vec<u8>, number: u64) -> Result<(), OutOfMemory>
    ensures { OnOk result (out.new.items ≡ out.old.items ++ reverse (decimal number)) }
{
    let mut rest = number;
    while rest >= 100 {
        put_pair(out, (rest % 100) as u8)?;
        rest /= 100;
    }
    if rest >= 10 {
        return put_pair(out, rest as u8);
    }
    out.push(b'0' + rest as u8)?;
    Ok(())
}

/// The two digits of a number below 100, last digit first.
#[inline(always)]
fn two_digits(number: u8) -> [u8; 2]
    requires { number < 100 }
    ensures { result ≡ (48 + number % 10) ∷ (48 + number / 10) ∷ [] }
{
    // The tens are taken off the last digit and added to the next byte: 256 - 10.
    let tens = (number / 10) as u16;
    (0x3030 + number as u16 + 246 * tens).to_le_bytes()
}

/// Appends the two digits of a number below 100, last digit first.
#[inline(always)]
fn put_pair(out: &mut Vec<u8>, pair: u8) -> Result<(), OutOfMemory>
    requires { pair < 100 }
    ensures { OnOk result (out.new.items ≡ out.old.items ++ (48 + pair % 10) ∷ (48 + pair / 10) ∷ []) }
{
    out.extend_from_slice(&two_digits(pair))?;
    Ok(())
}
