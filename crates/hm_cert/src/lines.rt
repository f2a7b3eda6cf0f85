//! The lines of a certificate, read one after another.
ghost use Rattle.std.specs.Prelude.{◌≡◌, ℕ, ◌+◌, ◌^◌, ◌<◌, ◌≤◌, ◌∷◌, [], Some, None, true, false, length, map, is_some, unwrap_or, option_map, ◌↔◌, IsTrue, MatchOption, IfSome, IfOk, IfErr, OnErr, if◌then◌else◌};
ghost use Rattle.hm_base.specs.Bytes.{strip};
ghost use Rattle.hm_cert.specs.Certificate.{ArePrices};
ghost use Rattle.hm_cert.specs.Layout.{told};
ghost use Rattle.hm_cert.specs.First.{IsFirst, IsNoFirst};
ghost use Rattle.hm_cert.specs.Words.{HasNumberForm, IsNumber, IsUpTo};
ghost use Rattle.hm_cert.specs.Reading.{IsBadHead, IsNext, IsPassed, given, line_format, line_row, line_rules, pieces, rows_in, with_head, word_price};

use crate::leading::LeadingDigits;
use crate::prices::INFINITE;
use crate::short::short_line;
use crate::text::format_text;
use hm_base::{CERTIFICATE_LIMIT, Format, OutOfMemory, SpellRules};
use memchr::memchr;

/// Why bytes aren't a certificate.
#[derive(Drop, PartialEq, Eq)]
pub enum CertificateFault {
    /// There are more bytes than the limit of certificates.
    TooLong,
    /// The first line that breaks the format, counted from 1.
    BadLine { line: u32 },
    /// An allocation failed.
    OutOfMemory,
}

impl From<OutOfMemory> for CertificateFault {
    ghost use Rattle.std.specs.Prelude.{◌≡◌};
    ghost use Rattle.hm_cert.specs.declared.lines.CertificateFault.TheVariants as faults;

    ghost from_gives = { λ _ fault. fault ≡ faults.OutOfMemory };

    fn from(_memory: OutOfMemory) -> Self {
        CertificateFault::OutOfMemory
    }
}

/// The lines of a certificate that are still to be read.
#[derive(Drop)]
pub struct Lines<'a> {
    rest: &'a [u8],
    /// The number of the next line, counted from 1.
    number: u32,
    ghost counted: { number + length rest.now < 2 ^ 32 },
}

/// The first two lines of a certificate.
#[derive(Drop)]
pub struct Head<'a> {
    pub format: Format,
    pub rules: SpellRules,
    /// The lines of prices after them.
    pub lines: Lines<'a>,
}

/// Reads the first two lines of a certificate of at most `CERTIFICATE_LIMIT` bytes.
pub fn read_head(bytes: &[u8]) -> Result<Head<'_>, CertificateFault>
    ensures ok { IfOk result (λ head. (length bytes.now ≤ CERTIFICATE_LIMIT) × (given bytes.now ≡ with_head head.format head.rules (rows_in head.lines.number head.lines.rest.now))) }
    ensures err { IfErr result (IsBadHead bytes.now) }
{
    if bytes.len() > CERTIFICATE_LIMIT as usize {
        return Err(CertificateFault::TooLong);
    }
    let Some((first, rest)) = cut(bytes, b'\n') else {
        return Err(CertificateFault::BadLine { line: 1 });
    };
    let Some(format) = read_format(first) else {
        return Err(CertificateFault::BadLine { line: 1 });
    };
    let Some((second, rest)) = cut(rest, b'\n') else {
        return Err(CertificateFault::BadLine { line: 2 });
    };
    let Some(rules) = read_rules(second) else {
        return Err(CertificateFault::BadLine { line: 2 });
    };
    Ok(Head {
        format,
        rules,
        lines: Lines { rest, number: 3 },
    })
}

impl<'a> Lines<'a> {
    /// The text of these lines.
    pub(crate) fn text(&self) -> &'a [u8]
        ensures { result.now ≡ self.now.rest.now }
    {
        self.rest
    }

    /// Reads the next row into a list, whose old items are dropped. An infinite price is `INFINITE`. False if no line
    /// is left. After an error the lines are unchanged.
    pub fn next_row(&mut self, into: &mut Vec<u64>) -> Result<bool, CertificateFault>
        ensures row { IsNext (rows_in self.old.number self.old.rest.now) (map told into.new.items) (rows_in self.new.number self.new.rest.now) result }
        ensures prices { IfOk result (λ more. more ≡ true → (0 < length into.new.items) × ArePrices (map told into.new.items)) }
        ensures unchanged { OnErr result ((self.new.number ≡ self.old.number) × (self.new.rest.now ≡ self.old.rest.now)) }
        ensures shorter { IfOk result (λ more. more ≡ true → length self.new.rest.now < length self.old.rest.now) }
    {
        if self.rest.is_empty() {
            return Ok(false);
        }
        let Some((line, rest)) = cut(self.rest, b'\n') else {
            return Err(CertificateFault::BadLine { line: self.number });
        };
        if !read_row(line, into)? {
            return Err(CertificateFault::BadLine { line: self.number });
        }
        self.rest = rest;
        self.number += 1;
        Ok(true)
    }

    /// Checks the next row and passes it. `known` has the first digits of an earlier price. False if no line is left.
    /// If the row has a price of many digits, `spare` may hold its prices afterwards. After an error the lines are
    /// unchanged.
    pub(crate) fn pass_row(
        &mut self,
        spare: &mut Vec<u64>,
        known: &mut LeadingDigits<'a>,
    ) -> Result<bool, CertificateFault>
        ensures row { IsPassed (rows_in self.old.number self.old.rest.now) (rows_in self.new.number self.new.rest.now) result }
        ensures shorter { IfOk result (λ more. more ≡ true → length self.new.rest.now < length self.old.rest.now) }
    {
        match short_line(self.rest, known) {
            Some(end) => {
                *self = Lines {
                    rest: &self.rest[end + 1..],
                    number: self.number + 1,
                };
                Ok(true)
            }
            None => self.next_row(spare),
        }
    }
}

/// The text before the first byte `mark` and the text after it, if there is one.
fn cut(text: &[u8], mark: u8) -> Option<(&[u8], &[u8])>
    ensures pieces { MatchOption result (pieces mark text.now ≡ text.now ∷ []) (λ parts. pieces mark text.now ≡ parts.0.now ∷ pieces mark parts.1.now) }
    ensures shorter { IfSome result (λ parts. length parts.0.now + length parts.1.now + 1 ≡ length text.now) }
{
    match memchr(mark, text) {
        Some(at) => Some((&text[..at], &text[at + 1..])),
        None => None,
    }
}

/// The format that a line names.
fn read_format(line: &[u8]) -> Option<Format>
    ensures { result ≡ line_format line.now }
{
    if line == format_text(Format::Full) {
        Some(Format::Full)
    } else if line == format_text(Format::Compact) {
        Some(Format::Compact)
    } else if line == format_text(Format::Sparse) {
        Some(Format::Sparse)
    } else {
        None
    }
}

/// The rules that a line names.
fn read_rules(line: &[u8]) -> Option<SpellRules>
    ensures { result ≡ line_rules line.now }
{
    let rest = after(line, b"rules")?;
    let (omit, rest) = take_flag(rest, b" omit");
    let (unquote, rest) = take_flag(rest, b" unquote");
    let (tight, rest) = take_flag(rest, b" tight");
    let (ascii, rest) = take_flag(rest, b" ascii");
    let (frame, rest) = take_flag(rest, b" frame");
    if !rest.is_empty() {
        return None;
    }
    Some(SpellRules {
        omit,
        unquote,
        tight,
        ascii,
        frame,
    })
}

/// Whether a text starts with a word, and the text without it.
fn take_flag<'a>(text: &'a [u8], word: &[u8]) -> (bool, &'a [u8])
    ensures flag { result.0 ≡ is_some (strip word.now text.now) }
    ensures rest { result.1.now ≡ unwrap_or (strip word.now text.now) text.now }
{
    match after(text, word) {
        Some(rest) => (true, rest),
        None => (false, text),
    }
}

/// The text after a word, if it starts with it.
fn after<'a>(text: &'a [u8], word: &[u8]) -> Option<&'a [u8]>
    ensures { option_map (λ rest. rest.now) result ≡ strip word.now text.now }
{
    if text.starts_with(word) {
        Some(&text[word.len()..])
    } else {
        None
    }
}

/// The price at the start of a line.
#[derive(Drop)]
struct FirstPrice<'a> {
    price: u64,
    /// The text after the space that follows it, if there is one.
    more: Option<&'a [u8]>,
}

/// Reads a row into a list, whose old items are dropped. Returns whether each word of the line is a price.
pub(crate) fn read_row(line: &[u8], into: &mut Vec<u64>) -> Result<bool, OutOfMemory>
    ensures { IfOk result (λ good. line_row line.now ≡ (if good then Some (map told into.new.items) else None)) }
{
    into.clear();
    let mut rest = line;
    while let Some(first) = first_price(rest) {
        into.push(first.price)?;
        match first.more {
            Some(more) => rest = more,
            None => return Ok(true),
        }
    }
    Ok(false)
}

/// The price that the first word of a line is, if it is one.
fn first_price(line: &[u8]) -> Option<FirstPrice<'_>>
    ensures { MatchOption result (IsNoFirst line.now) (IsFirst line.now) }
{
    match cut(line, b' ') {
        Some((word, more)) => match read_price(word) {
            Some(price) => Some(FirstPrice {
                price,
                more: Some(more),
            }),
            None => None,
        },
        None => match read_price(line) {
            Some(price) => Some(FirstPrice { price, more: None }),
            None => None,
        },
    }
}

/// The price that a word is, if it is one.
pub(crate) fn read_price(word: &[u8]) -> Option<u64>
    ensures { option_map told result ≡ word_price word.now }
{
    if word == b"-".as_slice() {
        return Some(INFINITE);
    }
    if !has_number_form(word) {
        return None;
    }
    read_number(word)
}

/// Whether a word is no longer than a number below 2^63, and starts with `0` only if that is the whole word.
pub(crate) fn has_number_form(word: &[u8]) -> bool
    ensures { IsTrue result ↔ HasNumberForm word.now }
{
    match word {
        [] | [b'0', _, ..] => false,
        _ => word.len() <= 19,
    }
}

/// The number below 2^63 of at most 19 decimal digits.
fn read_number(word: &[u8]) -> Option<u64>
    requires { length word.now ≤ 19 }
    ensures { IsNumber word.now result }
{
    let mut number: u64 = 0;
    for byte in word {
        if !byte.is_ascii_digit() {
            return None;
        }
        number = number * 10 + u64::from(*byte - b'0');
    }
    if number < 1 << 63 { Some(number) } else { None }
}
