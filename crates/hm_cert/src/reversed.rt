//! The text of a certificate, last byte first, for a writer that knows the prices of the last layer first.
ghost use Rattle.std.specs.Prelude.{◌≡◌, ◌∷◌, [], ◌++◌, ◌+◌, ◌*◌, ◌<◌, ◌≤◌, length, map, reverse, take, IfSome, OnOk};
ghost use Rattle.hm_cert.specs.Certificate.{flag_text, head_lines, more_prices, price_text, row_line, row_text};
ghost use Rattle.hm_cert.specs.Layout.{told};

use crate::hundreds::{Hundreds, put_number};
use crate::prices::INFINITE;
use crate::text::format_text;
use hm_base::{Format, OutOfMemory, SpellRules};
use std::alloc::Global;
use std::marker::Model;

/// How many bytes of room are made at a time.
const ROOM: usize = 4096;

/// The most prices of a row that are written to the room.
const PRICES: usize = 256;

/// The text of a certificate, last byte first. Contracts see its bytes in that order.
#[derive(Drop)]
pub struct ReversedText {
    /// The bytes, and room after them.
    bytes: Vec<u8>,
    /// How many bytes are before the room.
    len: usize,
    hundreds: Hundreds,
    /// A line that isn't written to the room directly.
    spare: Vec<u8>,
}

impl Model for ReversedText {
    ghost use Rattle.std.specs.Prelude.{ℕ, List, ◌≤◌, length, take};

    ghost Value = { List ℕ };

    ghost view = { λ t. take t.len t.bytes.items };

    ghost invariant = { λ t. t.len ≤ length t.bytes.items };
}

impl ReversedText {
    /// No bytes.
    pub fn new(alloc: Global) -> ReversedText
        ensures { result ≡ [] }
    {
        ReversedText {
            bytes: Vec::new(alloc),
            len: 0,
            hundreds: Hundreds::new(),
            spare: Vec::new(alloc),
        }
    }

    /// Adds the first two lines of the certificate.
    pub fn put_head(&mut self, format: Format, rules: SpellRules) -> Result<(), OutOfMemory>
        ensures { OnOk result (self.new ≡ self.old ++ reverse (head_lines format rules)) }
    {
        self.spare.clear();
        put_head_reversed(&mut self.spare, format, rules)?;
        add(&mut self.bytes, &mut self.len, &self.spare)
    }

    /// Adds the line of a row.
    #[inline(always)]
    pub fn put_line(&mut self, row: &[u64]) -> Result<(), OutOfMemory>
        ensures { OnOk result (self.new ≡ self.old ++ reverse (row_line (map told row.now))) }
    {
        if row.is_empty() || row.len() > PRICES {
            return self.put_other(row);
        }
        make_room(&mut self.bytes, self.len, row.len())?;
        match put_prices(&mut self.bytes[self.len..], &mut self.hundreds, row) {
            Some(len) => {
                self.len += len;
                Ok(())
            }
            None => self.put_other(row),
        }
    }

    /// As `put_line`, for a row of any prices.
    #[inline(never)]
    fn put_other(&mut self, row: &[u64]) -> Result<(), OutOfMemory>
        ensures { OnOk result (self.new ≡ self.old ++ reverse (row_line (map told row.now))) }
    {
        self.spare.clear();
        put_line_reversed(&mut self.spare, row)?;
        add(&mut self.bytes, &mut self.len, &self.spare)
    }

    /// The bytes of the text, last byte first.
    pub fn into_bytes(self) -> Vec<u8>
        ensures { result.items ≡ self }
    {
        let mut bytes = self.bytes;
        bytes.truncate(self.len);
        bytes
    }
}

/// Makes room for `count` prices after the first `len` bytes.
#[inline(always)]
fn make_room(bytes: &mut Vec<u8>, len: usize, count: usize) -> Result<(), OutOfMemory>
    requires within { len ≤ length bytes.old.items }
    requires few { count ≤ 256 }
    ensures front { take len bytes.new.items ≡ take len bytes.old.items }
    ensures within { len ≤ length bytes.new.items }
    ensures room { OnOk result (len + 16 * count ≤ length bytes.new.items) }
{
    if bytes.len() - len < 16 * count {
        bytes.resize(bytes.len() + ROOM, b' ')?;
    }
    Ok(())
}

/// Adds these bytes after the first `len`. The room is used, or more is taken if it is too small.
fn add(bytes: &mut Vec<u8>, len: &mut usize, more: &[u8]) -> Result<(), OutOfMemory>
    requires { len.old ≤ length bytes.old.items }
    ensures within { len.new ≤ length bytes.new.items }
    ensures added { OnOk result (take len.new bytes.new.items ≡ take len.old bytes.old.items ++ more.now) }
{
    if bytes.len() - *len >= more.len() {
        let end = *len + more.len();
        bytes[*len..end].copy_from_slice(more);
        *len = end;
        return Ok(());
    }
    bytes.truncate(*len);
    bytes.extend_from_slice(more)?;
    *len = bytes.len();
    Ok(())
}

/// Appends the first two lines, last byte first. If an allocation fails, a part of them may have been appended.
fn put_head_reversed(
    out: &mut Vec<u8>,
    format: Format,
    rules: SpellRules,
) -> Result<(), OutOfMemory>
    ensures { OnOk result (out.new.items ≡ out.old.items ++ reverse (head_lines format rules)) }
{
    out.push(b'\n')?;
    put_flag(out, rules.frame, b"frame")?;
    put_flag(out, rules.ascii, b"ascii")?;
    put_flag(out, rules.tight, b"tight")?;
    put_flag(out, rules.unquote, b"unquote")?;
    put_flag(out, rules.omit, b"omit")?;
    put_bytes(out, b"\nrules")?;
    put_bytes(out, format_text(format))
}

/// Appends the line of a row, last byte first. If an allocation fails, a part of it may have been appended.
fn put_line_reversed(out: &mut Vec<u8>, row: &[u64]) -> Result<(), OutOfMemory>
    ensures { OnOk result (out.new.items ≡ out.old.items ++ reverse (row_line (map told row.now))) }
{
    put_row(out, row, b'\n')
}

/// Writes the line of a row, last byte first, at the start of `line`. Returns how many bytes it has, or None if a price
/// is below 100 or at least 10^9.
#[inline(always)]
fn put_prices(line: &mut [u8], hundreds: &mut Hundreds, row: &[u64]) -> Option<usize>
    requires some { 0 < length row.now }
    requires room { 16 * length row.now ≤ length line.old }
    ensures within { IfSome result (λ len. len ≤ length line.new) }
    ensures line { IfSome result (λ len. take len line.new ≡ 10 ∷ reverse (row_text (map told row.now))) }
{
    let mut at = 0;
    for k in (0..row.len()).rev() {
        at += hundreds.put(&mut line[at..], row[k])?;
    }
    line[0] = b'\n';
    Some(at)
}

/// Appends prices with spaces between them and a byte after them, last byte first.
fn put_row(out: &mut Vec<u8>, row: &[u64], mark: u8) -> Result<(), OutOfMemory>
    ensures { OnOk result (out.new.items ≡ out.old.items ++ mark ∷ reverse (row_text (map told row.now))) }
{
    out.push(mark)?;
    if let [first, more @ ..] = row {
        put_more(out, more)?;
        put_price(out, *first)?;
    }
    Ok(())
}

/// Appends prices, each after a space, last byte first.
fn put_more(out: &mut Vec<u8>, row: &[u64]) -> Result<(), OutOfMemory>
    ensures { OnOk result (out.new.items ≡ out.old.items ++ reverse (more_prices (map told row.now))) }
{
    for k in (0..row.len()).rev() {
        put_price(out, row[k])?;
        out.push(b' ')?;
    }
    Ok(())
}

/// Appends a price, last byte first.
fn put_price(out: &mut Vec<u8>, price: u64) -> Result<(), OutOfMemory>
    ensures { OnOk result (out.new.items ≡ out.old.items ++ reverse (price_text (told price))) }
{
    if price == INFINITE {
        out.push(b'-')?;
        return Ok(());
    }
    put_number(out, price)
}

/// Appends a space and a word, last byte first, if `is_set`.
fn put_flag(out: &mut Vec<u8>, is_set: bool, word: &[u8]) -> Result<(), OutOfMemory>
    ensures { OnOk result (out.new.items ≡ out.old.items ++ reverse (flag_text is_set word.now)) }
{
    if is_set {
        put_bytes(out, word)?;
        out.push(b' ')?;
    }
    Ok(())
}

/// Appends bytes, last byte first.
fn put_bytes(out: &mut Vec<u8>, bytes: &[u8]) -> Result<(), OutOfMemory>
    ensures { OnOk result (out.new.items ≡ out.old.items ++ reverse bytes.now) }
{
    for k in (0..bytes.len()).rev() {
        out.push(bytes[k])?;
    }
    Ok(())
}
