//! The rows of prices of a certificate, kept as its lines.
ghost use Rattle.std.specs.Prelude.{◌≡◌, ◌+◌, ◌-◌, ◌<◌, [], length, map, slice_index_or, slice_range, OnOk};
ghost use Rattle.hm_cert.specs.Layout.{told};
ghost use Rattle.hm_cert.specs.Places.{AreCounted, IsLineStart, IsRowPlace};
ghost use Rattle.hm_cert.specs.Reading.{RowsAre, rows_in};

use crate::leading::LeadingDigits;
use crate::lines::{CertificateFault, Lines, read_row};
use crate::short::short_row_before;
use hm_base::OutOfMemory;
use memchr::memrchr;
use std::alloc::Global;
use std::marker::Model;

/// The prices of each layer that a certificate has, in bytes. They are read from its lines when they are needed.
/// Contracts see the list of rows, each the list of its prices. An infinite price is None.
#[derive(Drop)]
pub struct WrittenRows<'a> {
    lines: &'a [u8],
    count: usize,
}

impl<'a> Model for WrittenRows<'a> {
    ghost use Rattle.std.specs.Prelude.{ℕ, List, Option};

    ghost Value = { List (List (Option ℕ)) };

    ghost use Rattle.hm_cert.specs.Places.{AreLines, rows_of};

    ghost view = { λ r. rows_of r.lines.now };

    ghost invariant = { λ r. AreLines r.lines.now r.count };
}

/// A place between rows: before one of them, or after the last one.
#[derive(Clone, Copy)]
pub struct RowPlace<'a> {
    /// How many rows are before it.
    pub row: usize,
    /// How many bytes the lines of these rows have.
    at: usize,
    /// The first digits of a price of a later row.
    known: LeadingDigits<'a>,
}

impl<'a> WrittenRows<'a> {
    /// Reads the rows of all lines that follow.
    pub fn read(alloc: Global, lines: Lines<'a>) -> Result<WrittenRows<'a>, CertificateFault>
        ensures { RowsAre (rows_in lines.entry.number lines.entry.rest.now) result }
    {
        let text = lines.text();
        let count = count_rows(alloc, lines)?;
        Ok(WrittenRows { lines: text, count })
    }

    /// How many rows there are.
    pub fn len(&self) -> usize
        ensures { result ≡ length self.now }
    {
        self.count
    }

    /// The place after the last row.
    pub fn end(&self) -> RowPlace<'a>
        ensures place { IsRowPlace self.now result }
        ensures row { result.row ≡ length self.now }
    {
        RowPlace {
            row: self.count,
            at: self.lines.len(),
            known: LeadingDigits::any(),
        }
    }

    /// Reads the row before a place, whatever its prices, into a list, whose old items are dropped. The place moves
    /// before that row.
    fn any_row_before(
        &self,
        place: &mut RowPlace<'a>,
        into: &mut Vec<u64>,
    ) -> Result<(), OutOfMemory>
        requires place { IsRowPlace self.now place.old }
        requires some { 0 < place.old.row }
        ensures row { OnOk result (map told into.new.items ≡ slice_index_or self.now (place.old.row - 1) []) }
        ensures place { OnOk result (IsRowPlace self.now place.new) }
        ensures before { OnOk result (place.new.row + 1 ≡ place.old.row) }
    {
        let (at, line) = line_before(self.lines, place.at - 1);
        read_row(line, into)?;
        place.row -= 1;
        place.at = at;
        Ok(())
    }

    /// Reads the row before a place into a list, whose old items are dropped. An infinite price is `INFINITE`. The
    /// place moves before that row. If an allocation fails, it doesn't move.
    pub fn row_before(
        &self,
        place: &mut RowPlace<'a>,
        into: &mut Vec<u64>,
    ) -> Result<(), OutOfMemory>
        requires place { IsRowPlace self.now place.old }
        requires some { 0 < place.old.row }
        ensures row { OnOk result (map told into.new.items ≡ slice_index_or self.now (place.old.row - 1) []) }
        ensures place { OnOk result (IsRowPlace self.now place.new) }
        ensures before { OnOk result (place.new.row + 1 ≡ place.old.row) }
    {
        match short_row_before(self.lines, place.at - 1, into, &mut place.known)? {
            Some(at) => {
                place.row -= 1;
                place.at = at;
                Ok(())
            }
            None => self.any_row_before(place, into),
        }
    }
}

/// The line that ends at byte `end`, and the byte at which it starts.
fn line_before(text: &[u8], end: usize) -> (usize, &[u8])
    requires { end < length text.now }
    ensures start { IsLineStart text.now end result.0 }
    ensures line { result.1.now ≡ slice_range text.now result.0 end }
{
    let at = match memrchr(b'\n', &text[..end]) {
        Some(at) => at + 1,
        None => 0,
    };
    (at, &text[at..end])
}

/// How many rows the lines have that follow.
fn count_rows(alloc: Global, mut lines: Lines<'_>) -> Result<usize, CertificateFault>
    ensures { AreCounted (rows_in lines.entry.number lines.entry.rest.now) result }
{
    let mut count = 0;
    let mut spare = Vec::new(alloc);
    let mut known = LeadingDigits::any();
    while lines.pass_row(&mut spare, &mut known)? {
        count += 1;
    }
    Ok(count)
}
