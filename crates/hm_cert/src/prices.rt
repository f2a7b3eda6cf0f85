//! The prices of the layers that a certificate has.
ghost use Rattle.std.specs.Prelude.{◌≡◌, ℕ, ◌+◌, ◌^◌, option_map, ◌<◌, ◌≤◌, [], ◌∷◌, ◌++◌, length, map, slice_index, slice_index_or, slice_range, OnOk, OnErr};
ghost use Rattle.hm_cert.specs.Layout.{told};
ghost use Rattle.hm_cert.specs.Rows.{AreBelow, IsBelow};

use hm_base::OutOfMemory;
use std::alloc::Global;
use std::marker::Model;

/// The number for an infinite price, `-` in a certificate: no way to the end goes on from there.
pub const INFINITE: u64 = u64::MAX;

/// The price that a number means. None if it is infinite.
pub fn price_of(number: u64) -> Option<u64>
    ensures { result ≡ told number }
{
    if number == INFINITE {
        None
    } else {
        Some(number)
    }
}

/// The price plus `len` bytes. An infinite price stays infinite.
pub fn more(price: u64, len: u64) -> u64
    requires below { IsBelow (2 ^ 63 + 2 ^ 62) (told price) }
    requires low { len < 2 ^ 62 }
    ensures { told result ≡ option_map (λ q. len + q) (told price) }
{
    len.saturating_add(price)
}

/// Adds `len` bytes to each price.
pub fn add_each(row: &mut [u64], len: u64)
    requires below { AreBelow (2 ^ 63 + 2 ^ 62) (map told row.old) }
    requires low { len < 2 ^ 62 }
    ensures { map told row.new ≡ map (option_map (λ q. len + q)) (map told row.old) }
{
    for i in 0..row.len() {
        row[i] = more(row[i], len);
    }
}

/// The prices of each layer of a certificate, in bytes. Contracts see the list of rows, each the list of its prices. An
/// infinite price is None.
#[derive(Drop)]
pub struct Prices {
    /// The rows, one after the other.
    numbers: Vec<u64>,
    /// The index in `numbers` after each row.
    ends: Vec<usize>,
}

impl Model for Prices {
    ghost use Rattle.std.specs.Prelude.{ℕ, List, Option, length};

    ghost Value = { List (List (Option ℕ)) };

    ghost use Rattle.hm_cert.specs.Layout.{rows_from, EndsAscend};

    ghost view = { λ p. rows_from p.numbers.items 0 p.ends.items };

    ghost invariant = { λ p. EndsAscend 0 p.ends.items (length p.numbers.items) };
}

impl Prices {
    /// No rows. It allocates nothing until a row is added.
    pub fn new(alloc: Global) -> Prices
        ensures { result ≡ [] }
    {
        Prices {
            numbers: Vec::new(alloc),
            ends: Vec::new(alloc),
        }
    }

    /// Adds a row after the others. An infinite price is `INFINITE`.
    pub fn push_row(&mut self, row: &[u64]) -> Result<(), OutOfMemory>
        ensures ok { OnOk result (self.new ≡ self.old ++ map told row.now ∷ []) }
        ensures unchanged { OnErr result (self.new ≡ self.old) }
    {
        let start = self.numbers.len();
        self.numbers.extend_from_slice(row)?;
        match self.ends.push(self.numbers.len()) {
            Ok(()) => Ok(()),
            Err(_) => {
                self.numbers.truncate(start);
                Err(OutOfMemory)
            }
        }
    }

    /// Removes all rows.
    pub fn clear(&mut self)
        ensures { self.new ≡ [] }
    {
        self.numbers.clear();
        self.ends.clear();
    }

    /// How many rows there are.
    pub fn rows(&self) -> usize
        ensures { result ≡ length self.now }
    {
        self.ends.len()
    }

    /// The prices of row `k`. An infinite price is `INFINITE`.
    pub fn row(&self, k: usize) -> &[u64]
        requires { k < length self.now }
        ensures { map told result.now ≡ slice_index_or self.now k [] }
    {
        let (start, end) = span_of(&self.ends, k);
        part_of(&self.numbers, start, end)
    }
}

/// The index of the first number of row `k`, and the one after its last. `ends` has the latter for all rows.
fn span_of(ends: &[usize], k: usize) -> (usize, usize)
    requires { k < length ends.now }
    ensures start { result.0 ≡ slice_index (0 ∷ ends.now) k }
    ensures end { result.1 ≡ slice_index ends.now k }
{
    let start = if k == 0 { 0 } else { ends[k - 1] };
    (start, ends[k])
}

/// The numbers from index `start` up to `end`.
fn part_of(numbers: &[u64], start: usize, end: usize) -> &[u64]
    requires order { start ≤ end }
    requires inside { end ≤ length numbers.now }
    ensures { result.now ≡ slice_range numbers.now start end }
{
    &numbers[start..end]
}
