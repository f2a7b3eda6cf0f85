//! Names of character references for two code points.
ghost use Rattle.std.specs.Prelude.{◌≡◌, ◌<◌, ◌∷◌, [], false, ℕ, Some, length, bytes_eq, IfOk, IsTrue};
ghost use Rattle.hm_refs.specs.Tables.{entry_at};
ghost use Rattle.hm_edges.specs.Units as units;
ghost use Rattle.hm_graph.specs.Interned.{AreLone, BeginsNoPair};

use hm_base::OutOfMemory;
use hm_refs::{NameId, Table};
use std::alloc::Global;

/// Whether the name gives these two code points.
fn stands_for(table: &Table, id: NameId, c: char, d: char) -> bool
    requires { id < length table.now.entries }
    ensures { result ≡ bytes_eq (entry_at table.now.entries id).points (c ∷ d ∷ []) }
{
    let points = table.points(id);
    points.first == c && points.second == Some(d)
}

/// Whether some name gives these two code points.
pub(crate) fn has_pair(table: &Table, c: char, d: char) -> bool
    ensures { result ≡ units.has_pair table.now.entries c d }
{
    for id in table.names_for(c) {
        if stands_for(table, *id, c, d) {
            return true;
        }
    }
    false
}

/// The next character, if some name gives the two; else None.
pub(crate) fn pair_of(table: &Table, c: char, next: char) -> Option<char>
    ensures { result ≡ units.pair_of table.now.entries c (Some next) }
{
    if has_pair(table, c, next) {
        Some(next)
    } else {
        None
    }
}

/// Whether the name gives two code points.
fn is_double(table: &Table, id: NameId) -> bool
    requires { id < length table.now.entries }
    ensures { (c d : ℕ) → result ≡ false → bytes_eq (entry_at table.now.entries id).points (c ∷ d ∷ []) ≡ false }
{
    table.points(id).second.is_some()
}

/// True only if no name for two code points starts with the character. It may be false for such a character too.
fn begins_no_pair(table: &Table, c: char) -> bool
    ensures { IsTrue result → BeginsNoPair table.now.entries c }
{
    for id in table.names_for(c) {
        if is_double(table, *id) {
            return false;
        }
    }
    true
}

/// For each ASCII character, whether it is known that no name for two code points starts with it.
pub(crate) fn lone_characters(alloc: Global, table: &Table) -> Result<Vec<bool>, OutOfMemory>
    ensures { IfOk result (λ lone. AreLone table.now.entries lone.items) }
{
    let mut lone = Vec::new(alloc);
    for c in 0..128u8 {
        lone.push(begins_no_pair(table, c as char))?;
    }
    Ok(lone)
}
