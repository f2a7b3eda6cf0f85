//! The steps from a layer of one state to the next one: the prices of their layers, and what the first way writes.
ghost use Rattle.std.specs.Prelude.{◌≡◌, ◌<◌, ◌+◌, ◌-◌, ◌^◌, ◌++◌, ◌∷◌, [], ℕ, Some, length, map, option_map, IfOk, IfSome, IsTrue, OnOk, true};
ghost use Rattle.hm_base.specs.declared.plain.Format.TheVariants.{Sparse};
ghost use Rattle.hm_cert.specs.Layout.{told};
ghost use Rattle.hm_cert.specs.Rows.{AreBelow};
ghost use Rattle.hm_edges.specs.Pieces.{HasName};
ghost use Rattle.std.specs.List.{All};
ghost use Rattle.hm_graph.specs.Graphs.{AreLow, IsLowStep};
ghost use Rattle.hm_graph.specs.Joined.{kept_rows};
ghost use Rattle.hm_graph.specs.Prices.{row_over, zeros};
ghost use Rattle.hm_graph.specs.Ways.{hop_taken};
ghost use Rattle.hm_shortest.specs.Stretches.{AreFound, AreUpTo, own_way, owns_in, placed, steps_in};

use crate::kept::Kept;
use crate::paths::hop_at;
use crate::plans::find_best;
use hm_base::OutOfMemory;
use hm_cert::{INFINITE, Prices};
use hm_edges::Piece;
use hm_event_parts::put_piece;
use hm_graph::{Hop, Step};
use hm_refs::{NameId, Table};

/// Finds the prices before a step from those after it. They replace what the row held.
fn row_before(step: &Step, next_row: &[u64], row: &mut Vec<u64>) -> Result<(), OutOfMemory>
    requires below { AreBelow (2 ^ 63 + 2 ^ 62) (map told next_row.now) }
    requires low { IsLowStep step.now }
    ensures { OnOk result (map told row.new.items ≡ row_over (map told next_row.now) step.now) }
{
    row.clear();
    for place in 0..step.width() {
        row.push(find_best(step.hops(place), next_row).price)?;
    }
    Ok(())
}

/// Replaces what the row held by the prices of the last layer, which has `last` states.
pub(crate) fn zero_each(last: usize, row: &mut Vec<u64>) -> Result<(), OutOfMemory>
    ensures { OnOk result (map told row.new.items ≡ zeros last) }
{
    row.clear();
    for _place in 0..last {
        row.push(0)?;
    }
    Ok(())
}

/// Finds the prices of the layers of these steps, of which the last one leads to `last` states.
pub(crate) fn find_rows(
    stretch: &[Kept],
    last: usize,
    found: &mut Prices,
    spare: &mut Vec<u64>,
) -> Result<(), OutOfMemory>
    requires { length stretch.now < 2 ^ 28 }
    ensures found { OnOk result (AreFound last (steps_in stretch.now) 0 found.new) }
    ensures low { OnOk result (AreLow (steps_in stretch.now)) }
{
    found.clear();
    zero_each(last, spare)?;
    found.push_row(spare)?;
    for k in (0..stretch.len()).rev() {
        let kept = &stretch[k];
        row_before(&kept.step, found.row(found.rows() - 1), spare)?;
        found.push_row(spare)?;
    }
    Ok(())
}

/// The price of a layer of one state, if there is a way to the end.
pub(crate) fn one_price(row: &[u64]) -> Option<u64>
    ensures { IfSome result (λ price. map told row.now ≡ Some price ∷ []) }
{
    match row {
        [price] if *price != INFINITE => Some(*price),
        _ => None,
    }
}

/// The first hop from a place that has the least price, by the prices of the next layer.
fn best_hop(step: &Step, next_row: &[u64], place: usize) -> Option<Hop>
    requires below { AreBelow (2 ^ 63 + 2 ^ 62) (map told next_row.now) }
    requires low { IsLowStep step.now }
    ensures { result ≡ hop_taken (map told next_row.now) step.now place }
{
    if place >= step.width() {
        return None;
    }
    let hops = step.hops(place);
    hop_at(hops, find_best(hops, next_row).place)
}

/// Whether a name is one of these.
fn is_among(ids: &[NameId], id: NameId) -> bool
    ensures { (n : ℕ) → IsTrue result → All (λ i. i < n) ids.now → id < n }
{
    for other in ids {
        if *other == id {
            return true;
        }
    }
    false
}

/// Whether the name in a piece is known to be one of the table. `c` is the unit's character, if it is one.
fn has_name(table: &Table, piece: Piece, c: Option<char>) -> bool
    ensures { IsTrue result → HasName table.now.entries piece }
{
    match piece {
        Piece::Name { id } => match c {
            Some(c) => is_among(table.names_for(c), id),
            None => false,
        },
        _ => true,
    }
}

/// Writes the first way over these steps, by the prices of their layers. Gives whether it leads to the end.
pub(crate) fn write_way(
    out: &mut Vec<u8>,
    table: &Table,
    stretch: &[Kept],
    found: &Prices,
) -> Result<bool, OutOfMemory>
    requires count { length found.now ≡ length stretch.now + 1 }
    requires below { AreUpTo (2 ^ 62) found.now }
    ensures { IfOk result (λ whole. whole ≡ true → (last : ℕ) → AreFound last (steps_in stretch.now) 0 found.now
        → out.new.items ≡ out.old.items ++ own_way table.now.entries last (owns_in stretch.now) (steps_in stretch.now) 0) }
{
    let mut place = 0;
    for k in 0..stretch.len() {
        let kept = &stretch[k];
        let next_row = found.row(stretch.len() - k - 1);
        let Some(hop) = best_hop(&kept.step, next_row, place) else {
            return Ok(false);
        };
        if !has_name(table, hop.piece, kept.own.character()) {
            return Ok(false);
        }
        put_piece(out, table, hop.piece, kept.own.lent())?;
        place = hop.to;
    }
    Ok(true)
}

/// The difference of a price from `top`, as rows store it.
fn place_price(price: u64, top: u64) -> u64
    requires { top < 2 ^ 64 - 1 }
    ensures { told result ≡ option_map (λ q. top - q) (told price) }
{
    if price == INFINITE {
        INFINITE
    } else {
        top.saturating_sub(price)
    }
}

/// The difference of each price from `top`. They replace what the list held.
pub(crate) fn place_row(row: &[u64], top: u64, into: &mut Vec<u64>) -> Result<(), OutOfMemory>
    requires { top < 2 ^ 64 - 1 }
    ensures { OnOk result (map told into.new.items ≡ placed top (map told row.now)) }
{
    into.clear();
    for k in 0..row.len() {
        into.push(place_price(row[k], top))?;
    }
    Ok(())
}

/// Keeps those rows of the layers of these steps that a certificate writes.
pub(crate) fn keep_rows(
    rows: &mut Prices,
    stretch: &[Kept],
    found: &Prices,
    top: u64,
    spare: &mut Vec<u64>,
) -> Result<(), OutOfMemory>
    requires count { length found.now ≡ length stretch.now + 1 }
    requires top { top < 2 ^ 64 - 1 }
    ensures { OnOk result ((last : ℕ) → AreFound last (steps_in stretch.now) 0 found.now
        → rows.new ≡ rows.old ++ map (placed top) (kept_rows Sparse last (steps_in stretch.now))) }
{
    for k in 0..stretch.len() {
        let kept = &stretch[k];
        if !kept.step.is_forced() {
            place_row(found.row(stretch.len() - k), top, spare)?;
            rows.push_row(spare)?;
        }
    }
    Ok(())
}
