//! How many bytes a piece writes.
ghost use Rattle.std.specs.Prelude.{◌≡◌, ◌≤◌, ◌<◌, ◌+◌, ◌^◌, ℕ, List, false, length};
ghost use Rattle.std.specs.Fmt.{digits};
ghost use Rattle.hm_refs.specs.Names.{Entry};
ghost use Rattle.hm_graph_laws.specs.Units as units;
ghost use Rattle.hm_edges.specs.Pieces.{HasName, own_bytes, piece_bytes, with_opening};
ghost use Rattle.hm_edges.specs.Units.{StandsFor};

use crate::pieces::{Piece, Quoting};
use crate::units::Unit;
use hm_refs::Table;
use hm_refs::laws::every_table;

/// The length of the unit's own text in bytes: of its name, of bytes without a choice, or of the character.
fn own_len(unit: Unit) -> u64
    ensures value { (t : List Entry) (u : units.Unit) → StandsFor t unit u → result ≡ length (own_bytes u) }
    ensures few { result < 2 ^ 32 }
{
    match unit {
        Unit::Fixed { len } => u64::from(len),
        Unit::StartTag {
            len,
            omits: _,
            required_after_omission: _,
            closes: _,
        } => u64::from(len),
        Unit::TagName { len } => u64::from(len),
        Unit::BareAttribute { len } => u64::from(len),
        Unit::AttributeName { len, needs: _ } => u64::from(len),
        Unit::Character {
            kind: _,
            c,
            pair: _,
            more: _,
        } => c.len_utf8() as u64,
        Unit::AttributeEnd => 0,
        Unit::TagClose { closes: _ } => 0,
        Unit::EndTag {
            len,
            omits: _,
            notes_omission: _,
        } => u64::from(len),
    }
}

/// How many bytes open a value after the attribute's name.
fn opening_len(form: Quoting) -> u64
    ensures value { (n : List ℕ) → length (with_opening form n) ≡ length n + result }
    ensures few { result ≤ 2 }
{
    match form {
        Quoting::Bare => 0,
        Quoting::Unquoted => 1,
        Quoting::Double => 2,
        Quoting::Single => 2,
    }
}

/// The number of digits of `number` in this base.
fn digit_count(number: u32, base: u32) -> u64
    requires low { 2 ≤ base }
    ensures value { result ≡ length (digits base false number) }
    ensures few { result ≤ 64 }
{
    let mut count = 1;
    let mut left = number / base;
    while left != 0 {
        left /= base;
        count += 1;
    }
    count
}

/// The length in bytes of what the piece writes for the unit. The piece is one that `find_edges` gives for it. Less
/// than 2^33.
pub fn piece_len(unit: Unit, piece: Piece, table: &Table) -> u64
    requires { HasName table.now.entries piece }
    ensures value { (u : units.Unit) → StandsFor table.now.entries unit u → result ≡ length (piece_bytes table.now.entries u piece) }
    ensures few { result < 2 ^ 33 }
{
    match piece {
        Piece::Nothing => 0,
        Piece::Itself => own_len(unit),
        Piece::StartTag { closes } => 2 + u64::from(closes) + own_len(unit),
        Piece::TagName => 1 + own_len(unit),
        Piece::Attribute { gap, form } => u64::from(gap) + own_len(unit) + opening_len(form),
        Piece::Quote { double: _ } => 1,
        Piece::TagClose { space, closes } => 1 + u64::from(space) + u64::from(closes),
        Piece::EndTag => 3 + own_len(unit),
        Piece::Name { id } => {
            every_table(table);
            table.name(id).len() as u64
        },
        Piece::Decimal { number, closed } => 2 + u64::from(closed) + digit_count(number, 10),
        Piece::Hexadecimal { number, closed } => 3 + u64::from(closed) + digit_count(number, 16),
        Piece::Section { opens, closes } => 9 * u64::from(opens)
            + 3 * u64::from(closes)
            + own_len(unit),
    }
}
