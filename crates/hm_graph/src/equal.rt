//! Whether states and pieces are equal. Kinds are compared first, and then what a kind holds.
ghost use Rattle.std.specs.Prelude.{◌≡◌, ◌↔◌, IsTrue};
ghost use Rattle.hm_edges.specs.declared.pieces.Piece.TheVariants as pieces;
ghost use Rattle.hm_edges.specs.declared.states.Pending.TheVariants as pending;

use hm_edges::{Pending, Piece, Quoting, State, Where};
use hm_refs::{NameId, Node};

/// Whether the two are equal.
fn is_where(one: Where, other: Where) -> bool
    ensures { IsTrue result ↔ (one ≡ other) }
{
    one == other
}

/// Whether this is `Ampersand` with that node.
fn is_ampersand(one: Pending, node: Node) -> bool
    ensures { IsTrue result ↔ (one ≡ pending.Ampersand node) }
{
    match one {
        Pending::Ampersand { node: own } => own == node,
        _ => false,
    }
}

/// Whether this is `Named` with that node.
fn is_named(one: Pending, node: Node) -> bool
    ensures { IsTrue result ↔ (one ≡ pending.Named node) }
{
    match one {
        Pending::Named { node: own } => own == node,
        _ => false,
    }
}

/// Whether this is `Half` with that node or none.
fn is_half(one: Pending, left: Option<Node>) -> bool
    ensures { IsTrue result ↔ (one ≡ pending.Half left) }
{
    match one {
        Pending::Half { left: own } => own == left,
        _ => false,
    }
}

/// Whether the two are equal.
fn is_pending(one: Pending, other: Pending) -> bool
    ensures { IsTrue result ↔ (one ≡ other) }
{
    match other {
        Pending::Nothing => matches!(one, Pending::Nothing),
        Pending::LessThan => matches!(one, Pending::LessThan),
        Pending::Hash => matches!(one, Pending::Hash),
        Pending::HashX => matches!(one, Pending::HashX),
        Pending::Decimal => matches!(one, Pending::Decimal),
        Pending::Hexadecimal => matches!(one, Pending::Hexadecimal),
        Pending::Ampersand { node } => is_ampersand(one, node),
        Pending::Named { node } => is_named(one, node),
        Pending::Half { left } => is_half(one, left),
        Pending::OneBracket => matches!(one, Pending::OneBracket),
        Pending::TwoBrackets => matches!(one, Pending::TwoBrackets),
    }
}

/// Whether the two are equal.
pub(crate) fn is_state(one: &State, other: &State) -> bool
    ensures { IsTrue result ↔ (one.now ≡ other.now) }
{
    is_where(one.at, other.at) && is_pending(one.pending, other.pending)
}

/// Whether this is `StartTag` with that field.
fn is_start_tag(one: Piece, closes: bool) -> bool
    ensures { IsTrue result → one ≡ pieces.StartTag closes }
{
    match one {
        Piece::StartTag { closes: own } => own == closes,
        _ => false,
    }
}

/// Whether this is `Attribute` with those fields.
fn is_attribute(one: Piece, gap: bool, form: Quoting) -> bool
    ensures { IsTrue result → one ≡ pieces.Attribute gap form }
{
    match one {
        Piece::Attribute {
            gap: own,
            form: own_form,
        } => own == gap && own_form == form,
        _ => false,
    }
}

/// Whether this is `Quote` with that field.
fn is_quote(one: Piece, double: bool) -> bool
    ensures { IsTrue result → one ≡ pieces.Quote double }
{
    match one {
        Piece::Quote { double: own } => own == double,
        _ => false,
    }
}

/// Whether this is `TagClose` with those fields.
fn is_tag_close(one: Piece, space: bool, closes: bool) -> bool
    ensures { IsTrue result → one ≡ pieces.TagClose space closes }
{
    match one {
        Piece::TagClose {
            space: own,
            closes: is_closed,
        } => own == space && is_closed == closes,
        _ => false,
    }
}

/// Whether this is `Name` with that number.
fn is_name(one: Piece, id: NameId) -> bool
    ensures { IsTrue result → one ≡ pieces.Name id }
{
    match one {
        Piece::Name { id: own } => own == id,
        _ => false,
    }
}

/// Whether this is `Decimal` with those fields.
fn is_decimal(one: Piece, number: u32, closed: bool) -> bool
    ensures { IsTrue result → one ≡ pieces.Decimal number closed }
{
    match one {
        Piece::Decimal {
            number: own,
            closed: is_closed,
        } => own == number && is_closed == closed,
        _ => false,
    }
}

/// Whether this is `Hexadecimal` with those fields.
fn is_hexadecimal(one: Piece, number: u32, closed: bool) -> bool
    ensures { IsTrue result → one ≡ pieces.Hexadecimal number closed }
{
    match one {
        Piece::Hexadecimal {
            number: own,
            closed: is_closed,
        } => own == number && is_closed == closed,
        _ => false,
    }
}

/// Whether this is `Section` with those fields.
fn is_section(one: Piece, opens: bool, closes: bool) -> bool
    ensures { IsTrue result → one ≡ pieces.Section opens closes }
{
    match one {
        Piece::Section {
            opens: own,
            closes: is_closed,
        } => own == opens && is_closed == closes,
        _ => false,
    }
}

/// Whether the two are equal.
pub(crate) fn is_piece(one: Piece, other: Piece) -> bool
    ensures { IsTrue result → one ≡ other }
{
    match other {
        Piece::Nothing => matches!(one, Piece::Nothing),
        Piece::Itself => matches!(one, Piece::Itself),
        Piece::StartTag { closes } => is_start_tag(one, closes),
        Piece::TagName => matches!(one, Piece::TagName),
        Piece::Attribute { gap, form } => is_attribute(one, gap, form),
        Piece::Quote { double } => is_quote(one, double),
        Piece::TagClose { space, closes } => is_tag_close(one, space, closes),
        Piece::EndTag => matches!(one, Piece::EndTag),
        Piece::Name { id } => is_name(one, id),
        Piece::Decimal { number, closed } => is_decimal(one, number, closed),
        Piece::Hexadecimal { number, closed } => is_hexadecimal(one, number, closed),
        Piece::Section { opens, closes } => is_section(one, opens, closes),
    }
}
