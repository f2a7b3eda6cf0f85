//! The edges of a unit from a state.
ghost use Rattle.std.specs.Prelude.{◌≡◌, ◌&&◌, ◌++◌, ◌∷◌, [], not, List, ℕ, OnOk, is_ok, if◌then◌else◌};
ghost use Rattle.hm_graph_laws.specs.AttributeEdges as attributes;
ghost use Rattle.hm_refs.specs.Tables.{TableView};
ghost use Rattle.hm_spelling_spec.specs.Characters as spots;
ghost use Rattle.hm_graph_laws.specs.TagEdges as tags;
ghost use Rattle.hm_graph_laws.specs.States as states;
ghost use Rattle.hm_graph_laws.specs.Units as units;
ghost use Rattle.hm_edges.specs.Found.{AreEdges, AreFront, AddsEdges};
ghost use Rattle.hm_edges.specs.Pieces.{AreOfTable};
ghost use Rattle.hm_edges.specs.States.{HasNodes, spot_of, state_of, where_of};

use crate::characters::{Character, add_character_edges};
use crate::pieces::{Edge, Piece, Quoting};
use crate::states::{Pending, Spot, State, Where};
use crate::steps::may_end;
use crate::units::Unit;
use hm_base::{OutOfMemory, SpellRules};
use hm_refs::Table;

/// Adds an edge at the end.
pub(crate) fn add(
    into: &mut Vec<Edge>,
    piece: Piece,
    at: Where,
    pending: Pending,
) -> Result<(), OutOfMemory>
    ensures { into.new.items ≡ (if is_ok result then into.old.items ++ record { piece = piece; to = record { at = at; pending = pending } } ∷ [] else into.old.items) }
{
    let to = State { at, pending };
    into.push(Edge { piece, to })?;
    Ok(())
}

/// Adds an edge at the end if `there`.
pub(crate) fn add_if(
    there: bool,
    into: &mut Vec<Edge>,
    piece: Piece,
    at: Where,
    pending: Pending,
) -> Result<(), OutOfMemory>
    ensures { into.new.items ≡ (if is_ok result && there then into.old.items ++ record { piece = piece; to = record { at = at; pending = pending } } ∷ [] else into.old.items) }
{
    if there {
        add(into, piece, at, pending)
    } else {
        Ok(())
    }
}

/// Whether the last tag is an omitted end tag after which `tbody` and `colgroup` keep their start tags.
fn is_after_omitted_end(at: Where) -> bool
    ensures { result ≡ tags.is_after_omitted_end (where_of at) }
{
    match at {
        Where::AfterOmittedEnd => true,
        _ => false,
    }
}

/// The place in the markup, with the mark of a loose end removed.
fn omission_forgotten(at: Where) -> Where
    ensures { where_of result ≡ tags.omission_forgotten (where_of at) }
{
    match at {
        Where::AfterOmittedEnd => Where::Outside,
        _ => at,
    }
}

/// Whether an optional start tag may be left out. Those of `tbody` and `colgroup` are required directly after an end tag
/// that was left out.
fn may_fall(omits: bool, required_after_omission: bool, at: Where) -> bool
    ensures { result ≡ (omits && not (required_after_omission && tags.is_after_omitted_end (where_of at))) }
{
    omits && !(required_after_omission && is_after_omitted_end(at))
}

/// Adds the edges of a start tag without attributes: nothing, if it may be omitted; the tag; the tag with a `/`, if it
/// may close itself.
fn add_start_edges(
    into: &mut Vec<Edge>,
    omits: bool,
    required_after_omission: bool,
    closes: bool,
    from: State,
) -> Result<(), OutOfMemory>
    ensures { (v : TableView) (n : List ℕ) → HasNodes v from.pending
        → AddsEdges result v (units.start_tag n omits required_after_omission closes) into.old.items into.new.items (tags.start_edges n omits required_after_omission closes (state_of v from)) }
{
    let falls = may_fall(omits, required_after_omission, from.at);
    add_if(
        falls,
        into,
        Piece::Nothing,
        omission_forgotten(from.at),
        from.pending,
    )?;
    add(
        into,
        Piece::StartTag { closes: false },
        Where::Outside,
        Pending::Nothing,
    )?;
    add_if(
        closes,
        into,
        Piece::StartTag { closes: true },
        Where::SelfClosed,
        Pending::Nothing,
    )
}

/// The state after an omitted end tag.
fn after_left_out(notes_omission: bool, from: State) -> State
    ensures state { (v : TableView) → state_of v result ≡ tags.after_left_out notes_omission (state_of v from) }
    ensures nodes { (v : TableView) → HasNodes v from.pending → HasNodes v result.pending }
{
    if notes_omission {
        State {
            at: Where::AfterOmittedEnd,
            pending: Pending::Nothing,
        }
    } else {
        from
    }
}

/// Whether the element was closed by the `/` of its start tag.
fn is_self_closed(at: Where) -> bool
    ensures { result ≡ tags.is_self_closed (where_of at) }
{
    match at {
        Where::SelfClosed => true,
        _ => false,
    }
}

/// Adds the edges of an end tag: only nothing, if the start tag closed itself; else nothing, if it may be omitted, and
/// the tag.
fn add_end_edges(
    into: &mut Vec<Edge>,
    omits: bool,
    notes_omission: bool,
    from: State,
) -> Result<(), OutOfMemory>
    ensures { (v : TableView) (n : List ℕ) → HasNodes v from.pending
        → AddsEdges result v (units.end_tag n omits notes_omission) into.old.items into.new.items (tags.end_edges n omits notes_omission (state_of v from)) }
{
    if is_self_closed(from.at) {
        return add(into, Piece::Nothing, Where::Outside, Pending::Nothing);
    }
    let to = after_left_out(notes_omission, from);
    add_if(omits, into, Piece::Nothing, to.at, to.pending)?;
    add(into, Piece::EndTag, Where::Outside, Pending::Nothing)
}

/// Whether the last attribute has a value in quotes.
fn is_after_quoted(at: Where) -> bool
    ensures { result ≡ attributes.is_after_quoted (where_of at) }
{
    match at {
        Where::AfterQuoted => true,
        _ => false,
    }
}

/// Whether a space is written before an attribute: always, but not after a quote with `tight`.
fn has_gap(tight: bool, at: Where) -> bool
    ensures { result ≡ not (tight && attributes.is_after_quoted (where_of at)) }
{
    !(tight && is_after_quoted(at))
}

/// Adds the edge of an attribute with an empty value.
fn add_bare_edges(into: &mut Vec<Edge>, tight: bool, from: State) -> Result<(), OutOfMemory>
    ensures { (v : TableView) (n : List ℕ)
        → AddsEdges result v (units.bare_attribute n) into.old.items into.new.items (attributes.bare_edges tight n (state_of v from)) }
{
    let gap = has_gap(tight, from.at);
    add(
        into,
        Piece::Attribute {
            gap,
            form: Quoting::Bare,
        },
        Where::AfterName,
        Pending::Nothing,
    )
}

/// Adds the edges of the name of an attribute whose value isn't empty, its `=` and what opens the value.
fn add_opening_edges(
    into: &mut Vec<Edge>,
    tight: bool,
    unquote: bool,
    from: State,
) -> Result<(), OutOfMemory>
    ensures { (v : TableView) (n value : List ℕ)
        → AddsEdges result v (units.attribute_name n value) into.old.items into.new.items (attributes.opening_edges tight unquote n (state_of v from)) }
{
    let gap = has_gap(tight, from.at);
    add_if(
        unquote,
        into,
        Piece::Attribute {
            gap,
            form: Quoting::Unquoted,
        },
        Where::InUnquoted,
        Pending::Nothing,
    )?;
    add(
        into,
        Piece::Attribute {
            gap,
            form: Quoting::Double,
        },
        Where::InDouble,
        Pending::Nothing,
    )?;
    add(
        into,
        Piece::Attribute {
            gap,
            form: Quoting::Single,
        },
        Where::InSingle,
        Pending::Nothing,
    )
}

/// The spot of the characters of a value, by its quotes.
pub(crate) fn value_spot(at: Where) -> Spot
    ensures { spot_of result ≡ states.value_spot (where_of at) }
{
    match at {
        Where::InUnquoted => Spot::Unquoted,
        Where::InSingle => Spot::Single,
        _ => Spot::Double,
    }
}

/// Adds the edge that closes a value: its quote, or no byte.
fn add_closed(into: &mut Vec<Edge>, at: Where) -> Result<(), OutOfMemory>
    ensures { (v : TableView) → AddsEdges result v units.attribute_end into.old.items into.new.items (attributes.closed_at (where_of at)) }
{
    match at {
        Where::InUnquoted => add(into, Piece::Nothing, Where::AfterUnquoted, Pending::Nothing),
        Where::InDouble => add(
            into,
            Piece::Quote { double: true },
            Where::AfterQuoted,
            Pending::Nothing,
        ),
        Where::InSingle => add(
            into,
            Piece::Quote { double: false },
            Where::AfterQuoted,
            Pending::Nothing,
        ),
        _ => Ok(()),
    }
}

/// Adds the edge that closes a value, if the value may end here.
fn add_closing_edges(into: &mut Vec<Edge>, table: &Table, from: State) -> Result<(), OutOfMemory>
    requires { HasNodes table.now from.pending }
    ensures { AddsEdges result table.now units.attribute_end into.old.items into.new.items (attributes.closing_edges table.now.entries (state_of table.now from)) }
{
    if may_end(from.pending, table, value_spot(from.at)) {
        add_closed(into, from.at)
    } else {
        Ok(())
    }
}

/// Whether the last attribute has a value without quotes.
fn is_after_unquoted(at: Where) -> bool
    ensures { result ≡ attributes.is_after_unquoted (where_of at) }
{
    match at {
        Where::AfterUnquoted => true,
        _ => false,
    }
}

/// Adds the edges of `>`, and of `/>` if the tag may close itself. A space goes between a value without quotes and
/// `/>`.
fn add_close_edges(into: &mut Vec<Edge>, closes: bool, from: State) -> Result<(), OutOfMemory>
    ensures { (v : TableView) → AddsEdges result v (units.tag_close closes) into.old.items into.new.items (attributes.close_edges closes (state_of v from)) }
{
    add(
        into,
        Piece::TagClose {
            space: false,
            closes: false,
        },
        Where::Outside,
        Pending::Nothing,
    )?;
    let space = is_after_unquoted(from.at);
    add_if(
        closes,
        into,
        Piece::TagClose {
            space,
            closes: true,
        },
        Where::SelfClosed,
        Pending::Nothing,
    )
}

/// Finds the edges of a unit from a state, in their order. They replace what the buffer held.
///
/// A reference is an edge only for characters that aren't plain. After an error the buffer holds a prefix of the edges.
pub fn find_edges(
    table: &Table,
    rules: SpellRules,
    unit: Unit,
    from: State,
    into: &mut Vec<Edge>,
) -> Result<(), OutOfMemory>
    requires { HasNodes table.now from.pending }
    ensures edges { OnOk result (AreEdges table.now rules unit from into.new.items) }
    ensures front { AreFront table.now rules unit from into.new.items }
    ensures known { AreOfTable table.now into.new.items }
{
    into.clear();
    match unit {
        Unit::Fixed { len: _ } => add(into, Piece::Itself, Where::Outside, Pending::Nothing),
        Unit::StartTag {
            len: _,
            omits,
            required_after_omission,
            closes,
        } => add_start_edges(into, omits, required_after_omission, closes, from),
        Unit::TagName { len: _ } => add(into, Piece::TagName, Where::AfterName, Pending::Nothing),
        Unit::BareAttribute { len: _ } => add_bare_edges(into, rules.tight, from),
        Unit::AttributeName { len: _, needs: _ } => {
            add_opening_edges(into, rules.tight, rules.unquote, from)
        }
        Unit::Character {
            kind,
            c,
            pair,
            more,
        } => {
            let character = Character {
                kind,
                c,
                pair,
                more,
            };
            add_character_edges(into, table, rules.ascii, character, from)
        }
        Unit::AttributeEnd => add_closing_edges(into, table, from),
        Unit::TagClose { closes } => add_close_edges(into, closes, from),
        Unit::EndTag {
            len: _,
            omits,
            notes_omission,
        } => add_end_edges(into, omits, notes_omission, from),
    }
}
