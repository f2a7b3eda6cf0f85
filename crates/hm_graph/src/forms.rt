//! What a change of a value's quotes may cost.
ghost use Rattle.std.specs.Prelude.{◌≡◌, ◌||◌, List, ℕ, IfSome};
ghost use Rattle.hm_edges.specs.States.{state_of, where_of};
ghost use Rattle.hm_edges.specs.Units.{StandsFor};
ghost use Rattle.hm_graph.specs.Forms as forms;
ghost use Rattle.hm_graph.specs.Forms.{AreNeeds, IsChange, IsFew};
ghost use Rattle.hm_graph.specs.EntityFacts as told;
ghost use Rattle.hm_graph_laws.specs.Units as units;
ghost use Rattle.hm_graph_laws.specs.Forms.{saved};
ghost use Rattle.hm_optimality_laws.specs.Dominated.{is_nothing};
ghost use Rattle.hm_refs.specs.Names.{Entry};
ghost use Rattle.hm_refs.specs.Tables.{TableView};

use hm_edges::{Need, Needs, Pending, State, Unit, Where};

/// How many bytes more a value and all after it may take with other quotes, and how many fewer they take at least.
#[derive(Clone, Copy)]
pub(crate) struct Change {
    pub(crate) added: u64,
    pub(crate) saved: u64,
}

/// Whether the value has no such character.
fn is_absent(need: Need) -> bool
    ensures { result ≡ told.is_absent need }
{
    matches!(need, Need::Absent)
}

/// Whether a reference to one of the characters is costly.
pub(crate) fn is_costly_need(need: Need) -> bool
    ensures { result ≡ told.is_costly_need need }
{
    matches!(need, Need::Dear)
}

/// The fewest bytes that a change of quotes saves if characters with the first need, or the second one, no longer need
/// references.
fn saved_by(one: Need, other: Need) -> u64
    ensures { result ≡ saved (told.is_costly_need one || told.is_costly_need other) }
{
    if is_costly_need(one) || is_costly_need(other) {
        3
    } else {
        0
    }
}

/// A change that may add no byte and saves `saved`; None if the new quotes can't hold the value.
fn change_where(can_replace: bool, saved: u64) -> Option<Change>
    ensures { result ≡ forms.change_where can_replace saved }
{
    if can_replace {
        Some(Change { added: 0, saved })
    } else {
        None
    }
}

/// From no quotes to these quotes, which may add one byte.
fn change_of_unquoted(needs: Needs, to: Where) -> Option<Change>
    ensures { result ≡ forms.unquoted_change needs (where_of to) }
{
    match to {
        Where::InDouble => Some(Change {
            added: 1,
            saved: saved_by(needs.single, needs.other),
        }),
        Where::InSingle => Some(Change {
            added: 1,
            saved: saved_by(needs.double, needs.other),
        }),
        _ => None,
    }
}

/// From double quotes to these quotes, or to none.
fn change_of_double(needs: Needs, to: Where) -> Option<Change>
    ensures { result ≡ forms.double_change needs (where_of to) }
{
    match to {
        Where::InUnquoted => change_where(is_absent(needs.single) && is_absent(needs.other), 0),
        Where::InSingle => change_where(
            is_absent(needs.single),
            saved_by(needs.double, Need::Absent),
        ),
        _ => None,
    }
}

/// From single quotes to these quotes, or to none.
fn change_of_single(needs: Needs, to: Where) -> Option<Change>
    ensures { result ≡ forms.single_change needs (where_of to) }
{
    match to {
        Where::InUnquoted => change_where(is_absent(needs.double) && is_absent(needs.other), 0),
        Where::InDouble => change_where(
            is_absent(needs.double),
            saved_by(needs.single, Need::Absent),
        ),
        _ => None,
    }
}

/// How many bytes a change of quotes can add at most and saves at least; None if the new quotes can't hold the value.
fn change_of_form(needs: Needs, from: Where, to: Where) -> Option<Change>
    ensures { result ≡ forms.form_change needs (where_of from) (where_of to) }
{
    match from {
        Where::InUnquoted => change_of_unquoted(needs, to),
        Where::InDouble => change_of_double(needs, to),
        Where::InSingle => change_of_single(needs, to),
        _ => None,
    }
}

/// What the value needs that the unit opens; None if the unit opens no value.
fn needs_in(unit: Unit) -> Option<Needs>
    ensures { (t : List Entry) (u : units.Unit) → StandsFor t unit u → AreNeeds t u result }
{
    match unit {
        Unit::AttributeName { len: _, needs } => Some(needs),
        Unit::Fixed { .. } => None,
        Unit::StartTag { .. } => None,
        Unit::TagName { .. } => None,
        Unit::BareAttribute { .. } => None,
        Unit::Character { .. } => None,
        Unit::AttributeEnd => None,
        Unit::TagClose { .. } => None,
        Unit::EndTag { .. } => None,
    }
}

/// Whether nothing is pending.
fn has_nothing(state: &State) -> bool
    ensures { (v : TableView) → result ≡ is_nothing (state_of v state.now).pending }
{
    match state.pending {
        Pending::Nothing => true,
        _ => false,
    }
}

/// How many bytes a change of quotes can add at most and saves at least, if both states are at the start of the unit's
/// value; None if the new quotes can't hold it.
pub(crate) fn change_of(unit: Unit, from: &State, to: &State) -> Option<Change>
    ensures few { IfSome result IsFew }
    ensures change { (v : TableView) (u : units.Unit) → StandsFor v.entries unit u → IsChange v.entries u (state_of v from.now) (state_of v to.now) result }
{
    let needs = needs_in(unit)?;
    if has_nothing(from) && has_nothing(to) {
        return change_of_form(needs, from.at, to.at);
    }
    None
}
