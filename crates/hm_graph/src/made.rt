//! Steps that were made, and which of them a unit has from a list.
ghost use Rattle.std.specs.Prelude.{◌≡◌, ◌<◌, length, IfSome, IsTrue};
ghost use Rattle.std.specs.List.{HoldsAt};
ghost use Rattle.hm_edges.specs.declared.units.Unit.TheVariants.{AttributeEnd, AttributeName, BareAttribute, Character, EndTag, Fixed, StartTag, TagClose, TagName};

use crate::step::{Step, are_equal};
use hm_edges::{Needs, TextKind, Unit};

/// How many steps are searched for an equal one.
const SEARCHED: usize = 256;

/// The number of a list, and a unit.
#[derive(Clone, Copy, PartialEq, Eq, Hash)]
pub(crate) struct StepKey {
    pub(crate) list: u32,
    pub(crate) unit: Unit,
}

/// A step, and the number of the list after it.
#[derive(Drop)]
pub(crate) struct MadeStep {
    pub(crate) step: Step,
    pub(crate) after: u32,
}

/// The number of the step of a unit from the states of a list.
#[derive(Clone, Copy)]
pub(crate) struct KnownStep {
    pub(crate) list: u32,
    pub(crate) unit: Unit,
    pub(crate) number: u32,
}

/// The number of a step, and that of the list after it.
#[derive(Clone, Copy)]
pub(crate) struct Reached {
    pub(crate) number: u32,
    pub(crate) after: u32,
}

/// Whether the two are equal.
#[inline(always)]
pub(crate) fn is_kind(one: TextKind, other: TextKind) -> bool
    ensures { IsTrue result → one ≡ other }
{
    one == other
}

/// Whether a unit is a start tag without attributes with all of these fields.
#[inline(always)]
fn is_start_tag(
    one: &Unit,
    len: u32,
    omits: bool,
    required_after_omission: bool,
    closes: bool,
) -> bool
    ensures { IsTrue result → one.now ≡ StartTag len omits required_after_omission closes }
{
    match *one {
        Unit::StartTag {
            len: own,
            omits: is_omitted,
            required_after_omission: is_required_after_omission,
            closes: is_closed,
        } => own == len
            && is_omitted == omits
            && is_required_after_omission == required_after_omission
            && is_closed == closes,
        _ => false,
    }
}

/// Whether a unit is an end tag with all of these fields.
#[inline(always)]
fn is_end_tag(one: &Unit, len: u32, omits: bool, notes_omission: bool) -> bool
    ensures { IsTrue result → one.now ≡ EndTag len omits notes_omission }
{
    match *one {
        Unit::EndTag {
            len: own,
            omits: is_omitted,
            notes_omission: is_after_omitted_end,
        } => own == len && is_omitted == omits && is_after_omitted_end == notes_omission,
        _ => false,
    }
}

/// Whether a unit is the name of a tag, of `len` bytes.
#[inline(always)]
fn is_tag_name(one: &Unit, len: u32) -> bool
    ensures { IsTrue result → one.now ≡ TagName len }
{
    match *one {
        Unit::TagName { len: own } => own == len,
        _ => false,
    }
}

/// Whether a unit is the name of an attribute, of `len` bytes, with these needs of the value.
#[inline(always)]
fn is_attribute_name(one: &Unit, len: u32, needs: Needs) -> bool
    ensures { IsTrue result → one.now ≡ AttributeName len needs }
{
    match *one {
        Unit::AttributeName {
            len: own,
            needs: own_needs,
        } => own == len && own_needs == needs,
        _ => false,
    }
}

/// Whether a unit is the `>` of a tag with this field.
#[inline(always)]
fn is_tag_close(one: &Unit, closes: bool) -> bool
    ensures { IsTrue result → one.now ≡ TagClose closes }
{
    match *one {
        Unit::TagClose { closes: own } => own == closes,
        _ => false,
    }
}

/// Whether a unit closes a value.
#[inline(always)]
fn is_attribute_end(one: &Unit) -> bool
    ensures { IsTrue result → one.now ≡ AttributeEnd }
{
    match *one {
        Unit::AttributeEnd => true,
        _ => false,
    }
}

/// Whether a unit is `len` bytes without a choice.
#[inline(always)]
fn is_fixed(one: &Unit, len: u32) -> bool
    ensures { IsTrue result → one.now ≡ Fixed len }
{
    match *one {
        Unit::Fixed { len: own } => own == len,
        _ => false,
    }
}

/// Whether a unit is an attribute with an empty value, whose name has `len` bytes.
#[inline(always)]
fn is_bare_attribute(one: &Unit, len: u32) -> bool
    ensures { IsTrue result → one.now ≡ BareAttribute len }
{
    match *one {
        Unit::BareAttribute { len: own } => own == len,
        _ => false,
    }
}

/// Whether a unit is a character with all of these fields.
#[inline(always)]
fn is_character(one: &Unit, kind: TextKind, c: char, pair: Option<char>, more: bool) -> bool
    ensures { IsTrue result → one.now ≡ Character kind c pair more }
{
    match *one {
        Unit::Character {
            kind: own_kind,
            c: own,
            pair: own_pair,
            more: has_more,
        } => own == c && has_more == more && is_kind(own_kind, kind) && own_pair == pair,
        _ => false,
    }
}

/// Whether the two are equal. Where a unit is made, the kind of the other one is known, and the compiler keeps its test
/// alone.
#[inline(always)]
fn is_unit(one: &Unit, other: &Unit) -> bool
    ensures { IsTrue result → one.now ≡ other.now }
{
    match *other {
        Unit::StartTag {
            len,
            omits,
            required_after_omission,
            closes,
        } => is_start_tag(one, len, omits, required_after_omission, closes),
        Unit::EndTag {
            len,
            omits,
            notes_omission,
        } => is_end_tag(one, len, omits, notes_omission),
        Unit::TagName { len } => is_tag_name(one, len),
        Unit::AttributeName { len, needs } => is_attribute_name(one, len, needs),
        Unit::TagClose { closes } => is_tag_close(one, closes),
        Unit::AttributeEnd => is_attribute_end(one),
        Unit::Fixed { len } => is_fixed(one, len),
        Unit::BareAttribute { len } => is_bare_attribute(one, len),
        Unit::Character {
            kind,
            c,
            pair,
            more,
        } => is_character(one, kind, c, pair, more),
    }
}

impl KnownStep {
    /// Whether this is the step of this unit from this list.
    #[inline(always)]
    pub(crate) fn is_from(&self, list: u32, unit: &Unit) -> bool
        ensures list { IsTrue result → self.now.list ≡ list }
        ensures unit { IsTrue result → self.now.unit ≡ unit.now }
    {
        self.list == list && is_unit(&self.unit, unit)
    }
}

/// The number of a step with these hops and this list after it, if it is one of the first steps.
pub(crate) fn equal_made(made: &[MadeStep], step: &Step, after: u32) -> Option<u32>
    ensures there { IfSome result (λ n. n < length made.now) }
    ensures step { IfSome result (HoldsAt (λ x. x.step ≡ step.now) made.now) }
    ensures after { IfSome result (HoldsAt (λ x. x.after ≡ after) made.now) }
{
    for (place, other) in made.iter().enumerate() {
        if place >= SEARCHED {
            return None;
        }
        if other.after == after && are_equal(&other.step, step) {
            return Some(place as u32);
        }
    }
    None
}
