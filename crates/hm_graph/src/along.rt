//! The steps of a tree's parts. A visitor is called for each step as it is added.
ghost use Rattle.std.specs.Prelude.{◌≡◌, ◌<◌, ◌≤◌, ◌+◌, ◌^◌, ◌∷◌, ◌++◌, [], codes, length, IfOk, OnOk};
ghost use Rattle.hm_base.specs.Walks.{attributes_size};
ghost use Rattle.std.specs.Str.{IsUtf8, chars};
ghost use Rattle.hm_edges.specs.Pieces.{own_bytes};
ghost use Rattle.hm_edges.specs.Units.{StandsFor, kind_of};
ghost use Rattle.hm_graph.specs.Going.{Goes, GoesOver};
ghost use Rattle.hm_event_parts.specs.Found.{IsFound, found_units};
ghost use Rattle.hm_event_parts.specs.Parts.{HasOwn, IsPart, part_units, unit_with};
ghost use Rattle.hm_event_parts.specs.UnitText.{own_text};
ghost use Rattle.hm_graph_laws.specs.Units as units;
ghost use Rattle.hm_graph_laws.specs.Units.{attribute_units, character_units};
ghost use Rattle.hm_tree.specs.Views.{attributes_shown};

use crate::building::GraphBuilder;
use crate::plain::Alike;
use crate::visitors::Visitor;
use hm_edges::{TextKind, Unit};
use hm_event_parts::{Found, Part, UnitText};
use hm_tree::AttrsView;

/// A graph while it is built, and its visitor.
#[derive(Drop)]
pub(crate) struct Along<'t, V> {
    pub(crate) graph: GraphBuilder<'t>,
    pub(crate) by: V,
}

/// Adds the step of a unit that has these bytes of its own.
#[inline(always)]
fn add<V: Visitor>(along: &mut Along<'_, V>, unit: &Unit, own: UnitText) -> Result<(), V::Stop>
    ensures { OnOk result ((u : units.Unit) → StandsFor along.old.graph.table.entries unit.now u → own_bytes u ≡ own_text own.entry → Goes V.goes_on (u ∷ []) [] along.old along.new) }
{
    let number = along.graph.add(unit)?;
    along
        .by
        .take(along.graph.table(), along.graph.step(number), own)?;
    Ok(())
}

/// Adds the step of a unit that is no character and opens no value. `own` is its own text.
#[inline(always)]
fn add_one<V: Visitor>(along: &mut Along<'_, V>, unit: &Unit, own: &str) -> Result<(), V::Stop>
    requires { HasOwn unit.now own.now }
    ensures { OnOk result (Goes V.goes_on (unit_with unit.now own.now ∷ []) [] along.old along.new) }
{
    add(along, unit, UnitText::Bytes { text: own })
}

/// Adds the step of the first character of a text, if there is one, and gives the rest of the text.
#[inline(always)]
fn add_first<'s, V: Visitor>(
    along: &mut Along<'_, V>,
    kind: TextKind,
    text: &'s str,
) -> Result<&'s str, V::Stop>
    ensures goes { IfOk result (λ rest. GoesOver V.goes_on (kind_of kind) (chars text.now) (chars rest.now) along.old along.new) }
    ensures shorter { IfOk result (λ rest. 0 < length text.now → length rest.now < length text.now) }
    ensures utf8 { IfOk result (λ rest. IsUtf8 rest.now) }
{
    let mut characters = text.chars();
    let first = characters.next();
    let rest = characters.as_str();
    if let Some(c) = first {
        let number = along.graph.add_character(kind, c, characters.next())?;
        along.by.take(
            along.graph.table(),
            along.graph.step(number),
            UnitText::Character { c },
        )?;
    }
    Ok(rest)
}

/// Adds the steps of the first characters of a text, as far as they are known to lead to one place, and gives the rest
/// of the text.
#[inline(always)]
fn add_alike<'s, V: Visitor>(
    along: &mut Along<'_, V>,
    kind: TextKind,
    text: &'s str,
) -> Result<&'s str, V::Stop>
    ensures goes { IfOk result (λ rest. GoesOver V.goes_on (kind_of kind) (chars text.now) (chars rest.now) along.old along.new) }
    ensures within { IfOk result (λ rest. length rest.now ≤ length text.now) }
    ensures utf8 { IfOk result (λ rest. IsUtf8 rest.now) }
{
    let Alike { to, count } = along.graph.add_alike(kind, text)?;
    if count == 0 {
        return Ok(text);
    }
    let front = &text.as_bytes()[..count];
    along
        .by
        .take_alike(along.graph.table(), along.graph.step(to.number), front)?;
    Ok(&text[count..])
}

/// Adds the steps of the first characters of a text, at least one, and gives the rest of the text.
#[inline(always)]
fn add_some<'s, V: Visitor>(
    along: &mut Along<'_, V>,
    kind: TextKind,
    text: &'s str,
) -> Result<&'s str, V::Stop>
    ensures goes { IfOk result (λ rest. GoesOver V.goes_on (kind_of kind) (chars text.now) (chars rest.now) along.old along.new) }
    ensures shorter { IfOk result (λ rest. 0 < length text.now → length rest.now < length text.now) }
    ensures utf8 { IfOk result (λ rest. IsUtf8 rest.now) }
{
    let rest = add_alike(along, kind, text)?;
    if rest.len() < text.len() {
        return Ok(rest);
    }
    add_first(along, kind, rest)
}

/// Adds the steps of the characters of a text.
#[inline(always)]
fn add_characters<V: Visitor>(
    along: &mut Along<'_, V>,
    kind: TextKind,
    text: &str,
) -> Result<(), V::Stop>
    ensures { OnOk result (GoesOver V.goes_on (kind_of kind) (chars text.now) [] along.old along.new) }
{
    let mut rest = text;
    while !rest.is_empty() {
        rest = add_some(along, kind, rest)?;
    }
    Ok(())
}

/// Adds the step of an attribute's name and of what opens its value.
#[inline(always)]
fn add_opening<V: Visitor>(along: &mut Along<'_, V>, name: &str, value: &str) -> Result<(), V::Stop>
    requires { length name.now < 2 ^ 32 }
    ensures { OnOk result (Goes V.goes_on (units.attribute_name name.now (chars value.now) ∷ []) [] along.old along.new) }
{
    let unit = Unit::AttributeName {
        len: name.len() as u32,
        needs: along.graph.needs_of(value),
    };
    add(along, &unit, UnitText::Bytes { text: name })
}

/// Adds the steps of a part.
#[inline(always)]
fn add_part<V: Visitor>(along: &mut Along<'_, V>, part: &Part<'_>) -> Result<(), V::Stop>
    requires { IsPart part.now }
    ensures { OnOk result (Goes V.goes_on (part_units part.now) [] along.old along.new) }
{
    match part {
        Part::One { unit, own } => add_one(along, unit, own),
        Part::Opening { name, value } => add_opening(along, *name, *value),
        Part::Comment { text } => add(
            along,
            &Unit::Fixed {
                len: text.len() as u32 + 7,
            },
            UnitText::Comment { text },
        ),
        Part::Chars { kind, text } => add_characters(along, *kind, *text),
    }
}

/// Adds the steps of an attribute.
#[inline(always)]
fn add_attribute<V: Visitor>(
    along: &mut Along<'_, V>,
    name: &str,
    value: &str,
) -> Result<(), V::Stop>
    requires { length name.now < 2 ^ 32 }
    ensures { OnOk result (Goes V.goes_on (attribute_units (record { name = name.now; value = value.now } ∷ [])) [] along.old along.new) }
{
    if value.is_empty() {
        let unit = Unit::BareAttribute {
            len: name.len() as u32,
        };
        return add_one(along, &unit, name);
    }
    add_opening(along, name, value)?;
    add_characters(along, TextKind::Value, value)?;
    add_one(along, &Unit::AttributeEnd, "")
}

/// Adds the steps of attributes in their order.
#[inline(always)]
fn add_attributes<V: Visitor>(along: &mut Along<'_, V>, attrs: AttrsView<'_>) -> Result<(), V::Stop>
    requires { attributes_size (attributes_shown attrs) < 2 ^ 32 }
    ensures { OnOk result (Goes V.goes_on (attribute_units (attributes_shown attrs.entry)) [] along.old along.new) }
{
    for i in 0..attrs.len() {
        let (name, value) = attrs.at(i);
        add_attribute(along, name, value)?;
    }
    Ok(())
}

/// Adds the steps of a start tag with attributes.
#[inline(always)]
fn add_tag<V: Visitor>(
    along: &mut Along<'_, V>,
    name: &str,
    attrs: AttrsView<'_>,
    closes: bool,
) -> Result<(), V::Stop>
    requires { length name.now + attributes_size (attributes_shown attrs) < 2 ^ 32 }
    ensures { OnOk result (Goes V.goes_on (units.tag_name name.now ∷ (attribute_units (attributes_shown attrs.entry) ++ units.tag_close closes ∷ [])) [] along.old along.new) }
{
    let unit = Unit::TagName {
        len: name.len() as u32,
    };
    add_one(along, &unit, name)?;
    add_attributes(along, attrs)?;
    add_one(along, &Unit::TagClose { closes }, "")
}

/// Adds the steps of a line feed and of the characters after it.
fn add_line<V: Visitor>(along: &mut Along<'_, V>, kind: TextKind, text: &str) -> Result<(), V::Stop>
    ensures { OnOk result (Goes V.goes_on (units.fixed (codes "\n") ∷ character_units (kind_of kind) (chars text.now)) [] along.old along.new) }
{
    add_one(along, &Unit::Fixed { len: 1 }, "\n")?;
    add_characters(along, kind, text)
}

/// Adds the steps of what an event has.
#[inline(always)]
pub(crate) fn add_found<V: Visitor>(
    along: &mut Along<'_, V>,
    found: Found<'_>,
) -> Result<(), V::Stop>
    requires { IsFound found }
    ensures { OnOk result (Goes V.goes_on (found_units found.entry) [] along.old along.new) }
{
    match found {
        Found::Nothing => Ok(()),
        Found::Single { part } => add_part(along, &part),
        Found::Lined { kind, text } => add_line(along, kind, text),
        Found::Tag {
            name,
            attrs,
            closes,
        } => add_tag(along, name, attrs, closes),
    }
}
