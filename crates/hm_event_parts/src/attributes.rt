//! The parts of a tag with attributes.
ghost use Rattle.std.specs.Prelude.{◌<◌, ◌+◌, ◌^◌, [], ◌∷◌, ◌++◌, length};
ghost use Rattle.hm_base.specs.Walks.{attributes_size};
ghost use Rattle.hm_tree.specs.Views.{attributes_shown};
ghost use Rattle.hm_graph_laws.specs.Units as units;
ghost use Rattle.hm_graph_laws.specs.Units.{attribute_units};
ghost use Rattle.hm_event_parts.specs.Adding.{AddsParts};

use crate::adding::add;
use crate::found::len_of;
use crate::parts::Part;
use hm_base::OutOfMemory;
use hm_edges::{TextKind, Unit};
use hm_tree::AttrsView;

/// Adds the parts of an attribute.
fn add_attribute<'t>(
    into: &mut Vec<Part<'t>>,
    name: &'t str,
    value: &'t str,
) -> Result<(), OutOfMemory>
    requires { length name.now < 2 ^ 32 }
    ensures { AddsParts result into.old.items into.new.items (attribute_units (record { name = name.now; value = value.now } ∷ [])) }
{
    if value.is_empty() {
        return add(
            into,
            Part::One {
                unit: Unit::BareAttribute { len: len_of(name) },
                own: name,
            },
        );
    }
    add(into, Part::Opening { name, value })?;
    add(
        into,
        Part::Chars {
            kind: TextKind::Value,
            text: value,
        },
    )?;
    add(
        into,
        Part::One {
            unit: Unit::AttributeEnd,
            own: "",
        },
    )
}

/// Adds the parts of all attributes, in their order.
fn add_attributes<'t>(into: &mut Vec<Part<'t>>, attrs: AttrsView<'t>) -> Result<(), OutOfMemory>
    requires { attributes_size (attributes_shown attrs) < 2 ^ 32 }
    ensures { AddsParts result into.old.items into.new.items (attribute_units (attributes_shown attrs.entry)) }
{
    for i in 0..attrs.len() {
        let (name, value) = attrs.at(i);
        add_attribute(into, name, value)?;
    }
    Ok(())
}

/// Adds the parts of a start tag with attributes.
pub(crate) fn add_tag<'t>(
    into: &mut Vec<Part<'t>>,
    name: &'t str,
    attrs: AttrsView<'t>,
    closes: bool,
) -> Result<(), OutOfMemory>
    requires { length name.now + attributes_size (attributes_shown attrs) < 2 ^ 32 }
    ensures { AddsParts result into.old.items into.new.items (units.tag_name name.now ∷ (attribute_units (attributes_shown attrs.entry) ++ units.tag_close closes ∷ [])) }
{
    let len = len_of(name);
    add(
        into,
        Part::One {
            unit: Unit::TagName { len },
            own: name,
        },
    )?;
    add_attributes(into, attrs)?;
    add(
        into,
        Part::One {
            unit: Unit::TagClose { closes },
            own: "",
        },
    )
}
