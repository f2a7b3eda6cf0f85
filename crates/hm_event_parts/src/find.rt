//! The parts of an event.
ghost use Rattle.std.specs.Prelude.{◌≡◌, ◌<◌, length, OnOk};
ghost use Rattle.hm_event_parts.specs.Adding.{AddsParts};
ghost use Rattle.hm_event_parts.specs.Events.{units_at};
ghost use Rattle.hm_event_parts.specs.Found.{IsFound, found_units};
ghost use Rattle.hm_event_parts.specs.Parts.{AreParts, parts_units};

use crate::adding::add;
use crate::attributes::add_tag;
use crate::found::{Found, find_event, fixed_part};
use crate::parts::Part;
use hm_base::{OutOfMemory, SpellRules};
use hm_tree::Tree;

/// Adds the parts of what an event has.
fn add_found<'t>(into: &mut Vec<Part<'t>>, found: Found<'t>) -> Result<(), OutOfMemory>
    requires { IsFound found }
    ensures { AddsParts result into.old.items into.new.items (found_units found.entry) }
{
    match found {
        Found::Nothing => Ok(()),
        Found::Single { part } => add(into, part),
        Found::Lined { kind, text } => {
            add(into, fixed_part("\n"))?;
            add(into, Part::Chars { kind, text })
        }
        Found::Tag {
            name,
            attrs,
            closes,
        } => add_tag(into, name, attrs, closes),
    }
}

/// Finds the parts of event `i` of a tree, in their order. They replace what the buffer held.
pub fn find_parts<'t>(
    tree: &'t Tree,
    rules: SpellRules,
    i: u32,
    into: &mut Vec<Part<'t>>,
) -> Result<(), OutOfMemory>
    requires { i < length tree.now }
    ensures units { OnOk result (parts_units into.new.items ≡ units_at rules tree.now i) }
    ensures parts { OnOk result (AreParts into.new.items) }
{
    into.clear();
    add_found(into, find_event(tree, rules, i))
}
