//! What an event has, before its parts are made.
ghost use Rattle.std.specs.Prelude.{◌≡◌, ◌<◌, ◌+◌, ◌^◌, [], ◌∷◌, length, take, drop, not, ◌&&◌};
ghost use Rattle.hm_base.specs.Walks.{attributes_size, path_after};
ghost use Rattle.hm_elements.specs.Paths.{outer};
ghost use Rattle.hm_elements.specs.Tables as tables;
ghost use Rattle.hm_tree.specs.Views.{attributes_shown};
ghost use Rattle.hm_graph_laws.specs.Units as units;
ghost use Rattle.hm_event_parts.specs.Events.{previous_at, units_at};
ghost use Rattle.hm_event_parts.specs.Found.{IsFound, found_units};
ghost use Rattle.hm_event_parts.specs.Parts.{IsPart, part_units};

use crate::left_out::{is_required_after_omission, may_close_itself, may_omit_end, may_omit_start};
use crate::likely::may_be_void;
use crate::neighbours::element_around;
use crate::omission::is_omission_noted;
use crate::parts::Part;
use crate::texts::{is_line_feed_due, text_kind};
use hm_base::SpellRules;
use hm_edges::{TextKind, Unit};
use hm_elements::is_void;
use hm_tree::{AttrsView, EventView, Tree};

/// What an event has.
#[derive(Clone, Copy)]
pub enum Found<'t> {
    /// No part: the end of a void element.
    Nothing,
    /// One part.
    Single {
        part: Part<'t>,
    },
    /// A line feed, and the characters of a text after it.
    Lined {
        kind: TextKind,
        text: &'t str,
    },
    /// A start tag with attributes. `closes` says whether it may close itself.
    Tag {
        name: &'t str,
        attrs: AttrsView<'t>,
        closes: bool,
    },
}

/// The length of the text in bytes.
#[inline(always)]
pub(crate) fn len_of(text: &str) -> u32
    requires { length text.now < 2 ^ 32 }
    ensures { result ≡ length text.now }
{
    text.len() as u32
}

/// The bytes of a doctype.
fn doctype_text(legacy: bool) -> &'static str
    ensures value { result.now ≡ units.doctype_bytes legacy }
    ensures short { length result.now < 2 ^ 32 }
{
    if legacy {
        "<!doctype html SYSTEM \"about:legacy-compat\">"
    } else {
        "<!doctype html>"
    }
}

/// The part of bytes without a choice.
#[inline(always)]
pub(crate) fn fixed_part(bytes: &str) -> Part<'_>
    requires { length bytes.now < 2 ^ 32 }
    ensures units { part_units result ≡ units.fixed bytes.now ∷ [] }
    ensures part { IsPart result }
{
    Part::One {
        unit: Unit::Fixed { len: len_of(bytes) },
        own: bytes,
    }
}

/// What text event `i` has: of a raw text its bytes, of any other one its characters, after one more line feed if
/// one is needed.
#[inline(always)]
fn text_found<'t>(tree: &Tree, i: u32, text: &'t str, raw: bool) -> Found<'t>
    requires inside { i < length tree.now }
    requires short { length text.now < 2 ^ 32 }
    ensures units { found_units result ≡ units.text_units (previous_at tree.now i) (path_after [] (take i tree.now)) text.now raw }
    ensures found { IsFound result }
{
    if raw {
        return Found::Single {
            part: fixed_part(text),
        };
    }
    let around = element_around(tree, i);
    let kind = text_kind(around);
    if is_line_feed_due(tree, i, around, text) {
        Found::Lined { kind, text }
    } else {
        Found::Single {
            part: Part::Chars { kind, text },
        }
    }
}

/// What start event `i` has.
#[inline(always)]
fn start_found<'t>(
    tree: &Tree,
    rules: SpellRules,
    i: u32,
    name: &'t str,
    foreign: bool,
    attrs: AttrsView<'t>,
) -> Found<'t>
    requires inside { i < length tree.now }
    requires short { length name.now + attributes_size (attributes_shown attrs) < 2 ^ 32 }
    ensures units { found_units result ≡ units.start_units rules (previous_at tree.now i) name.now foreign (attributes_shown attrs.entry) (drop (i + 1) tree.now) }
    ensures found { IsFound result }
{
    let closes = may_close_itself(tree, i, foreign);
    if attrs.len() > 0 {
        return Found::Tag {
            name,
            attrs,
            closes,
        };
    }
    let unit = Unit::StartTag {
        len: len_of(name),
        omits: may_omit_start(tree, rules, i, name, foreign),
        required_after_omission: is_required_after_omission(tree, i, name),
        closes,
    };
    Found::Single {
        part: Part::One { unit, own: name },
    }
}

/// Whether the HTML element is a void one, which has no end tag.
fn is_void_element(name: &str) -> bool
    ensures { result ≡ tables.is_void name.now }
{
    may_be_void(name) && is_void(name)
}

/// Whether the element is an HTML element without end tag.
fn has_no_end_tag(name: &str, foreign: bool) -> bool
    ensures { result ≡ not foreign && tables.is_void name.now }
{
    !foreign && is_void_element(name)
}

/// What end event `i` has. A void element has no end tag.
#[inline(always)]
fn end_found<'t>(tree: &Tree, rules: SpellRules, i: u32, name: &'t str, foreign: bool) -> Found<'t>
    requires inside { i < length tree.now }
    requires short { length name.now < 2 ^ 32 }
    ensures units { found_units result ≡ units.end_units rules name.now foreign (outer (path_after [] (take i tree.now))) (drop (i + 1) tree.now) }
    ensures found { IsFound result }
{
    if has_no_end_tag(name, foreign) {
        return Found::Nothing;
    }
    let unit = Unit::EndTag {
        len: len_of(name),
        omits: may_omit_end(tree, rules, i, name, foreign),
        notes_omission: is_omission_noted(name),
    };
    Found::Single {
        part: Part::One { unit, own: name },
    }
}

/// What event `i` of a tree has.
#[inline(always)]
pub fn find_event(tree: &Tree, rules: SpellRules, i: u32) -> Found<'_>
    requires { i < length tree.now }
    ensures units { found_units result ≡ units_at rules tree.now i }
    ensures found { IsFound result }
{
    let _len = tree.len();
    match tree.event(i) {
        EventView::Doctype { legacy } => Found::Single {
            part: fixed_part(doctype_text(legacy)),
        },
        EventView::Comment { text } => Found::Single {
            part: Part::Comment { text },
        },
        EventView::Text { text, raw } => text_found(tree, i, text, raw),
        EventView::Start {
            name,
            foreign,
            attrs,
        } => start_found(tree, rules, i, name, foreign, attrs),
        EventView::End { name, foreign } => end_found(tree, rules, i, name, foreign),
    }
}
