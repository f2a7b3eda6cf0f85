//! Appends attributes to the text and the attributes of a table.
ghost use Rattle.std.specs.Prelude.{◌≡◌, ◌+◌, ◌^◌, ◌<◌, ◌≤◌, ◌++◌, length, string_bytes, string_len, string_capacity, vec_len, vec_capacity};
ghost use Rattle.hm_base.specs.Walks.{attributes_size};
ghost use Rattle.hm_tree.specs.Pairs.{IsShifted};
ghost use Rattle.hm_tree.specs.Pieces.{IsAppended};
ghost use Rattle.hm_tree.specs.Sources.{listed};
ghost use Rattle.hm_tree.specs.Views.{attributes_shown};

use crate::pieces::{AttributePieces, Pair, TextRange};
use crate::sources::AttributeSource;
use crate::{Attrs, AttrsView};

/// The bytes of all names and values.
#[inline(always)]
pub(crate) fn text_len(attrs: &AttributeSource<'_>) -> usize
    requires { attributes_size (listed attrs.now) < 2 ^ 32 }
    ensures { result ≡ attributes_size (listed attrs.now) }
{
    match attrs {
        AttributeSource::Tag { attrs } => attrs.text().len(),
        AttributeSource::Element { attrs } => shown_len(attrs),
    }
}

/// The bytes of all names and values of an element of a tree.
fn shown_len(attrs: &AttrsView<'_>) -> usize
    requires { attributes_size (attributes_shown attrs.now) < 2 ^ 32 }
    ensures { result ≡ attributes_size (attributes_shown attrs.now) }
{
    let mut len = 0;
    for i in 0..attrs.len() {
        let (name, value) = attrs.at(i);
        len += name.len() + value.len();
    }
    len
}

/// Appends attributes, and returns the index of the first. There is room for them.
#[inline(always)]
pub(crate) fn append_attributes(
    text: &mut String,
    attributes: &mut Vec<AttributePieces>,
    attrs: &AttributeSource<'_>,
) -> u32
    requires room { string_len text.old + attributes_size (listed attrs.now) ≤ string_capacity text.old }
    requires places { length (string_bytes text.old) + attributes_size (listed attrs.now) < 2 ^ 32 }
    requires rows { vec_len attributes.old + length (listed attrs.now) ≤ vec_capacity attributes.old }
    requires indices { length attributes.old.items + length (listed attrs.now) < 2 ^ 32 }
    ensures appended { IsAppended (string_bytes text.old) attributes.old.items (listed attrs.now) (string_bytes text.new) attributes.new.items }
    ensures first { result ≡ length attributes.old.items }
{
    match attrs {
        AttributeSource::Tag { attrs } => append_tag(text, attributes, attrs),
        AttributeSource::Element { attrs } => append_shown(text, attributes, attrs),
    }
}

/// Appends the attributes of a tag. Most tags have none. There is room for them.
#[inline(always)]
fn append_tag(text: &mut String, attributes: &mut Vec<AttributePieces>, attrs: &Attrs) -> u32
    requires room { string_len text.old + attributes_size attrs.now ≤ string_capacity text.old }
    requires places { length (string_bytes text.old) + attributes_size attrs.now < 2 ^ 32 }
    requires rows { vec_len attributes.old + length attrs.now ≤ vec_capacity attributes.old }
    requires indices { length attributes.old.items + length attrs.now < 2 ^ 32 }
    ensures appended { IsAppended (string_bytes text.old) attributes.old.items attrs.now (string_bytes text.new) attributes.new.items }
    ensures first { result ≡ length attributes.old.items }
{
    if attrs.len() == 0 {
        return attributes.len() as u32;
    }
    append_pairs(text, attributes, attrs)
}

/// Appends the attributes of a tag, and copies their text in one piece. There is room for them.
#[inline(always)]
fn append_pairs(text: &mut String, attributes: &mut Vec<AttributePieces>, attrs: &Attrs) -> u32
    requires room { string_len text.old + attributes_size attrs.now ≤ string_capacity text.old }
    requires places { length (string_bytes text.old) + attributes_size attrs.now < 2 ^ 32 }
    requires rows { vec_len attributes.old + length attrs.now ≤ vec_capacity attributes.old }
    requires indices { length attributes.old.items + length attrs.now < 2 ^ 32 }
    ensures appended { IsAppended (string_bytes text.old) attributes.old.items attrs.now (string_bytes text.new) attributes.new.items }
    ensures first { result ≡ length attributes.old.items }
{
    let first = attributes.len() as u32;
    let start = append(text, attrs.text()).from;
    for pair in attrs.pairs() {
        attributes.push(shifted(pair, start)).unwrap();
    }
    first
}

/// The pieces of an attribute, moved by `start` bytes of the table's text.
fn shifted(pair: &Pair, start: u32) -> AttributePieces
    requires ordered { (pair.now.from ≤ pair.now.middle) × (pair.now.middle ≤ pair.now.to) }
    requires places { start + pair.now.to < 2 ^ 32 }
    ensures { IsShifted start pair.now result }
{
    AttributePieces {
        from: start + pair.from as u32,
        middle: start + pair.middle as u32,
        to: start + pair.to as u32,
    }
}

/// Appends the attributes of an element of a tree. There is room for them.
fn append_shown(
    text: &mut String,
    attributes: &mut Vec<AttributePieces>,
    attrs: &AttrsView<'_>,
) -> u32
    requires room { string_len text.old + attributes_size (attributes_shown attrs.now) ≤ string_capacity text.old }
    requires places { length (string_bytes text.old) + attributes_size (attributes_shown attrs.now) < 2 ^ 32 }
    requires rows { vec_len attributes.old + length (attributes_shown attrs.now) ≤ vec_capacity attributes.old }
    requires indices { length attributes.old.items + length (attributes_shown attrs.now) < 2 ^ 32 }
    ensures appended { IsAppended (string_bytes text.old) attributes.old.items (attributes_shown attrs.now) (string_bytes text.new) attributes.new.items }
    ensures first { result ≡ length attributes.old.items }
{
    let first = attributes.len() as u32;
    for i in 0..attrs.len() {
        let (name, value) = attrs.at(i);
        let from = append(text, name).from;
        let value = append(text, value);
        let pieces = AttributePieces {
            from,
            middle: value.from,
            to: value.to,
        };
        attributes.push(pieces).unwrap();
    }
    first
}

/// Appends a text, and returns its place. There is room for it.
#[inline(always)]
pub(crate) fn append(text: &mut String, more: &str) -> TextRange
    requires room { string_len text.old + length more.now ≤ string_capacity text.old }
    requires places { length (string_bytes text.old) + length more.now < 2 ^ 32 }
    ensures room { string_capacity text.old ≤ string_capacity text.new }
    ensures len { string_len text.new ≡ string_len text.old + length more.now }
    ensures bytes { string_bytes text.new ≡ string_bytes text.old ++ more.now }
    ensures from { result.from ≡ length (string_bytes text.old) }
    ensures to { result.to ≡ length (string_bytes text.old) + length more.now }
{
    let from = text.len() as u32;
    text.push_str(more).unwrap();
    let to = text.len() as u32;
    TextRange { from, to }
}
