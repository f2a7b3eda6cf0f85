//! The rewrites of attributes: some are dropped, some lose their values.
ghost use Rattle.std.specs.Prelude.{◌≡◌, [], ◌∷◌, length, flat_map, false, true};
ghost use Rattle.hm_base.specs.Bytes.{all_pass};
ghost use Rattle.hm_base.specs.Bytes as bytes;
ghost use Rattle.hm_base.specs.Walks.{begins_start};
ghost use Rattle.hm_options.specs.Passes as passes;
ghost use Rattle.hm_options.specs.Passes.{attribute_pass};
ghost use Rattle.hm_options.specs.Passing.{begins_html_start, first_attributes, IsChanged, IsFate, IsFated, StartStays, with_passed};
ghost use Rattle.hm_options.specs.Rewrites as rewrites;
ghost use Rattle.hm_tree.specs.Edits.{HasAttribute};
ghost use Rattle.hm_tree.specs.Views.{attributes_shown};

use hm_base::{TreeOptions, is_space};
use hm_elements::{is_boolean, is_redundant, says_nothing_blank};
use hm_tree::{AttrsView, Editor, EventView};

/// Whether each attribute of an HTML element of this name stays unchanged. True is always right; false only means that
/// one may change.
pub(crate) fn stay(options: &TreeOptions, element: &str, attrs: &AttrsView<'_>) -> bool
    ensures { result ≡ true → flat_map (attribute_pass options.now element.now) (attributes_shown attrs.now) ≡ attributes_shown attrs.now }
{
    for i in 0..attrs.len() {
        let (name, value) = attrs.at(i);
        if changes(options, element, name, value) {
            return false;
        }
    }
    true
}

/// Whether this attribute of an HTML element may change.
fn changes(options: &TreeOptions, element: &str, name: &str, value: &str) -> bool
    ensures { result ≡ false → attribute_pass options.now element.now (record { name = name.now; value = value.now }) ≡ record { name = name.now; value = value.now } ∷ [] }
{
    (options.booleans && is_boolean(name)) || is_dropped(options, element, name, value)
}

/// What happens to an attribute.
#[derive(Clone, Copy)]
enum Fate {
    Stays,
    /// It loses its value.
    Emptied,
    LeftOut,
}

/// What happens to attribute `at` of the next event, the start of an HTML element.
fn fate_of(editor: &Editor, options: &TreeOptions, at: u32) -> Fate
    requires { HasAttribute editor.now.left at }
    ensures { IsFate options.now editor.now.left at result }
{
    let EventView::Start { name, attrs, .. } = editor.next() else {
        return Fate::Stays;
    };
    let (attribute, value) = attrs.at(at);
    let left = left_value(options, attribute, value);
    if is_dropped(options, name, attribute, left) {
        Fate::LeftOut
    } else if left.len() < value.len() {
        Fate::Emptied
    } else {
        Fate::Stays
    }
}

/// Changes attribute `at` of the next event, the start of an HTML element.
fn change_attribute(editor: &mut Editor, options: &TreeOptions, at: u32)
    requires { HasAttribute editor.old.left at }
    ensures done { editor.new.done ≡ editor.old.done }
    ensures left { IsFated options.now at editor.old.left editor.new.left }
{
    match fate_of(editor, options, at) {
        Fate::Stays => {}
        Fate::Emptied => editor.leave_out_value(at),
        Fate::LeftOut => editor.leave_out_attribute(at),
    }
}

/// Whether the next event is the start of an HTML element with an attribute that may change.
fn may_change(editor: &Editor, options: &TreeOptions) -> bool
    requires { begins_start editor.now.left ≡ true }
    ensures html { result ≡ true → begins_html_start editor.now.left ≡ true }
    ensures stays { result ≡ false → StartStays options.now editor.now.left }
{
    match editor.next() {
        EventView::Start {
            name,
            foreign,
            attrs,
        } => !foreign && !stay(options, name, &attrs),
        _ => false,
    }
}

/// How many attributes the next event has.
fn attribute_count(editor: &Editor) -> u32
    requires { begins_start editor.now.left ≡ true }
    ensures { result ≡ length (first_attributes editor.now.left) }
{
    match editor.next() {
        EventView::Start { attrs, .. } => attrs.len(),
        _ => 0,
    }
}

/// Changes the attributes of the next event, the start of an HTML element, from the last to the first.
fn change_attributes(editor: &mut Editor, options: &TreeOptions)
    requires { begins_start editor.old.left ≡ true }
    ensures done { editor.new.done ≡ editor.old.done }
    ensures left { editor.new.left ≡ with_passed options.now 0 editor.old.left }
{
    for at in (0..attribute_count(editor)).rev() {
        change_attribute(editor, options, at);
    }
}

/// Changes the next event, a start.
pub(crate) fn change_start(editor: &mut Editor, options: &TreeOptions)
    requires { begins_start editor.old.left ≡ true }
    ensures done { editor.new.done ≡ editor.old.done }
    ensures left { IsChanged options.now editor.old.left editor.new.left }
{
    if may_change(editor, options) {
        change_attributes(editor, options);
    }
}

/// Whether the options drop this attribute.
fn is_dropped(options: &TreeOptions, element: &str, name: &str, value: &str) -> bool
    ensures { result ≡ passes.is_dropped options.now element.now (record { name = name.now; value = value.now }) }
{
    (options.empty && is_empty(name, value))
        || (options.redundant && is_redundant(element, name, value))
}

/// The value that the options leave to this attribute.
fn left_value<'t>(options: &TreeOptions, name: &str, value: &'t str) -> &'t str
    ensures { record { name = name.now; value = result.now } ≡ passes.valued options.now (record { name = name.now; value = value.now }) }
{
    if options.booleans && is_boolean(name) {
        ""
    } else {
        value
    }
}

/// Whether this is a `class`, an `id` or a `style` with only whitespace in it.
#[tactic(auto, unfolding(crate::specs::Rewrites::is_empty))]
fn is_empty(name: &str, value: &str) -> bool
    ensures { result ≡ rewrites.is_empty (record { name = name.now; value = value.now }) }
{
    says_nothing_blank(name) && is_blank(value)
}

/// Whether a text is only whitespace.
fn is_blank(text: &str) -> bool
    ensures { result ≡ all_pass bytes.is_space text.now }
{
    for byte in text.as_bytes() {
        if !is_space(*byte as char) {
            return false;
        }
    }
    true
}
