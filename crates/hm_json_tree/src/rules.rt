//! The rules of settled trees. Each is a test of one event, given what came before it.
ghost use Rattle.std.specs.Prelude.{◌≡◌, ◌&&◌, ◌||◌, List, [], ◌∷◌, not, Some, is_some, bytes_eq};
ghost use Rattle.hm_base.specs.Walks as walks;
ghost use Rattle.hm_base.specs.Walks.{Attribute, Element, Event, start};
ghost use Rattle.hm_elements.specs.Paths.{is_in_raw};
ghost use Rattle.hm_elements.specs.Settled as settled;
ghost use Rattle.hm_json_tree.specs.Breaks as breaks;
ghost use Rattle.hm_json_tree.specs.Breaks.{Past, is_after_text, is_after_void, is_end, is_text, point_at};
ghost use Rattle.hm_json_tree.specs.Forms.{told};
ghost use Rattle.hm_json_tree.specs.Reading.{is_svg_here};
ghost use Rattle.hm_json_tree.specs.Seen.{IsSeen};

use crate::attributes::have_zero;
use crate::form::JsonEvent;
use crate::seen::Seen;
use crate::texts::{has_byte, is_blank, is_comment_text};
use hm_base::DEPTH_LIMIT;
use hm_elements::{Named, is_boundary, is_refused, is_root, same_name, svg_name};
use hm_open_elements::OpenElements;
use hm_scan::is_tag_name;

/// Whether an element of this name here is one of SVG.
pub(crate) fn is_foreign(path: &OpenElements, name: &str) -> bool
    ensures { result ≡ is_svg_here name.now path.now }
{
    same_name(name, "svg") || path.is_in_svg()
}

/// Whether an HTML element is in an element that allows it.
fn nests(path: &OpenElements, form: &JsonEvent<'_>) -> bool
    ensures { result ≡ settled.nests path.now (told path.now form.now) [] }
{
    match form {
        JsonEvent::Start { name, .. } => start_nests(path, name),
        _ => true,
    }
}

/// As `nests`, for a start of this name.
#[tactic(auto, unfolding(hm_elements::specs::Settled::nests))]
fn start_nests(path: &OpenElements, name: &str) -> bool
    ensures { (attributes : List Attribute) → result ≡ settled.nests path.now (start name.now (is_svg_here name.now path.now) attributes) [] }
{
    if is_foreign(path, name) || is_root(name) {
        return true;
    }
    let tag = Named::of(name);
    !path.is_in_svg()
        && is_tag_name(name.as_bytes())
        && !is_refused(name)
        && path.holds(tag)
        && !path.is_closed_by_start_of(tag)
        && !path.bars(tag)
}

/// Whether an element of SVG is in an element that allows it.
fn is_svg_in_place(path: &OpenElements, form: &JsonEvent<'_>) -> bool
    ensures { result ≡ settled.is_svg_in_place path.now (told path.now form.now) [] }
{
    match form {
        JsonEvent::Start { name, .. } => start_is_in_place(path, name),
        _ => true,
    }
}

/// As `is_svg_in_place`, for a start of this name.
#[tactic(auto, unfolding(hm_elements::specs::Settled::is_svg_in_place))]
fn start_is_in_place(path: &OpenElements, name: &str) -> bool
    ensures { (attributes : List Attribute) → result ≡ settled.is_svg_in_place path.now (start name.now (is_svg_here name.now path.now) attributes) [] }
{
    if path.is_in_svg() {
        svg_name(name) && !is_boundary(path.current(), true)
    } else {
        !same_name(name, "svg") || path.holds(Named::of("svg"))
    }
}

/// Whether the start of a void element is followed by its end.
fn keeps_void_empty(seen: &Seen, form: &JsonEvent<'_>) -> bool
    ensures { (path : List Element) → result ≡ (not seen.now.void || is_end (told path form.now)) }
{
    !seen.void || matches!(form, JsonEvent::End)
}

/// Whether texts follow the rules: without a zero byte, no two of them neighbours, and with nothing beside them in an
/// element that holds one text.
#[tactic(auto, unfolding(hm_elements::specs::Settled::is_text_in_place))]
fn is_text_in_place(seen: &Seen, path: &OpenElements, form: &JsonEvent<'_>) -> bool
    ensures { result ≡ (settled.is_text_in_place path.now (told path.now form.now) [] && not (seen.now.text && is_text (told path.now form.now))) }
{
    match form {
        JsonEvent::Doctype { .. } => !path.is_in_text(),
        JsonEvent::Start { attrs, .. } => !have_zero(attrs) && !path.is_in_text(),
        JsonEvent::Text { text } => is_text_here(path, text) && !seen.text,
        JsonEvent::Comment { text } => !has_byte(text.as_bytes(), 0) && !path.is_in_text(),
        JsonEvent::End => true,
    }
}

/// Whether a text is allowed in the innermost element.
#[tactic(auto, unfolding(hm_elements::specs::Settled::is_text_in_place))]
fn is_text_here(path: &OpenElements, text: &str) -> bool
    ensures { result ≡ settled.is_text_in_place path.now (walks.text text.now (is_in_raw path.now)) [] }
{
    let bytes = text.as_bytes();
    !bytes.is_empty() && !has_byte(bytes, 0) && (!path.is_in_blank() || is_blank(bytes))
}

/// Whether a comment can be written in a page.
#[tactic(auto, unfolding(hm_elements::specs::Settled::is_comment_in_form))]
fn is_comment_in_form(form: &JsonEvent<'_>) -> bool
    ensures { (path : List Element) → result ≡ settled.is_comment_in_form path (told path form.now) [] }
{
    match form {
        JsonEvent::Comment { text } => is_comment_text(text.as_bytes()),
        _ => true,
    }
}

/// Whether at most as many elements as allowed are open after an event.
#[tactic(auto, unfolding(hm_elements::specs::Settled::is_not_deep, hm_elements::specs::Paths::is_deep))]
fn is_not_deep(path: &OpenElements, form: &JsonEvent<'_>) -> bool
    ensures { result ≡ settled.is_not_deep path.now (told path.now form.now) [] }
{
    match form {
        JsonEvent::Start { .. } => path.len() < DEPTH_LIMIT as usize,
        _ => true,
    }
}

/// The rule `point` if it is broken, or else the answer of the other rules.
fn unless(holds: bool, point: u8, more: Option<u8>) -> Option<u8>
    ensures { result ≡ breaks.unless holds point more }
{
    if holds { more } else { Some(point) }
}

/// The least rule that an event breaks. The answers of the rules on raw texts and on attributes are given.
pub(crate) fn point_of(
    seen: &Seen,
    path: &OpenElements,
    form: &JsonEvent<'_>,
    raw_ends: bool,
    in_form: bool,
) -> Option<u8>
    requires raw { raw_ends ≡ settled.is_raw_text path.now (told path.now form.now) [] }
    requires attributes { in_form ≡ settled.has_attributes_in_form path.now (told path.now form.now) [] }
    ensures { (p : Past) → IsSeen seen.now p → p.path ≡ path.now → result ≡ point_at p (told path.now form.now) }
{
    let top = seen.top.after(path, form).is_some();
    let frame = seen.frame.after(path, form).is_some();
    let late = unless(
        is_text_in_place(seen, path, form),
        6,
        unless(
            raw_ends,
            7,
            unless(
                is_comment_in_form(form),
                8,
                unless(in_form, 9, unless(is_not_deep(path, form), 10, None)),
            ),
        ),
    );
    let mid = unless(
        is_svg_in_place(path, form),
        4,
        unless(keeps_void_empty(seen, form), 5, late),
    );
    unless(top, 1, unless(frame, 2, unless(nests(path, form), 3, mid)))
}
