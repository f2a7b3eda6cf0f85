//! Items of the array as events, without regard to the open elements.
ghost use Rattle.std.specs.Prelude.{◌≡◌, ◌∷◌, length, List, Some, None, IfOk, IfSome, MatchOption, is_some, option_map, option_and_then};
ghost use Rattle.serde_json.specs.Data.{array, item, no_items};
ghost use Rattle.serde_json.specs.View.{items_view, view};
ghost use Rattle.hm_base.specs.Walks.{Element, Event, path_after_event};
ghost use Rattle.hm_json_tree.specs.Forms.{event_told};
ghost use Rattle.hm_json_tree.specs.Pairs.{attribute_at};
ghost use Rattle.hm_json_tree.specs.Reading as reading;

use crate::pairs::Pairs;
use hm_base::OutOfMemory;
use serde_json::Value;

/// An event as an item gives it.
#[derive(Drop)]
pub(crate) enum JsonEvent<'v> {
    Doctype { legacy: bool },
    Start { name: &'v str, attrs: Pairs<'v> },
    Text { text: &'v str },
    Comment { text: &'v str },
    End,
}

/// The event of an item, if it is one.
pub(crate) fn form_of(item: &Value) -> Option<JsonEvent<'_>>
    ensures { (path : List Element) → reading.event_in path (view item.now) ≡ option_and_then (event_told path) result }
{
    match item.as_array()?.as_slice() {
        [kind, rest @ ..] => form_of_kind(kind.as_str()?, rest),
        [] => None,
    }
}

/// The event of a kind. `rest` has the other values of its item.
fn form_of_kind<'v>(kind: &str, rest: &'v [Value]) -> Option<JsonEvent<'v>>
    ensures { (path : List Element) → reading.event_of_kind kind.now path (items_view rest.now) ≡ option_and_then (event_told path) result }
{
    match kind {
        "doctype" => doctype_in(rest),
        "start" => start_in(rest),
        "text" => text_in(rest),
        "comment" => comment_in(rest),
        "end" => end_in(rest),
        _ => None,
    }
}

/// The doctype with this one word.
fn doctype_in(rest: &[Value]) -> Option<JsonEvent<'_>>
    ensures { (path : List Element) → reading.doctype_in (items_view rest.now) ≡ option_and_then (event_told path) result }
{
    match rest {
        [word] => match word.as_str()? {
            "plain" => Some(JsonEvent::Doctype { legacy: false }),
            "legacy" => Some(JsonEvent::Doctype { legacy: true }),
            _ => None,
        },
        [] => None,
        [_, _, ..] => None,
    }
}

/// The start with this name and these attributes.
fn start_in(rest: &[Value]) -> Option<JsonEvent<'_>>
    ensures { (path : List Element) → reading.start_in path (items_view rest.now) ≡ option_and_then (event_told path) result }
{
    match rest {
        [name, attrs] => {
            let name = name.as_str()?;
            let attrs = attrs.as_array()?.as_slice();
            if are_pairs(attrs) {
                Some(JsonEvent::Start {
                    name,
                    attrs: Pairs::of_items(attrs),
                })
            } else {
                None
            }
        }
        [] => None,
        [_] => None,
        [_, _, _, ..] => None,
    }
}

/// The text with this one value.
fn text_in(rest: &[Value]) -> Option<JsonEvent<'_>>
    ensures { (path : List Element) → reading.text_in path (items_view rest.now) ≡ option_and_then (event_told path) result }
{
    match rest {
        [text] => Some(JsonEvent::Text {
            text: text.as_str()?,
        }),
        [] => None,
        [_, _, ..] => None,
    }
}

/// The comment with this one value.
fn comment_in(rest: &[Value]) -> Option<JsonEvent<'_>>
    ensures { (path : List Element) → reading.comment_in (items_view rest.now) ≡ option_and_then (event_told path) result }
{
    match rest {
        [text] => Some(JsonEvent::Comment {
            text: text.as_str()?,
        }),
        [] => None,
        [_, _, ..] => None,
    }
}

/// The end, which has no values.
fn end_in(rest: &[Value]) -> Option<JsonEvent<'_>>
    ensures { (path : List Element) → reading.end_in path (items_view rest.now) ≡ option_and_then (event_told path) result }
{
    match rest {
        [] => Some(JsonEvent::End),
        [_, ..] => None,
    }
}

/// Whether each of these is a name and a value.
fn are_pairs(items: &[Value]) -> bool
    ensures { result ≡ is_some (reading.attributes_in (items_view items.now)) }
{
    for item in items {
        if as_pair(item).is_none() {
            return false;
        }
    }
    true
}

/// The name and the value of an item, if it is a pair of texts.
fn as_pair(item: &Value) -> Option<(&str, &str)>
    ensures { option_map (λ p. record { name = p.0.now; value = p.1.now }) result ≡ reading.attribute_in (view item.now) }
{
    match item.as_array()?.as_slice() {
        [name, value] => both(name, value),
        [] => None,
        [_] => None,
        [_, _, _, ..] => None,
    }
}

/// Two texts, if both items are texts.
#[inline(always)]
fn both<'v>(name: &'v Value, value: &'v Value) -> Option<(&'v str, &'v str)>
    ensures { option_map (λ p. record { name = p.0.now; value = p.1.now }) result ≡ reading.attribute_in (array (item (view name.now) (item (view value.now) no_items))) }
{
    Some((name.as_str()?, value.as_str()?))
}

/// The name and the value of an item that is a pair of texts. Both are empty if it isn't.
pub(crate) fn pair_of(item: &Value) -> (&str, &str)
    ensures { record { name = result.0.now; value = result.1.now } ≡ attribute_at item.now }
{
    match as_pair(item) {
        Some(pair) => pair,
        None => ("", ""),
    }
}

/// How many elements are open after an event. None for an end while no element is open.
pub(crate) fn depth_after(form: &JsonEvent<'_>, depth: u32) -> Result<Option<u32>, OutOfMemory>
    ensures { IfOk result (λ next. (path : List Element) → length path ≡ depth → MatchOption next (event_told path form.now ≡ None)
        (λ n. (e : Event) × (event_told path form.now ≡ Some e) × (length (path_after_event path e) ≡ n))) }
{
    match form {
        JsonEvent::Start { .. } => if depth == u32::MAX {
            Err(OutOfMemory)
        } else {
            Ok(Some(depth + 1))
        },
        JsonEvent::End => if depth == 0 {
            Ok(None)
        } else {
            Ok(Some(depth - 1))
        },
        JsonEvent::Doctype { .. } => Ok(Some(depth)),
        JsonEvent::Text { .. } => Ok(Some(depth)),
        JsonEvent::Comment { .. } => Ok(Some(depth)),
    }
}
