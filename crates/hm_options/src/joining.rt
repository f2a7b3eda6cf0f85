//! Joins texts that become neighbours when the comments between them are left out.
ghost use Rattle.std.specs.Prelude.{◌≡◌, ◌<◌, ◌≤◌, [], ◌∷◌, ◌++◌, true, length, take, drop, string_bytes, OnOk};
ghost use Rattle.hm_base.specs.Walks.{begins_text};
ghost use Rattle.hm_options.specs.Passing.{begins_loose, loose_count, text_in, texts_of, with_touching};
ghost use Rattle.hm_tree.specs.Edits as edits;
ghost use Rattle.hm_tree.specs.Edits.{without_first};
ghost use Rattle.hm_tree.specs.Trees.{IsWalk};
ghost use Rattle.hm_tree.specs.Views.{event_of};

use hm_base::OutOfMemory;
use hm_tree::{Editor, EventView};

/// Whether an event is a text or a comment.
fn is_loose(event: &EventView<'_>) -> bool
    ensures { result ≡ edits.is_loose (event_of event.now) }
{
    matches!(event, EventView::Text { .. } | EventView::Comment { .. })
}

/// Whether the event that is `count` events after the next one is a text or a comment.
fn is_loose_at(editor: &Editor, count: u32) -> bool
    requires { 0 < length editor.now.left }
    ensures { result ≡ begins_loose (drop count editor.now.left) }
{
    match editor.ahead(count) {
        Some(event) => is_loose(&event),
        None => false,
    }
}

/// How many texts and comments follow directly after the next event.
fn loose_after(editor: &Editor) -> u32
    requires { 0 < length editor.now.left }
    ensures { result ≡ loose_count (without_first editor.now.left) }
{
    let left = editor.left();
    for count in 1..left {
        if !is_loose_at(editor, count) {
            return count - 1;
        }
    }
    left - 1
}

/// The bytes of a text. Another event has none.
fn text_of<'t>(event: &EventView<'t>) -> &'t str
    ensures { result.now ≡ text_in (event_of event.now) }
{
    match event {
        EventView::Text { text, .. } => text,
        _ => "",
    }
}

/// The bytes of the text that is `count` events after the next one. Another event has none.
fn text_at(editor: &Editor, count: u32) -> &str
    requires { 0 < length editor.now.left }
    ensures { result.now ≡ texts_of (take 1 (drop count editor.now.left)) }
{
    match editor.ahead(count) {
        Some(event) => text_of(&event),
        None => "",
    }
}

/// Appends the bytes of all texts among the next `count` events to `texts`.
fn gather(editor: &Editor, count: u32, texts: &mut String) -> Result<(), OutOfMemory>
    requires { 0 < length editor.now.left }
    ensures { OnOk result (string_bytes texts.new ≡ texts_of (take count editor.now.left)) }
{
    texts.clear();
    for i in 0..count {
        texts.push_str(text_at(editor, i))?;
    }
    Ok(())
}

/// Joins the next event, a text, with the texts that become its neighbours when the comments between them are left out.
pub(crate) fn join_next(editor: &mut Editor, scratch: &mut String) -> Result<(), OutOfMemory>
    requires text { begins_text editor.old.left ≡ true }
    requires walk { IsWalk (editor.old.done ++ editor.old.left) }
    ensures done { OnOk result (editor.new.done ≡ editor.old.done) }
    ensures left { OnOk result (editor.new.left ≡ with_touching editor.old.left) }
{
    let count = loose_after(editor);
    if count > 0 {
        gather(editor, count + 1, scratch)?;
        editor.join(count, scratch.as_str())?;
    }
    Ok(())
}
