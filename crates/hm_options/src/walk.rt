//! The whitespace of a tree.
ghost use Rattle.std.specs.Prelude.{◌≡◌, ◌<◌, ◌≤◌, ◌+◌, ◌^◌, [], ◌∷◌, ◌++◌, length, take, slice_get, slice_range, true, false, Some, IfOk, OnOk, List};
ghost use Rattle.hm_base.specs.Bytes.{is_null};
ghost use Rattle.hm_base.specs.Walks.{Element, path_after, path_after_event, ends_match};
ghost use Rattle.hm_elements.specs.Nesting.{is_name};
ghost use Rattle.hm_elements.specs.Names.{head};
ghost use Rattle.hm_elements.specs.Paths.{current_name};
ghost use Rattle.hm_elements.specs.Settled.{Settled};
ghost use Rattle.hm_options.specs.Fronts.{spaced_text};
ghost use Rattle.hm_options.specs.Marks.{kept_count};
ghost use Rattle.hm_options.specs.Space as space;
ghost use Rattle.hm_options.specs.Space.{collapsed, text_of, without_leading, without_trailing};
ghost use Rattle.hm_options.specs.Steps.{IsSeen, IsStep, first_text, plain_text_first};
ghost use Rattle.hm_tree.specs.Edits.{last_event, without_first};
ghost use Rattle.hm_tree.specs.Trees.{IsWalk};
ghost use Rattle.hm_tree.specs.Views.{event_of};

use crate::names::keeps_space;
use crate::spaces::{
    begins_with_space, ends_with_space, push_spaced, spaced_front, without_leading,
    without_trailing,
};
use hm_base::OutOfMemory;
use hm_elements::{is_block, is_space_parent, same_name};
use hm_tree::{Editor, EventView, Tree};
use std::alloc::Global;

/// The tree with its whitespace collapsed. In each text, except raw ones and those in `pre`, `textarea` and `svg`, each
/// longest run of whitespace becomes one space. Unless `conservative` is set, more is done: a text that is one space is
/// left out directly in elements that don't render it, such as `ul` and `table`, and any other text loses a space at
/// the edge of a block.
pub fn collapse(alloc: Global, tree: Tree, conservative: bool) -> Result<Tree, OutOfMemory>
    ensures ok { IfOk result (λ made. made ≡ collapsed conservative tree) }
    ensures settled { Settled tree → IfOk result (λ made. Settled made) }
{
    let mut editor = tree.edit();
    let mut scratch = String::new(alloc);
    let mut kept = 0;
    for _ in 0..editor.left() {
        // Asked only for its contract: done and left events together are a walk.
        editor.left();
        let after = kept_after(kept, &editor.next());
        edit_next(&mut editor, &mut scratch, kept, conservative)?;
        kept = after;
    }
    Ok(editor.finish())
}

/// How many of the elements that are open after an event keep their whitespace. `kept` is how many did before it.
fn kept_after(kept: u32, event: &EventView<'_>) -> u32
    requires { kept + 1 < 2 ^ 32 }
    ensures { (path : List Element) → ends_match path (event_of event.now ∷ []) ≡ true → kept ≡ kept_count path → result ≡ kept_count (path_after_event path (event_of event.now)) }
{
    match event {
        EventView::Start { name, foreign, .. } if keeps_space(name, *foreign) => kept + 1,
        EventView::End { name, foreign } if keeps_space(name, *foreign) => kept.saturating_sub(1),
        _ => kept,
    }
}

/// Whether an event is the start or the end of a block.
fn is_edge(event: &EventView<'_>) -> bool
    ensures { result ≡ space.is_edge (Some (event_of event.now)) }
{
    match event {
        EventView::Start { name, foreign, .. } => !*foreign && is_block(name),
        EventView::End { name, foreign } => !*foreign && is_block(name),
        _ => false,
    }
}

/// Whether the last event that is done is the start or the end of a block.
fn is_edge_before(editor: &Editor) -> bool
    ensures { result ≡ space.is_edge (last_event editor.now.done) }
{
    let done = editor.done();
    done > 0 && is_edge(&editor.event(done - 1))
}

/// Whether the event after the next one is the start or the end of a block.
fn is_edge_after(editor: &Editor) -> bool
    requires { 0 < length editor.now.left }
    ensures { result ≡ space.is_edge (slice_get editor.now.left 1) }
{
    match editor.ahead(1) {
        Some(event) => is_edge(&event),
        None => false,
    }
}

/// Whether a text of only whitespace isn't rendered as the next event.
fn hides_space(editor: &Editor) -> bool
    ensures { result ≡ space.hides_space (path_after [] editor.now.done) }
{
    let Some(parent) = editor.parent(editor.done()) else {
        return false;
    };
    match editor.event(parent) {
        EventView::Start { name, foreign, .. } => {
            !foreign
                && (is_space_parent(name)
                    || (same_name(name, "noscript") && is_in_head(editor, parent)))
        }
        _ => false,
    }
}

/// Whether event `i` of those that are done is directly in `head`.
fn is_in_head(editor: &Editor, i: u32) -> bool
    requires { i < length editor.now.done }
    ensures { result ≡ is_name head (current_name (path_after [] (take i editor.now.done))) }
{
    let Some(parent) = editor.parent(i) else {
        return false;
    };
    match editor.event(parent) {
        EventView::Start { name, .. } => same_name(name, "head"),
        _ => false,
    }
}

/// Changes the next event or leaves it out. `kept` is how many open elements keep their whitespace.
fn edit_next(
    editor: &mut Editor,
    scratch: &mut String,
    kept: u32,
    conservative: bool,
) -> Result<(), OutOfMemory>
    requires some { 0 < length editor.old.left }
    requires walk { IsWalk (editor.old.done ++ editor.old.left) }
    requires kept { kept ≡ kept_count (path_after [] editor.old.done) }
    ensures { OnOk result (IsStep conservative editor.old editor.new) }
{
    if let EventView::Text { text, raw } = editor.next() {
        if !raw && kept == 0 {
            if spaced_front(text.as_bytes()).to == text.len() {
                let seen = seen_of(editor, text, conservative);
                keep_seen(editor, seen);
                return Ok(());
            }
            scratch.clear();
            push_spaced(scratch, text)?;
            put_seen(editor, scratch.as_str(), conservative)?;
            return Ok(());
        }
    }
    editor.keep();
    Ok(())
}

/// Cuts the next event, a text, to what is rendered of it.
fn keep_seen(editor: &mut Editor, seen: Seen)
    requires text { plain_text_first editor.old.left ≡ true }
    requires seen { IsSeen (first_text editor.old.left) seen }
    ensures done { editor.new.done ≡ editor.old.done ++ text_of (slice_range (first_text editor.old.left) seen.from seen.to) }
    ensures left { editor.new.left ≡ without_first editor.old.left }
{
    if seen.from == seen.to {
        editor.leave_out();
    } else {
        editor.cut_text(seen.from, seen.to);
        editor.keep();
    }
}

/// Replaces the next event, a text, by what is rendered of `text`, in which each run of whitespace is one space.
fn put_seen(editor: &mut Editor, text: &str, conservative: bool) -> Result<(), OutOfMemory>
    requires first { plain_text_first editor.old.left ≡ true }
    requires some { is_null text.now ≡ false }
    requires shorter { length text.now ≤ length (first_text editor.old.left) }
    ensures done { OnOk result (editor.new.done ≡ editor.old.done ++ spaced_text conservative (path_after [] editor.old.done) (last_event editor.old.done) (slice_get editor.old.left 1) text.now) }
    ensures left { OnOk result (editor.new.left ≡ without_first editor.old.left) }
{
    let seen = seen_of(editor, text, conservative);
    if seen.from == seen.to {
        editor.leave_out();
    } else {
        editor.put_text(&text[seen.from..seen.to])?;
        editor.keep();
    }
    Ok(())
}

/// The bytes of a text that are rendered: from byte `from` up to `to`.
#[derive(Clone, Copy)]
struct Seen {
    from: usize,
    to: usize,
}

/// What is rendered of a text as the next event. Each run of whitespace in it is one space.
fn seen_of(editor: &Editor, text: &str, conservative: bool) -> Seen
    requires next { 0 < length editor.now.left }
    requires some { is_null text.now ≡ false }
    ensures seen { IsSeen text.now result }
    ensures same { spaced_text conservative (path_after [] editor.now.done) (last_event editor.now.done) (slice_get editor.now.left 1) text.now ≡ text_of (slice_range text.now result.from result.to) }
{
    if conservative {
        return Seen {
            from: 0,
            to: text.len(),
        };
    }
    if text == " " && hides_space(editor) {
        return Seen { from: 0, to: 0 };
    }
    let front = front_trimmed(text, editor);
    let from = text.len() - front.len();
    let both = end_trimmed(front, editor);
    Seen {
        from,
        to: from + both.len(),
    }
}

/// The text as the next event, without a space directly after the edge of a block.
fn front_trimmed<'t>(text: &'t str, editor: &Editor) -> &'t str
    ensures { result.now ≡ without_leading (space.is_edge (last_event editor.now.done)) text.now }
{
    if begins_with_space(text) {
        without_leading(text, is_edge_before(editor))
    } else {
        text
    }
}

/// The text as the next event, without a space directly before the edge of a block.
fn end_trimmed<'t>(text: &'t str, editor: &Editor) -> &'t str
    requires { 0 < length editor.now.left }
    ensures { result.now ≡ without_trailing (space.is_edge (slice_get editor.now.left 1)) text.now }
{
    if ends_with_space(text) {
        without_trailing(text, is_edge_after(editor))
    } else {
        text
    }
}
