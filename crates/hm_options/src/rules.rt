//! The rewrites that change or leave out single events, in one pass and in place.
ghost use Rattle.std.specs.Prelude.{◌≡◌, ◌<◌, [], ◌∷◌, ◌++◌, ◌&&◌, false, true, length, IfOk, OnOk};
ghost use Rattle.hm_base.specs.Walks.{begins_comment, begins_text};
ghost use Rattle.hm_options.specs.Passes.{passed};
ghost use Rattle.hm_options.specs.Passing.{IsCalm, IsChanged, IsPassing};
ghost use Rattle.hm_tree.specs.Edits.{begins_doctype};
ghost use Rattle.hm_tree.specs.Trees.{IsWalk};
ghost use Rattle.hm_tree.specs.Views.{event_of};

use crate::attributes::change_start;
use crate::joining::join_next;
use hm_base::{OutOfMemory, TreeOptions};
use hm_tree::{Editor, EventView, Tree};
use std::alloc::Global;

/// The tree with each event rewritten. Texts that become neighbours are joined.
pub(crate) fn rewritten(
    alloc: Global,
    tree: Tree,
    options: &TreeOptions,
) -> Result<Tree, OutOfMemory>
    ensures { IfOk result (λ made. made ≡ passed options.now tree) }
{
    let mut editor = tree.edit();
    let mut scratch = String::new(alloc);
    for _ in 0..editor.left() {
        // Asked only for its contract: done and left events together are a walk.
        if editor.left() > 0 {
            edit_next(&mut editor, &mut scratch, options)?;
        }
    }
    // Asked only for its contract: the done events now are a walk.
    editor.left();
    Ok(editor.finish())
}

/// Changes the next event or leaves it out.
fn edit_next(
    editor: &mut Editor,
    scratch: &mut String,
    options: &TreeOptions,
) -> Result<(), OutOfMemory>
    requires some { 0 < length editor.old.left }
    requires walk { IsWalk (editor.old.done ++ editor.old.left) }
    requires calm { IsCalm options.now editor.old }
    ensures { OnOk result (IsPassing options.now editor.old editor.new) }
{
    if options.comments && is_comment(&editor.next()) {
        editor.leave_out_comment();
        return Ok(());
    }
    change_next(editor, scratch, options)?;
    editor.keep();
    Ok(())
}

/// Whether an event is a comment.
fn is_comment(event: &EventView<'_>) -> bool
    ensures { result ≡ begins_comment (event_of event.now ∷ []) }
{
    matches!(event, EventView::Comment { .. })
}

/// Changes the next event, which isn't left out.
fn change_next(
    editor: &mut Editor,
    scratch: &mut String,
    options: &TreeOptions,
) -> Result<(), OutOfMemory>
    requires some { 0 < length editor.old.left }
    requires walk { IsWalk (editor.old.done ++ editor.old.left) }
    requires stays { options.now.comments && begins_comment editor.old.left ≡ false }
    ensures done { OnOk result (editor.new.done ≡ editor.old.done) }
    ensures left { OnOk result (IsChanged options.now editor.old.left editor.new.left) }
{
    match editor.next() {
        EventView::Doctype { .. } => change_doctype(editor, options),
        EventView::Start { .. } => change_start(editor, options),
        EventView::Text { .. } => change_text(editor, scratch, options)?,
        EventView::Comment { .. } => {}
        EventView::End { .. } => {}
    }
    Ok(())
}

/// Makes a doctype one that isn't legacy, if the options say so.
fn change_doctype(editor: &mut Editor, options: &TreeOptions)
    requires { begins_doctype editor.old.left ≡ true }
    ensures done { editor.new.done ≡ editor.old.done }
    ensures left { IsChanged options.now editor.old.left editor.new.left }
{
    if options.doctype {
        editor.make_plain();
    }
}

/// Joins a text with its new neighbours, if the options leave out comments.
fn change_text(
    editor: &mut Editor,
    scratch: &mut String,
    options: &TreeOptions,
) -> Result<(), OutOfMemory>
    requires text { begins_text editor.old.left ≡ true }
    requires walk { IsWalk (editor.old.done ++ editor.old.left) }
    ensures done { OnOk result (editor.new.done ≡ editor.old.done) }
    ensures left { OnOk result (IsChanged options.now editor.old.left editor.new.left) }
{
    if options.comments {
        join_next(editor, scratch)?;
    }
    Ok(())
}
