//! What is around an event of a tree.
ghost use Rattle.std.specs.Prelude.{◌≡◌, ◌<◌, ◌+◌, [], length, take, drop};
ghost use Rattle.hm_base.specs.Walks.{path_after};
ghost use Rattle.hm_elements.specs.Paths.{current, outer};
ghost use Rattle.hm_event_parts.specs.Around.{IsAround, previous_shown, shown};
ghost use Rattle.hm_event_parts.specs.Events.{previous_at};

use hm_tree::{EventView, Tree};

/// The innermost open element: its name, which is empty at the top, and whether it is one of SVG.
#[derive(Clone, Copy)]
pub(crate) struct Around<'t> {
    pub name: &'t str,
    pub foreign: bool,
}

/// The innermost element that is open directly before event `i`.
pub(crate) fn element_around(tree: &Tree, i: u32) -> Around<'_>
    requires { i < length tree.now }
    ensures { IsAround result (path_after [] (take i tree.now)) }
{
    if let Some(parent) = tree.parent(i) {
        if let EventView::Start { name, foreign, .. } = tree.event(parent) {
            return Around { name, foreign };
        }
    }
    Around {
        name: "",
        foreign: false,
    }
}

/// The name of the parent of the innermost element that is open directly before event `i`; it is empty at the top.
pub(crate) fn parent_name(tree: &Tree, i: u32) -> &str
    requires { i < length tree.now }
    ensures { result.now ≡ current (outer (path_after [] (take i tree.now))) }
{
    match tree.parent(i) {
        Some(own) => element_around(tree, own).name,
        None => "",
    }
}

/// The event after event `i`.
pub(crate) fn next_event(tree: &Tree, i: u32) -> Option<EventView<'_>>
    requires { i < length tree.now }
    ensures { shown result ≡ take 1 (drop (i + 1) tree.now) }
{
    let len = tree.len();
    if i + 1 < len {
        Some(tree.event(i + 1))
    } else {
        None
    }
}

/// The event before event `i`.
pub(crate) fn previous_event(tree: &Tree, i: u32) -> Option<EventView<'_>>
    requires { i < length tree.now }
    ensures { previous_shown result ≡ previous_at tree.now i }
{
    if i > 0 { Some(tree.event(i - 1)) } else { None }
}
