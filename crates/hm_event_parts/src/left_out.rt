//! Which tags may be omitted, by what is before and after them (HTML Standard, #optional-tags).
ghost use Rattle.std.specs.Prelude.{◌≡◌, ◌<◌, ◌+◌, ◌&&◌, ◌||◌, List, [], not, bytes_eq, length, take, drop};
ghost use Rattle.hm_base.specs.Bytes as bytes;
ghost use Rattle.hm_base.specs.Bytes.{head_is};
ghost use Rattle.hm_base.specs.Walks as walks;
ghost use Rattle.hm_base.specs.Walks.{Event, path_after};
ghost use Rattle.hm_elements.specs.Names.{head, option, p};
ghost use Rattle.hm_elements.specs.Paths.{current, outer};
ghost use Rattle.hm_spelling_spec.specs.Omission as spellings;
ghost use Rattle.hm_graph_laws.specs.Units as units;
ghost use Rattle.hm_event_parts.specs.Around.{previous_shown, shown};
ghost use Rattle.hm_event_parts.specs.Events.{previous_at};

use crate::likely::{may_be_page_part, may_have_optional_end};
use crate::neighbours::{next_event, parent_name, previous_event};
use hm_base::{SpellRules, is_space};
use hm_elements::{
    end_tag_optional_before, end_tag_optional_in, same_name, start_tag_optional_before,
    start_tag_required_after, stays_in_head,
};
use hm_tree::{EventView, Tree};

/// Whether there is an event and it is a comment.
fn is_comment(next: Option<EventView<'_>>) -> bool
    ensures { result ≡ walks.begins_comment (shown next.entry) }
{
    matches!(next, Some(EventView::Comment { .. }))
}

/// Whether there is an event and it is a text.
fn is_text(next: Option<EventView<'_>>) -> bool
    ensures { result ≡ walks.begins_text (shown next.entry) }
{
    matches!(next, Some(EventView::Text { .. }))
}

/// Whether there is an event and it is a start.
fn is_start(next: Option<EventView<'_>>) -> bool
    ensures { result ≡ walks.begins_start (shown next.entry) }
{
    matches!(next, Some(EventView::Start { .. }))
}

/// Whether there is an event and it is an end.
fn is_end(next: Option<EventView<'_>>) -> bool
    ensures { result ≡ walks.begins_end (shown next.entry) }
{
    matches!(next, Some(EventView::End { .. }))
}

/// Whether the event is the end of `head`.
fn is_end_of_head(next: Option<EventView<'_>>) -> bool
    ensures { result ≡ walks.begins_end_of head (shown next.entry) }
{
    match next {
        Some(EventView::End { name, foreign }) => !foreign && same_name(name, "head"),
        _ => false,
    }
}

/// Whether the text's first byte is whitespace.
fn begins_with_space(text: &[u8]) -> bool
    ensures { result ≡ head_is bytes.is_space text.now }
{
    match text {
        [first, ..] => is_space(char::from(*first)),
        [] => false,
    }
}

/// Whether the event is a text that starts with whitespace.
fn is_space_first(next: Option<EventView<'_>>) -> bool
    ensures { result ≡ spellings.begins_space (shown next.entry) }
{
    match next {
        Some(EventView::Text { text, raw: _ }) => begins_with_space(text.as_bytes()),
        _ => false,
    }
}

/// Whether the event is the start of an element that the parser takes into `head` if no start tag of `body` is before
/// it.
#[tactic(auto, unfolding(hm_spelling_spec::specs::Omission::head_takes))]
fn is_for_head(next: Option<EventView<'_>>) -> bool
    ensures { result ≡ spellings.begins_for_head (shown next.entry) }
{
    match next {
        Some(EventView::Start { name, foreign, .. }) => !foreign && stays_in_head(name),
        _ => false,
    }
}

/// Whether the event is the start of a child before which the start tag of this element may be omitted.
fn is_child_of(parent: &str, next: Option<EventView<'_>>) -> bool
    ensures { result ≡ spellings.begins_child_of parent.now (shown next.entry) }
{
    match next {
        Some(EventView::Start { name, foreign, .. }) => !foreign
            && start_tag_optional_before(parent, name),
        _ => false,
    }
}

/// Whether the start tag of the HTML element without attributes may be omitted before the next event. `frame` says
/// whether those of `html`, `head` and `body` may.
#[tactic(auto, unfolding(hm_spelling_spec::specs::Omission::start_falls))]
fn start_falls(frame: bool, name: &str, next: Option<EventView<'_>>) -> bool
    ensures { result ≡ spellings.start_falls frame name.now (shown next.entry) }
{
    if same_name(name, "html") {
        !is_comment(next)
    } else if same_name(name, "head") {
        is_end_of_head(next) || is_start(next)
    } else if same_name(name, "body") {
        !frame && !is_comment(next) && !is_space_first(next) && !is_for_head(next)
    } else {
        is_child_of(name, next)
    }
}

/// Whether the tables of names let the end tag be omitted: before the start of an HTML element, or at the end of the
/// parent.
fn end_goes(name: &str, parent: &str, next: Option<EventView<'_>>) -> bool
    ensures { result ≡ spellings.end_goes name.now parent.now (shown next.entry) }
{
    match next {
        Some(
            EventView::Start {
                name: following,
                foreign,
                ..
            },
        ) => !foreign && end_tag_optional_before(name, following),
        Some(EventView::End { .. }) => end_tag_optional_in(name, parent),
        _ => false,
    }
}

/// Whether the end tag of the HTML element in this parent may be omitted before the next event.
#[tactic(auto, unfolding(hm_spelling_spec::specs::Omission::end_falls))]
fn end_falls(name: &str, parent: &str, next: Option<EventView<'_>>) -> bool
    ensures { result ≡ spellings.end_falls name.now parent.now (shown next.entry) }
{
    if same_name(name, "html") || same_name(name, "body") {
        !is_comment(next)
    } else if same_name(name, "head") {
        !is_text(next) && !is_comment(next)
    } else {
        end_goes(name, parent, next)
    }
}

/// Whether the start tag of this name is kept if the end tag of the previous event is omitted.
fn is_barred(previous: Option<EventView<'_>>, name: &str) -> bool
    ensures { result ≡ units.is_required_after_omission (previous_shown previous.entry) name.now }
{
    match previous {
        Some(
            EventView::End {
                name: before,
                foreign,
            },
        ) => !foreign && start_tag_required_after(before, name),
        _ => false,
    }
}

/// Whether the start tag of event `i`, which has this name, is kept if the end tag directly before it is omitted.
pub(crate) fn is_required_after_omission(tree: &Tree, i: u32, name: &str) -> bool
    requires { i < length tree.now }
    ensures { result ≡ units.is_required_after_omission (previous_at tree.now i) name.now }
{
    may_be_page_part(name) && is_barred(previous_event(tree, i), name)
}

/// Whether the start tag of event `i`, that of an HTML element without attributes, may be omitted.
fn start_falls_at(tree: &Tree, i: u32, frame: bool, name: &str) -> bool
    requires { i < length tree.now }
    ensures { result ≡ spellings.start_falls frame name.now (take 1 (drop (i + 1) tree.now)) }
{
    may_be_page_part(name) && start_falls(frame, name, next_event(tree, i))
}

/// Whether a rule for the end tag of the HTML element depends on its parent.
fn asks_for_parent(name: &str) -> bool
    ensures { result ≡ bytes_eq name.now p || bytes_eq name.now option }
{
    same_name(name, "p") || same_name(name, "option")
}

/// The name of the parent of the element that ends with event `i`, if a rule for its end tag depends on the parent;
/// else any name.
fn asked_parent<'t>(tree: &'t Tree, i: u32, name: &str) -> &'t str
    requires { i < length tree.now }
    ensures { (w : List Event) → spellings.end_falls name.now result.now w ≡ spellings.end_falls name.now (current (outer (path_after [] (take i tree.now)))) w }
{
    if asks_for_parent(name) {
        parent_name(tree, i)
    } else {
        ""
    }
}

/// Whether the end tag of event `i`, that of an HTML element, may be omitted.
fn end_falls_at(tree: &Tree, i: u32, name: &str) -> bool
    requires { i < length tree.now }
    ensures { result ≡ spellings.end_falls name.now (current (outer (path_after [] (take i tree.now)))) (take 1 (drop (i + 1) tree.now)) }
{
    may_have_optional_end(name) && end_falls(name, asked_parent(tree, i, name), next_event(tree, i))
}

/// Whether the start tag of event `i`, that of an element without attributes, may be omitted (#optional-tags).
pub(crate) fn may_omit_start(
    tree: &Tree,
    rules: SpellRules,
    i: u32,
    name: &str,
    foreign: bool,
) -> bool
    requires { i < length tree.now }
    ensures { result ≡ rules.omit && (not foreign && spellings.start_falls rules.frame name.now (take 1 (drop (i + 1) tree.now))) }
{
    rules.omit && !foreign && start_falls_at(tree, i, rules.frame, name)
}

/// Whether the end tag of event `i` may be omitted (#optional-tags).
pub(crate) fn may_omit_end(
    tree: &Tree,
    rules: SpellRules,
    i: u32,
    name: &str,
    foreign: bool,
) -> bool
    requires { i < length tree.now }
    ensures { result ≡ rules.omit && (not foreign && spellings.end_falls name.now (current (outer (path_after [] (take i tree.now)))) (take 1 (drop (i + 1) tree.now))) }
{
    rules.omit && !foreign && end_falls_at(tree, i, name)
}

/// Whether the start tag of event `i` may close itself: its element is one of SVG and has no content.
pub(crate) fn may_close_itself(tree: &Tree, i: u32, foreign: bool) -> bool
    requires { i < length tree.now }
    ensures { result ≡ units.may_close_itself foreign (take 1 (drop (i + 1) tree.now)) }
{
    foreign && is_end(next_event(tree, i))
}
