//! The characters of a text.
ghost use Rattle.std.specs.Prelude.{◌≡◌, ◌<◌, List, length, chars, if◌then◌else◌};
ghost use Rattle.hm_base.specs.Bytes.{head_is};
ghost use Rattle.hm_base.specs.Walks.{Element};
ghost use Rattle.hm_edges.specs.Units.{kind_of};
ghost use Rattle.hm_spelling_spec.specs.Spellings as spellings;
ghost use Rattle.hm_graph_laws.specs.Units as units;
ghost use Rattle.hm_event_parts.specs.Around.{IsAround, previous_shown};
ghost use Rattle.hm_event_parts.specs.Events.{previous_at};

use crate::neighbours::{Around, previous_event};
use hm_edges::TextKind;
use hm_elements::{is_preformatted, is_rcdata};
use hm_tree::{EventView, Tree};

/// The kind of a text directly in this element.
pub(crate) fn text_kind(around: Around<'_>) -> TextKind
    ensures { (path : List Element) → IsAround around.entry path → kind_of result ≡ units.kind_of path }
{
    if around.foreign {
        TextKind::Foreign
    } else if is_rcdata(around.name) {
        TextKind::Rcdata
    } else {
        TextKind::Text
    }
}

/// Whether the text's first character is a line feed.
fn begins_with_line_feed(text: &str) -> bool
    ensures { result ≡ head_is spellings.is_line_feed (chars text.now) }
{
    matches!(text.chars().next(), Some('\n'))
}

/// Whether there is an event and it is a start.
fn is_start(event: Option<EventView<'_>>) -> bool
    ensures { result ≡ units.is_after_start (previous_shown event.entry) }
{
    matches!(event, Some(EventView::Start { .. }))
}

/// Whether the parser drops a line feed directly after the start tag of this element (HTML Standard,
/// #element-restrictions).
#[tactic(auto, unfolding(hm_spelling_spec::specs::Spellings::drops_first_line_feed))]
fn drops_first_line_feed(around: Around<'_>) -> bool
    ensures { (path : List Element) → IsAround around.entry path → result ≡ spellings.drops_first_line_feed path }
{
    !around.foreign && is_preformatted(around.name)
}

/// Whether one more line feed is written before the text of event `i`: the text starts with one, and the parser would
/// drop it here.
#[tactic(auto, using(crate::proofs::TextUnits::due))]
pub(crate) fn is_line_feed_due(tree: &Tree, i: u32, around: Around<'_>, text: &str) -> bool
    requires { i < length tree.now }
    ensures { (path : List Element) → IsAround around.entry path
        → result ≡ spellings.wants_line_feed (if units.is_after_start (previous_at tree.now i) then spellings.opening else spellings.other) path (chars text.now) }
{
    begins_with_line_feed(text)
        && drops_first_line_feed(around)
        && is_start(previous_event(tree, i))
}
