//! The event of a row.
ghost use Rattle.std.specs.Prelude.{◌≡◌, ◌+◌, ◌≤◌, length, slice_range};
ghost use Rattle.hm_tree.specs.Rows.{CanShow, event_at};
ghost use Rattle.hm_tree.specs.Views.{event_of};

use crate::pieces::{AttributePieces, cut, cut_short};
use crate::rows::RowPart;
use crate::{AttrsView, EventView};

/// The event of a row. `text` and `attributes` are those of its table.
pub(crate) fn show<'t>(
    text: &'t str,
    attributes: &'t [AttributePieces],
    part: RowPart,
) -> EventView<'t>
    requires { CanShow text.now attributes.now part }
    ensures { event_of result ≡ event_at text.now attributes.now part }
{
    match part {
        RowPart::Doctype { legacy } => EventView::Doctype { legacy },
        RowPart::Start {
            foreign,
            len,
            count,
            from,
            first,
        } => EventView::Start {
            name: cut_short(text, from, len),
            foreign,
            attrs: AttrsView::of(text, part_of(attributes, first, u16::from(count))),
        },
        RowPart::LongStart {
            foreign,
            count,
            first,
        } => EventView::Start {
            name: cut(text, attributes[first as usize - 1].name()),
            foreign,
            attrs: AttrsView::of(text, part_of(attributes, first, count)),
        },
        RowPart::Text { raw, text: piece } => EventView::Text {
            text: cut(text, piece),
            raw,
        },
        RowPart::Comment { text: piece } => EventView::Comment {
            text: cut(text, piece),
        },
        RowPart::End { foreign, name } => EventView::End {
            name: cut(text, name),
            foreign,
        },
    }
}

/// `count` of the attributes, from index `first` on.
fn part_of(attributes: &[AttributePieces], first: u32, count: u16) -> &[AttributePieces]
    requires { first + count ≤ length attributes.now }
    ensures { result.now ≡ slice_range attributes.now first (first + count) }
{
    let from = first as usize;
    &attributes[from..from + usize::from(count)]
}
