//! The events of a tree in a table: a row for each event, and the bytes and attributes that the rows point into.
ghost use Rattle.std.specs.Prelude.{◌≡◌, ◌+◌, ◌<◌, ◌≤◌, length, slice_get, slice_range, string_bytes, Some};
ghost use Rattle.hm_tree.specs.Moved.{moved, put_last, with_part};
ghost use Rattle.hm_tree.specs.Pieces.{emptied};
ghost use Rattle.hm_tree.specs.Rows.{IsTable, events_of};
ghost use Rattle.hm_tree.specs.Trees.{IsTold, parent_of};
ghost use Rattle.hm_tree.specs.Views.{event_of};

use crate::EventView;
use crate::pieces::AttributePieces;
use crate::rows::EventRow;
use crate::shown::show;
use crate::starts::own_of;
use std::marker::Model;

/// A list of events. Some bytes and attributes may belong to no row.
#[derive(Drop)]
pub(crate) struct EventTable {
    pub(crate) text: String,
    pub(crate) attributes: Vec<AttributePieces>,
    pub(crate) rows: Vec<EventRow>,
}

impl Model for EventTable {
    ghost use Rattle.std.specs.Prelude.{List, string_bytes};
    ghost use Rattle.hm_base.specs.Walks.{Event};

    ghost Value = { List Event };

    ghost use Rattle.hm_tree.specs.Rows.{events_of, IsTable};

    ghost view = { λ t. events_of (string_bytes t.text) t.attributes.items t.rows.items };

    ghost invariant = { λ t. IsTable (string_bytes t.text) t.attributes.items t.rows.items };
}

impl EventTable {
    /// The table of these rows.
    pub(crate) fn of(
        text: String,
        attributes: Vec<AttributePieces>,
        rows: Vec<EventRow>,
    ) -> EventTable
        requires { IsTable (string_bytes text) attributes.items rows.items }
        ensures { result ≡ events_of (string_bytes text) attributes.items rows.items }
    {
        EventTable {
            text,
            attributes,
            rows,
        }
    }

    /// How many events there are.
    pub(crate) fn len(&self) -> u32
        ensures len { result ≡ length self.now }
        ensures told { IsTold self.now }
    {
        self.rows.len() as u32
    }

    /// Frees the memory. The lists are shortened in place first: see `SourceText::release`.
    pub(crate) fn release(self) {
        let EventTable {
            mut text,
            mut attributes,
            mut rows,
        } = self;
        text.clear();
        text.shrink_to(1);
        attributes.clear();
        attributes.shrink_to(1);
        rows.clear();
        rows.shrink_to(1);
    }

    /// Event `i`.
    pub(crate) fn event(&self, i: u32) -> EventView<'_>
        requires { i < length self.now }
        ensures { slice_get self.now i ≡ Some (event_of result) }
    {
        let row = self.rows[i as usize];
        show(self.text.as_str(), self.attributes.as_slice(), row.part)
    }

    /// The start of the innermost element that is open directly before event `i`.
    pub(crate) fn parent(&self, i: u32) -> Option<u32>
        requires { i < length self.now }
        ensures { result ≡ parent_of self.now i }
    {
        self.rows[i as usize].parent.index()
    }

    /// Moves attribute `at` of event `i` after the others of its tag. Nothing changes if there is no such attribute.
    pub(crate) fn put_last(&mut self, i: u32, at: u32)
        requires { i < length self.old }
        ensures { self.new ≡ put_last self.old i at }
    {
        let row = self.rows[i as usize];
        if let Some(own) = own_of(row.part) {
            if at < u32::from(own.count) {
                move_in_part(&mut self.attributes, own.first, own.count, at);
            }
        }
    }
}

/// Moves the attribute at index `at` after the others.
fn move_last(attributes: &mut [AttributePieces], at: usize)
    requires { at < length attributes.old }
    ensures { attributes.new ≡ moved at attributes.old }
{
    attributes[at..].rotate_left(1);
}

/// As `move_last`, with index `at` among `count` attributes from index `first` on.
pub(crate) fn move_in_part(attributes: &mut Vec<AttributePieces>, first: u32, count: u16, at: u32)
    requires inside { first + count ≤ length attributes.old.items }
    requires there { at < count }
    ensures { attributes.new.items ≡ with_part first count attributes.old.items (moved at (slice_range attributes.old.items first (first + count))) }
{
    let from = first as usize;
    move_last(
        &mut attributes[from..from + usize::from(count)],
        at as usize,
    );
}

/// Leaves out the value of the attribute at index `at`.
fn empty_at(attributes: &mut [AttributePieces], at: usize)
    requires { at < length attributes.old }
    ensures { attributes.new ≡ emptied at attributes.old }
{
    attributes[at].to = attributes[at].middle;
}

/// As `empty_at`, with index `at` among `count` attributes from index `first` on.
pub(crate) fn empty_in_part(attributes: &mut Vec<AttributePieces>, first: u32, count: u16, at: u32)
    requires inside { first + count ≤ length attributes.old.items }
    requires there { at < count }
    ensures { attributes.new.items ≡ with_part first count attributes.old.items (emptied at (slice_range attributes.old.items first (first + count))) }
{
    let from = first as usize;
    let to = from + usize::from(count);
    empty_at(&mut attributes[from..to], at as usize);
}
