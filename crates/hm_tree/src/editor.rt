//! Editing a tree in place, from its first event to its last.
ghost use Rattle.std.specs.Prelude.{◌≡◌, ◌+◌, ◌<◌, ◌≤◌, [], ◌++◌, length, slice_get, string_bytes, take, false, true, Some, option_map, MatchOption, IfSome, IfOk, OnOk, OnErr};
ghost use Rattle.hm_base.specs.Walks.{begins_comment, begins_text, path_after};
ghost use Rattle.hm_tree.specs.Edits as edits;
ghost use Rattle.std.specs.List.{remove};
ghost use Rattle.hm_tree.specs.Edits.{begins_doctype, HasAttribute, IsCut, IsJoined, IsShorter, kept, last_event, with_attributes, with_first_cut, with_first_text, with_joined, with_plain_doctype, without_first, without_value};
ghost use Rattle.hm_tree.specs.Rows.{ends_in_text};
ghost use Rattle.hm_tree.specs.Trees.{IsMade, IsStartAt, IsWalk, parent_of};
ghost use Rattle.hm_tree.specs.Views.{event_of};

use crate::parent::Parent;
use crate::pieces::{AttributePieces, TextRange};
use crate::rows::{EventRow, RowPart};
use crate::shown::show;
use crate::starts::{fewer, own_of};
use crate::table::{EventTable, empty_in_part, move_in_part};
use crate::{EventView, Tree};
use hm_base::OutOfMemory;
use std::marker::Model;

/// A tree that is edited in place, from its first event to its last: each is kept, changed or left out. Contracts see
/// the events that are done and those that are left, which together are a tree's.
///
/// Rows move to the front. A changed text is a part of the old one, or is appended after all bytes of the table, which
/// alone takes memory.
#[derive(Drop)]
pub struct Editor {
    text: String,
    attributes: Vec<AttributePieces>,
    rows: Vec<EventRow>,
    done: u32,
    next: u32,
    parent: Option<u32>,
}

impl Model for Editor {
    ghost use Rattle.std.specs.Prelude.{string_bytes, take, drop};
    ghost use Rattle.hm_tree.specs.Edits.{Edited, IsEditing};

    ghost Value = { Edited };

    ghost use Rattle.hm_tree.specs.Rows.{events_of};

    ghost view = { λ e. record { done = events_of (string_bytes e.text) e.attributes.items (take e.done e.rows.items); left = events_of (string_bytes e.text) e.attributes.items (drop e.next e.rows.items) } };

    ghost invariant = { λ e. IsEditing (string_bytes e.text) e.attributes.items e.rows.items e.done e.next e.parent };
}

impl Editor {
    /// Starts at the first event of a table.
    pub(crate) fn of(table: EventTable) -> Editor
        requires { IsMade table }
        ensures { result ≡ record { done = []; left = table } }
    {
        let EventTable {
            text,
            attributes,
            rows,
        } = table;
        Editor {
            text,
            attributes,
            rows,
            done: 0,
            next: 0,
            parent: None,
        }
    }

    /// How many events are left.
    pub fn left(&self) -> u32
        ensures left { result ≡ length self.now.left }
        ensures walk { IsWalk (self.now.done ++ self.now.left) }
    {
        self.rows.len() as u32 - self.next
    }

    /// How many events are done.
    pub fn done(&self) -> u32
        ensures { result ≡ length self.now.done }
    {
        self.done
    }

    /// The next event.
    pub fn next(&self) -> EventView<'_>
        requires { 0 < length self.now.left }
        ensures { slice_get self.now.left 0 ≡ Some (event_of result) }
    {
        let row = self.rows[self.next as usize];
        show(self.text.as_str(), self.attributes.as_slice(), row.part)
    }

    /// The event that is `count` events after the next one, if there is one.
    pub fn ahead(&self, count: u32) -> Option<EventView<'_>>
        requires { 0 < length self.now.left }
        ensures { option_map event_of result ≡ slice_get self.now.left count }
    {
        let at = self.next as usize + count as usize;
        if at < self.rows.len() {
            let row = self.rows[at];
            Some(show(self.text.as_str(), self.attributes.as_slice(), row.part))
        } else {
            None
        }
    }

    /// Event `i` of those that are done.
    pub fn event(&self, i: u32) -> EventView<'_>
        requires { i < length self.now.done }
        ensures { slice_get self.now.done i ≡ Some (event_of result) }
    {
        let row = self.rows[i as usize];
        show(self.text.as_str(), self.attributes.as_slice(), row.part)
    }

    /// The start of the innermost element that is open directly before event `i`, one of those that are done or the
    /// next one.
    pub fn parent(&self, i: u32) -> Option<u32>
        requires { i ≤ length self.now.done }
        ensures value { result ≡ parent_of self.now.done i }

        // None if no element is open there. Otherwise the start is an earlier event.
        ensures element { MatchOption result (path_after [] (take i self.now.done) ≡ [])
            (λ k. (k < i) × IsStartAt self.now.done k (path_after [] (take i self.now.done))) }
    {
        if i == self.done {
            self.parent
        } else {
            self.rows[i as usize].parent.index()
        }
    }

    /// Keeps the next event as it is.
    pub fn keep(&mut self)
        requires { 0 < length self.old.left }
        ensures { self.new ≡ kept self.old.done self.old.left }
    {
        let row = self.rows[self.next as usize];
        let parent = self.parent;
        self.parent = parent_after(self.rows.as_slice(), parent, row.part, self.done);
        self.rows[self.done as usize] = EventRow {
            part: row.part,
            parent: Parent::of(parent),
        };
        self.done += 1;
        self.next += 1;
    }

    /// Leaves out the next event, which is a text.
    pub fn leave_out(&mut self)
        requires { begins_text self.old.left ≡ true }
        ensures { self.new ≡ record { done = self.old.done; left = without_first self.old.left } }
    {
        self.next += 1;
    }

    /// Leaves out the next event, which is a comment. The event before it isn't a text.
    pub fn leave_out_comment(&mut self)
        requires comment { begins_comment self.old.left ≡ true }
        requires apart { ends_in_text self.old.done ≡ false }
        ensures { self.new ≡ record { done = self.old.done; left = without_first self.old.left } }
    {
        self.next += 1;
    }

    /// Makes the next event, a doctype, one that isn't legacy.
    pub fn make_plain(&mut self)
        requires { begins_doctype self.old.left ≡ true }
        ensures { self.new ≡ record { done = self.old.done; left = with_plain_doctype self.old.left } }
    {
        let at = self.next as usize;
        self.rows[at] = EventRow {
            part: RowPart::Doctype { legacy: false },
            parent: self.rows[at].parent,
        };
    }

    /// Leaves out attribute `at` of the next event, which is a start.
    pub fn leave_out_attribute(&mut self, at: u32)
        requires { HasAttribute self.old.left at }
        ensures { self.new ≡ record { done = self.old.done; left = with_attributes (λ attributes. remove attributes at) self.old.left } }
    {
        let next = self.next as usize;
        let row = self.rows[next];
        if let Some(own) = own_of(row.part) {
            move_in_part(&mut self.attributes, own.first, own.count, at);
            self.rows[next] = EventRow {
                part: fewer(row.part),
                parent: row.parent,
            };
        }
    }

    /// Leaves out the value of attribute `at` of the next event, which is a start.
    pub fn leave_out_value(&mut self, at: u32)
        requires { HasAttribute self.old.left at }
        ensures { self.new ≡ record { done = self.old.done; left = with_attributes (without_value at) self.old.left } }
    {
        let row = self.rows[self.next as usize];
        if let Some(own) = own_of(row.part) {
            empty_in_part(&mut self.attributes, own.first, own.count, at);
        }
    }

    /// Replaces the next event, a text, and the `count` texts and comments after it by one text.
    pub fn join(&mut self, count: u32, text: &str) -> Result<(), OutOfMemory>
        requires { IsJoined self.old.left count text.now }
        ensures ok { OnOk result (self.new ≡ record { done = self.old.done; left = with_joined count text.now self.old.left }) }
        ensures err { OnErr result (self.new ≡ self.old) }
    {
        let row = self.rows[self.next as usize];
        let RowPart::Text { raw, .. } = row.part else {
            unreachable!();
        };
        let text = append_last(&mut self.text, text)?;
        self.next += count;
        self.rows[self.next as usize] = EventRow {
            part: RowPart::Text { raw, text },
            parent: row.parent,
        };
        Ok(())
    }

    /// Cuts the next event, a text, to its bytes from `from` up to `to`.
    pub fn cut_text(&mut self, from: usize, to: usize)
        requires { IsCut self.old.left from to }
        ensures { self.new ≡ record { done = self.old.done; left = with_first_cut from to self.old.left } }
    {
        let at = self.next as usize;
        let row = self.rows[at];
        if let RowPart::Text { raw, text } = row.part {
            let text = TextRange {
                from: text.from + from as u32,
                to: text.from + to as u32,
            };
            self.rows[at] = EventRow {
                part: RowPart::Text { raw, text },
                parent: row.parent,
            };
        }
    }

    /// Replaces the next event, a text, by a text that isn't longer.
    pub fn put_text(&mut self, text: &str) -> Result<(), OutOfMemory>
        requires { IsShorter self.old.left text.now }
        ensures ok { OnOk result (self.new ≡ record { done = self.old.done; left = with_first_text text.now self.old.left }) }
        ensures err { OnErr result (self.new ≡ self.old) }
    {
        let at = self.next as usize;
        let row = self.rows[at];
        let RowPart::Text { raw, .. } = row.part else {
            unreachable!();
        };
        let text = append_last(&mut self.text, text)?;
        self.rows[at] = EventRow {
            part: RowPart::Text { raw, text },
            parent: row.parent,
        };
        Ok(())
    }

    /// The tree of the events that are done. None are left.
    pub fn finish(self) -> Tree
        requires { self.left ≡ [] }
        ensures { result ≡ self.done }
    {
        let Editor {
            mut text,
            attributes,
            mut rows,
            done,
            ..
        } = self;
        rows.truncate(done as usize);
        rows.shrink_to_fit();
        text.shrink_to_fit();
        Tree::of(EventTable::of(text, attributes, rows))
    }
}

/// The start of the innermost element that is open after row `at`. `parent` is the one before that row.
fn parent_after(rows: &[EventRow], parent: Option<u32>, part: RowPart, at: u32) -> Option<u32>
    requires { IfSome parent (λ k. k < length rows.now) }
    ensures { result ≡ edits.parent_after rows.now parent part at }
{
    match part {
        RowPart::Start { .. } | RowPart::LongStart { .. } => Some(at),
        RowPart::End { .. } => match parent {
            Some(start) => rows[start as usize].parent.index(),
            None => None,
        },
        _ => parent,
    }
}

/// Appends a text after all bytes of the table, and returns its place.
#[inline(always)]
fn append_last(text: &mut String, more: &str) -> Result<TextRange, OutOfMemory>
    ensures bytes { OnOk result (string_bytes text.new ≡ string_bytes text.old ++ more.now) }
    ensures from { IfOk result (λ range. range.from ≡ length (string_bytes text.old)) }
    ensures to { IfOk result (λ range. range.to ≡ length (string_bytes text.old) + length more.now) }
    ensures err { OnErr result (string_bytes text.new ≡ string_bytes text.old) }
{
    let Ok(to) = u32::try_from(text.len() + more.len()) else {
        return Err(OutOfMemory);
    };
    let from = text.len() as u32;
    text.push_str(more)?;
    Ok(TextRange { from, to })
}
