//! A tree as its walk.
ghost use Rattle.std.specs.Prelude.{◌≡◌, ◌<◌, ◌↔◌, [], length, slice_get, take, true, Some, IsTrue, MatchOption};
ghost use Rattle.hm_base.specs.Walks.{path_after, ends_match};
ghost use Rattle.hm_tree.specs.Moved.{put_last};
ghost use Rattle.hm_tree.specs.Trees.{DifferFirstAt, IsStartAt, IsWalk, are_texts_apart, parent_of};
ghost use Rattle.hm_tree.specs.Views.{event_of};

use crate::table::EventTable;
use crate::{Editor, EventView, Maker};
use std::alloc::Global;
use std::marker::Model;

/// A tree. Contracts see the list of its events. Each end in it ends the innermost open element. No text is empty, and
/// no two are neighbours.
#[derive(Drop)]
pub struct Tree {
    table: EventTable,
}

impl Model for Tree {
    ghost use Rattle.std.specs.Prelude.{List};
    ghost use Rattle.hm_base.specs.Walks.{Event};

    ghost Value = { List Event };

    ghost use Rattle.hm_tree.specs.Trees.{IsMade};

    ghost view = { λ t. t.table };

    ghost invariant = { λ t. IsMade t.table };
}

impl Tree {
    /// A maker of a tree. It allocates nothing until an event is added.
    pub fn maker(alloc: Global) -> Maker
        ensures { result ≡ [] }
    {
        Maker::new(alloc)
    }

    /// The tree of a table of events.
    pub(crate) fn of(table: EventTable) -> Tree
        requires matched { ends_match [] table ≡ true }
        requires closed { path_after [] table ≡ [] }
        requires apart { are_texts_apart table ≡ true }
        ensures { result ≡ table }
    {
        Tree { table }
    }

    /// How many events there are.
    pub fn len(&self) -> u32
        ensures len { result ≡ length self.now }
        ensures walk { IsWalk self.now }
    {
        self.table.len()
    }

    /// Frees the memory. A large tree is freed so before more memory is taken: its lists are shortened in place first,
    /// as `SourceText::release` does.
    pub fn release(self) {
        self.table.release();
    }

    /// Starts editing the tree in place.
    pub fn edit(self) -> Editor
        ensures { result ≡ record { done = []; left = self } }
    {
        Editor::of(self.table)
    }

    /// Event `i`.
    pub fn event(&self, i: u32) -> EventView<'_>
        requires { i < length self.now }
        ensures { slice_get self.now i ≡ Some (event_of result) }
    {
        self.table.event(i)
    }

    /// Moves attribute `at` of event `i` after the others of its tag. Nothing changes if event `i` has no such
    /// attribute.
    pub fn put_last(&mut self, i: u32, at: u32)
        requires { i < length self.old }
        ensures { self.new ≡ put_last self.old i at }
    {
        self.table.put_last(i, at);
    }

    /// The start of the innermost element that is open directly before event `i`. For an end this is its own start.
    pub fn parent(&self, i: u32) -> Option<u32>
        requires { i < length self.now }
        ensures value { result ≡ parent_of self.now i }

        // None if no element is open there. Otherwise the start is an earlier event.
        ensures element { MatchOption result (path_after [] (take i self.now) ≡ [])
            (λ k. (k < i) × IsStartAt self.now k (path_after [] (take i self.now))) }
    {
        self.table.parent(i)
    }

    /// Whether both trees have the same events.
    pub fn same(&self, other: &Tree) -> bool
        ensures { IsTrue result ↔ (self.now ≡ other.now) }
    {
        self.first_other(other).is_none()
    }

    /// The first index at which the trees differ or one of them ends. None if they are the same.
    pub fn first_other(&self, other: &Tree) -> Option<u32>
        ensures { MatchOption result (self.now ≡ other.now) (DifferFirstAt self.now other.now) }
    {
        let both = self.len().min(other.len());
        for i in 0..both {
            if !self.event(i).same(&other.event(i)) {
                return Some(i);
            }
        }
        if self.len() == other.len() {
            None
        } else {
            Some(both)
        }
    }
}
