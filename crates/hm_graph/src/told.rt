//! Facts about characters, precomputed from the entity table.
ghost use Rattle.std.specs.Prelude.{◌≡◌, ◌<◌, ◌||◌, List, ℕ, false, IfOk, IsTrue, OnOk, length, slice_index_or};
ghost use Rattle.std.specs.BTreeSet.{contains};
ghost use Rattle.std.specs.Ordering.{nat_cmp};
ghost use Rattle.hm_graph.specs.Interned.{AreMarked, AreOf, AreTold, BeginsNoPair, cheapens};
ghost use Rattle.hm_graph.specs.EntityFacts.{is_target};
ghost use Rattle.hm_graph_laws.specs.Forms.{leaves_open};
ghost use Rattle.hm_refs.specs.Names.{Entry, is_closed};
ghost use Rattle.hm_refs.specs.Tables.{entry_at};

use crate::pairs::lone_characters;
use hm_base::OutOfMemory;
use hm_refs::{NameId, Table};
use std::alloc::Global;
use std::collections::BTreeSet;

/// Facts about characters: flags for those of ASCII, and a set of characters of any kind.
#[derive(Drop)]
pub(crate) struct EntityFacts {
    /// By ASCII character: whether it is known that no name for two code points starts with it.
    pub(crate) lone: Vec<bool>,
    /// By ASCII character: whether references to it are cheap, whatever follows it.
    pub(crate) cheap: [bool; 128],
    /// The characters with which names without `;` end.
    pub(crate) ends: BTreeSet<char>,
}

impl EntityFacts {
    /// Whether it is known that no name for two code points starts with the character.
    pub(crate) fn is_lone(&self, c: char) -> bool
        ensures { (t : List Entry) → AreTold t self.now → IsTrue result → BeginsNoPair t c }
    {
        match self.lone.get(c as usize) {
            Some(true) => true,
            _ => false,
        }
    }
}

/// Whether the name ends with `;`.
pub(crate) fn is_closed(name: &[u8]) -> bool
    ensures { result ≡ is_closed name.now }
{
    match name {
        [.., last] => *last == b';',
        [] => false,
    }
}

/// The character to which a name makes references cheap: the second one, or the only one if the name is short.
fn cheapened(table: &Table, id: NameId) -> Option<char>
    requires { id < length table.now.entries }
    ensures { (c : ℕ) → is_target c result ≡ cheapens c (entry_at table.now.entries id) }
{
    let points = table.points(id);
    match points.second {
        Some(second) => Some(second),
        None if table.name(id).len() < 4 => Some(points.first),
        None => None,
    }
}

/// The last character of a name that has no `;`.
fn left_open(table: &Table, id: NameId) -> Option<char>
    requires { id < length table.now.entries }
    ensures { (c : ℕ) → is_target c result ≡ leaves_open c (entry_at table.now.entries id) }
{
    if is_closed(table.name(id)) {
        return None;
    }
    let points = table.points(id);
    match points.second {
        Some(second) => Some(second),
        None => Some(points.first),
    }
}

/// Sets the flag of a character of ASCII.
fn mark(marks: &mut [bool; 128], target: Option<char>)
    ensures { (c : ℕ) → c < 128 → slice_index_or marks.new c false ≡ (slice_index_or marks.old c false || is_target c target) }
{
    if let Some(c) = target {
        let at = c as usize;
        if at < marks.len() {
            marks[at] = true;
        }
    }
}

/// For each ASCII character, whether references to it are cheap.
fn cheap_marks(table: &Table) -> [bool; 128]
    ensures { AreMarked cheapens table.now.entries result }
{
    let mut marks = [false; 128];
    for place in 0..table.count() {
        mark(&mut marks, cheapened(table, table.id_at(place)));
    }
    marks
}

/// Adds the character to the set.
fn put(set: &mut BTreeSet<char>, target: Option<char>) -> Result<(), OutOfMemory>
    ensures { OnOk result ((c : ℕ) → contains nat_cmp set.new c ≡ (contains nat_cmp set.old c || is_target c target)) }
{
    if let Some(c) = target {
        set.insert(c)?;
    }
    Ok(())
}

/// The characters with which names without `;` end.
fn ends_of(alloc: Global, table: &Table) -> Result<BTreeSet<char>, OutOfMemory>
    ensures { IfOk result (AreOf leaves_open table.now.entries) }
{
    let mut ends = BTreeSet::new(alloc);
    for place in 0..table.count() {
        put(&mut ends, left_open(table, table.id_at(place)))?;
    }
    Ok(ends)
}

/// Computes the facts from the names of a table.
pub(crate) fn entity_facts_of(alloc: Global, table: &Table) -> Result<EntityFacts, OutOfMemory>
    ensures { IfOk result (AreTold table.now.entries) }
{
    Ok(EntityFacts {
        lone: lone_characters(alloc, table)?,
        cheap: cheap_marks(table),
        ends: ends_of(alloc, table)?,
    })
}
