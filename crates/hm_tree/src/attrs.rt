//! The attributes of a start tag.
ghost use Rattle.std.specs.Prelude.{◌≡◌, ◌+◌, ◌^◌, ◌<◌, ◌≤◌, [], ◌∷◌, ◌++◌, length, slice_get, string_bytes, string_len, string_capacity, vec_len, vec_capacity, true, false, not, All, Some, Ok, IfSome, IfOk, OnOk, OnErr, if◌then◌else◌};
ghost use Rattle.hm_base.specs.Walks.{Attribute, has_name, has_distinct_names};
ghost use Rattle.hm_tree.specs.Attributes.{are_texts};
ghost use Rattle.hm_tree.specs.Names.{HasNames};
ghost use Rattle.hm_tree.specs.Pairs.{HasPair, attributes_of};
ghost use Rattle.hm_tree.specs.Pieces.{texts_of};

use crate::names::{has_among, note};
use crate::pieces::{Pair, name_in, value_in};
use hm_base::OutOfMemory;
use indexmap::IndexSet;
use std::alloc::Global;
use std::marker::Model;

/// Attributes of a start tag in order: a name and a value each. Names are distinct. Contracts see the list of them.
///
/// All are kept in one text, each name directly before its value. If there are more than 32, a set of the names finds a
/// repeated one.
#[derive(Drop)]
pub struct Attrs {
    text: String,
    pairs: Vec<Pair>,
    table: Option<IndexSet<String>>,
}

impl Model for Attrs {
    ghost use Rattle.std.specs.Prelude.{List, string_bytes};
    ghost use Rattle.hm_base.specs.Walks.{Attribute};

    ghost Value = { List Attribute };

    ghost use Rattle.std.specs.Prelude.{IfSome};
    ghost use Rattle.hm_tree.specs.Names.{HasNames};
    ghost use Rattle.hm_tree.specs.Pairs.{attributes_of, IsAttributeList};

    ghost view = { λ a. attributes_of (string_bytes a.text) a.pairs.items };

    ghost invariant = { λ a. IsAttributeList (string_bytes a.text) a.pairs.items × IfSome a.table (λ names. HasNames names (attributes_of (string_bytes a.text) a.pairs.items)) };
}

impl Attrs {
    /// No attributes. It allocates nothing until one is added.
    pub fn new(alloc: Global) -> Attrs
        ensures { result ≡ [] }
    {
        Attrs {
            text: String::new(alloc),
            pairs: Vec::new(alloc),
            table: None,
        }
    }

    /// How many attributes there are. Their names are distinct, and names and values are UTF-8.
    pub fn len(&self) -> u32
        ensures len { result ≡ length self.now }
        ensures distinct { has_distinct_names self.now ≡ true }
        ensures texts { are_texts self.now ≡ true }
    {
        self.pairs.len() as u32
    }

    /// The name and the value of attribute `i`.
    pub fn at(&self, i: u32) -> (&str, &str)
        requires { i < length self.now }
        ensures { slice_get self.now i ≡ Some (record { name = result.0.now; value = result.1.now }) }
    {
        let pair = self.pairs[i as usize];
        (
            name_in(self.text.as_str(), pair),
            value_in(self.text.as_str(), pair),
        )
    }

    /// All names and values, one after the other.
    pub(crate) fn text(&self) -> &str
        ensures { result.now ≡ texts_of self.now }
    {
        self.text.as_str()
    }

    /// The places of the names and values in that text.
    pub(crate) fn pairs(&self) -> &[Pair]
        ensures pieces { All (HasPair (texts_of self.now)) result.now }
        ensures shown { attributes_of (texts_of self.now) result.now ≡ self.now }
    {
        self.pairs.as_slice()
    }

    /// Appends an attribute, unless its name is already there, and returns whether it did. If an allocation fails,
    /// nothing changes.
    pub fn add(&mut self, name: String, value: String) -> Result<bool, OutOfMemory>
        requires room { has_name (string_bytes name) self.old ≡ false → length self.old + 1 < 2 ^ 32 }
        ensures there { IfOk result (λ added. added ≡ not (has_name (string_bytes name) self.old)) }
        ensures after { IfOk result (λ added. self.new ≡ (if added then self.old ++ record { name = string_bytes name; value = string_bytes value } ∷ [] else self.old)) }
        ensures err { OnErr result (self.new ≡ self.old) }
    {
        self.put(name.as_str(), value.as_str())
    }

    /// As `add`, but copies the name and the value.
    pub fn put(&mut self, name: &str, value: &str) -> Result<bool, OutOfMemory>
        requires room { has_name name.now self.old ≡ false → length self.old + 1 < 2 ^ 32 }
        ensures there { IfOk result (λ added. added ≡ not (has_name name.now self.old)) }
        ensures after { IfOk result (λ added. self.new ≡ (if added then self.old ++ record { name = name.now; value = value.now } ∷ [] else self.old)) }
        ensures err { OnErr result (self.new ≡ self.old) }
    {
        if self.has(name) {
            return Ok(false);
        }
        make_room(
            &mut self.text,
            &mut self.pairs,
            &mut self.table,
            name,
            value,
        )?;
        append_pair(&mut self.text, &mut self.pairs, name, value);
        Ok(true)
    }

    /// Removes all attributes. The memory of their text is kept for the next ones.
    pub fn clear(&mut self)
        ensures { self.new ≡ [] }
    {
        self.text.clear();
        self.pairs.clear();
        if self.table.is_some() {
            self.table = None;
        }
    }

    /// Whether an attribute has this name.
    fn has(&self, name: &str) -> bool
        ensures { result ≡ has_name name.now self.now }
    {
        let text = self.text.as_str();
        let pairs = self.pairs.as_slice();
        match &self.table {
            Some(table) => table.contains(name),
            None => has_among(text, pairs, name),
        }
    }
}

/// Makes room for one more attribute, and adds its name to the set of names.
#[inline(always)]
fn make_room(
    text: &mut String,
    pairs: &mut Vec<Pair>,
    table: &mut Option<IndexSet<String>>,
    name: &str,
    value: &str,
) -> Result<(), OutOfMemory>
    requires pieces { All (HasPair (string_bytes text.old)) pairs.old.items }
    requires noted { IfSome table.old (λ names. HasNames names (attributes_of (string_bytes text.old) pairs.old.items)) }
    ensures kept { (string_bytes text.new ≡ string_bytes text.old) × (pairs.new.items ≡ pairs.old.items) }
    ensures room { OnOk result ((string_len text.new + (length name.now + length value.now) ≤ string_capacity text.new) × (vec_len pairs.new + 1 ≤ vec_capacity pairs.new)) }
    ensures ok { OnOk result ((a : Attribute) → a.name ≡ name.now → IfSome table.new (λ names. HasNames names (attributes_of (string_bytes text.old) pairs.old.items ++ a ∷ []))) }
    ensures err { OnErr result (IfSome table.new (λ names. HasNames names (attributes_of (string_bytes text.old) pairs.old.items))) }
{
    pairs.reserve(1)?;
    text.reserve(name.len() + value.len())?;
    let alloc = *text.allocator();
    note(alloc, table, text.as_str(), pairs.as_slice(), name)?;
    Ok(())
}

/// Appends an attribute. There is room for it.
#[inline(always)]
fn append_pair(text: &mut String, pairs: &mut Vec<Pair>, name: &str, value: &str)
    requires room { string_len text.old + (length name.now + length value.now) ≤ string_capacity text.old }
    requires place { vec_len pairs.old + 1 ≤ vec_capacity pairs.old }
    ensures text { string_bytes text.new ≡ (string_bytes text.old ++ name.now) ++ value.now }
    ensures pairs { pairs.new.items ≡ pairs.old.items ++ record { from = length (string_bytes text.old); middle = length (string_bytes text.old ++ name.now); to = length ((string_bytes text.old ++ name.now) ++ value.now) } ∷ [] }
{
    let from = text.len();
    text.push_str(name).unwrap();
    let middle = text.len();
    text.push_str(value).unwrap();
    let to = text.len();
    pairs.push(Pair { from, middle, to }).unwrap();
}
