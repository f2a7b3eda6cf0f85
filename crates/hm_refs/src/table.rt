//! The table of named character references (HTML Standard, #named-character-references).
ghost use Rattle.std.specs.Prelude.{◌≡◌, ◌≢◌, ℕ, ◌<◌, ◌≤◌, ◌∷◌, true, [], List, length, is_some, option_map, Ok, Err, IfOk, IfErr, IfSome};
ghost use Rattle.hm_refs.specs.Names.{child_of, is_name, longest};
ghost use Rattle.hm_refs.specs.Tables.{IsGathered, IsNode, IsTable, IsTrie, entry_at, found_at, front_at, places_for, points_list};
ghost use Rattle.hm_refs.specs.Json.{checked};
ghost use Rattle.hm_refs.specs.Nodes.{entries_of};
ghost use Rattle.hm_refs.specs.Plain.{is_plain};
ghost use Rattle.hm_refs.specs.Firsts.{IsInOrder};
ghost use Rattle.hm_refs.specs.Ready.{IsReady, are_cut, entries_from, nodes_from};

use crate::fault::TableFault;
use crate::firsts::{firsts_of, least_crowded};
use crate::ids::{NameId, Node};
use crate::index::{Index, SortedNames, select};
use crate::limits::NAMES_LIMIT;
use crate::nodes::ReferenceName;
use crate::plain::plain_flags;
use crate::ready::{ReadyIndex, ReadyNames, ReadyNodes, ids_of, names_of};
use crate::trie::Trie;
use hm_base::{OutOfMemory, OwnedText, Points};
use std::alloc::{AllocError, Global};
use std::collections::BTreeMap;
use std::marker::Model;

/// The named character references, each with its code points, and the trie of the names.
///
/// Contracts see the names in byte order, and for each node its bytes, the `&` included.
#[derive(Drop)]
pub struct Table {
    trie: Trie,
    index: Index,
    /// For each ASCII character whether it is plain.
    plain: [bool; 128],
}

impl Model for Table {
    ghost use Rattle.hm_refs.specs.Tables.{TableView};

    ghost Value = { TableView };

    ghost use Rattle.hm_refs.specs.Tables.{IsTable};
    ghost use Rattle.hm_refs.specs.Firsts.{IsIndexed};
    ghost use Rattle.hm_refs.specs.Flags.{IsFlagged};

    ghost view = { λ t. t.trie };

    ghost invariant = { λ t. IsTable t.trie.entries × IsIndexed t.trie.entries t.index × IsFlagged t.trie.entries t.plain };
}

impl Table {
    /// A table without names.
    pub fn empty(alloc: Global) -> Result<Table, OutOfMemory>
        ensures { IfOk result (λ table. table.entries ≡ []) }
    {
        let trie = Trie::new(alloc, Vec::new(alloc))?;
        Ok(Table {
            trie,
            index: Index::Gathered(BTreeMap::new(alloc)),
            plain: plain_flags(&[]),
        })
    }

    /// The table of these names, which are in byte order, or its first fault.
    pub(crate) fn checked(alloc: Global, names: Vec<ReferenceName>) -> Result<Table, TableFault>
        requires { IsGathered (entries_of names.items) }
        ensures ok { IfOk result (λ table. checked (entries_of names.items) ≡ Ok table.entries) }
        ensures fault { IfErr result
            (λ fault. fault ≢ TableFault.OutOfMemory → checked (entries_of names.items) ≡ Err fault) }
    {
        if names.len() > NAMES_LIMIT {
            return Err(TableFault::TooMany);
        }
        let firsts = firsts_of(alloc, &names)?;
        if let Some(point) = least_crowded(&names, &firsts) {
            return Err(TableFault::TooManyFor {
                point: point as u32,
            });
        }
        let plain = plain_flags(&names);
        let trie = Trie::new(alloc, names)?;
        if let Some(id) = trie.first_lone() {
            let key = word_of(alloc, trie.text(id))?;
            return Err(TableFault::Lone { key });
        }
        Ok(Table {
            trie,
            index: Index::Gathered(firsts),
            plain,
        })
    }

    /// The table of names that are constants of the program, with their trie.
    pub fn ready(
        alloc: Global,
        names: ReadyNames,
        nodes: ReadyNodes,
        index: ReadyIndex,
    ) -> Result<Table, OutOfMemory>
        requires cut { are_cut names.text.now names.lengths.now ≡ true }
        requires firsts { length names.lengths.now ≤ length names.firsts.now }
        requires seconds { length names.lengths.now ≤ length names.seconds.now }
        requires few { length nodes.names.now ≤ 65536 }
        requires depths { length nodes.names.now ≤ length nodes.depths.now }
        requires bytes { length nodes.names.now ≤ length nodes.bytes.now }
        requires counts { length nodes.names.now ≤ length nodes.counts.now }
        requires ready { IsReady (entries_from names.text.now names.lengths.now names.firsts.now names.seconds.now) (nodes_from 1 nodes.names.now nodes.depths.now nodes.bytes.now nodes.counts.now) nodes.places.now }
        requires index { IsInOrder (entries_from names.text.now names.lengths.now names.firsts.now names.seconds.now) index.points.now index.names.now }
        ensures { IfOk result (λ table. table.entries ≡ entries_from names.text.now names.lengths.now names.firsts.now names.seconds.now) }
    {
        let names = names_of(alloc, names)?;
        let index = Index::Sorted(SortedNames {
            points: index.points,
            names: ids_of(alloc, index.names)?,
        });
        let plain = plain_flags(&names);
        let trie = Trie::ready(alloc, names, nodes)?;
        Ok(Table { trie, index, plain })
    }

    /// How many names it has.
    pub fn count(&self) -> u32
        ensures { result ≡ length self.now.entries }
    {
        self.trie.count()
    }

    /// The name at this index in byte order.
    pub fn id_at(&self, place: u32) -> NameId
        requires { place < length self.now.entries }
        ensures { result ≡ place }
    {
        NameId::new(place)
    }

    /// The longest name that the text starts with (#named-character-reference-state). None if it starts with no name.
    pub fn longest(&self, text: &[u8]) -> Option<NameId>
        ensures found { option_map (λ id. found_at self.now.entries id text.now) result
            ≡ longest self.now.entries text.now }
        ensures inside { IfSome result (λ id. id < length self.now.entries) }
    {
        self.trie.longest(text)
    }

    /// The code points of a name.
    pub fn points(&self, id: NameId) -> Points
        requires { id < length self.now.entries }
        ensures { points_list result ≡ (entry_at self.now.entries id).points }
    {
        self.trie.points(id)
    }

    /// The bytes of a name, the `&` included.
    pub fn name(&self, id: NameId) -> &[u8]
        requires { id < length self.now.entries }
        ensures { result.now ≡ (entry_at self.now.entries id).name }
    {
        self.trie.name(id)
    }

    /// The names whose first code point is `first`, in byte order.
    pub fn names_for(&self, first: char) -> &[NameId]
        ensures { result.now ≡ places_for first self.now.entries }
    {
        match &self.index {
            Index::Gathered(firsts) => match firsts.get(&first) {
                Some(ids) => ids.as_slice(),
                None => &[],
            },
            Index::Sorted(sorted) => select(sorted.points, sorted.names.as_slice(), first),
        }
    }

    /// Whether the character is plain: a letter, a digit, or a mark other than quotes, `&`, `<`, `=`, `>` and the grave
    /// accent, and each name that has it as its first code point has no second one and at least four bytes.
    pub fn is_plain(&self, c: char) -> bool
        ensures { result ≡ is_plain self.now.entries c }
    {
        match self.plain.get(c as usize) {
            Some(flag) => *flag,
            None => false,
        }
    }

    /// The node of `&`.
    pub fn root(&self) -> Node
        ensures front { front_at self.now result ≡ 38 ∷ [] }
        ensures node { IsNode self.now result }
    {
        self.trie.root()
    }

    /// The node of the bytes of `node` and `byte`. None if no name starts with them.
    pub fn child(&self, node: Node, byte: u8) -> Option<Node>
        requires { node < length self.now.fronts }
        ensures leads { option_map (front_at self.now) result
            ≡ child_of self.now.entries (front_at self.now node) byte }
        ensures node { IfSome result (IsNode self.now) }
    {
        self.trie.child(node, byte)
    }

    /// The name whose bytes are those of `node`. None if there is none.
    pub fn name_at(&self, node: Node) -> Option<NameId>
        requires { node < length self.now.fronts }
        ensures exact { is_some result ≡ is_name self.now.entries (front_at self.now node) }
        ensures inside { IfSome result (λ id. id < length self.now.entries) }
        ensures name { IfSome result
            (λ id. (entry_at self.now.entries id).name ≡ front_at self.now node) }
    {
        self.trie.name_at(node)
    }

    /// The node of all bytes of a name.
    pub fn node_of(&self, id: NameId) -> Node
        requires { id < length self.now.entries }
        ensures front { front_at self.now result ≡ (entry_at self.now.entries id).name }
        ensures node { IsNode self.now result }
    {
        self.trie.node_of(id)
    }
}

/// Asked only for its contract: what is true of the names and the nodes of each table. It does nothing.
pub fn every_table(table: &Table)
    ensures names { IsTable table.now.entries }
    ensures trie { IsTrie table.now }
{
    let _root = table.trie.root();
}

/// A copy of a text.
pub(crate) fn word_of(alloc: Global, text: &str) -> Result<OwnedText, AllocError>
    ensures { IfOk result (λ word. word ≡ text.now) }
{
    Ok(OwnedText {
        text: String::from_str(alloc, text)?,
    })
}
