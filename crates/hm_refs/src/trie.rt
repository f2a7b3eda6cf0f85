//! Names with their trie.
ghost use Rattle.std.specs.Prelude.{◌≡◌, ℕ, ◌<◌, ◌≤◌, ◌∷◌, [], length, option_map, IfOk, IfSome};
ghost use Rattle.hm_refs.specs.Names.{child_of, longest};
ghost use Rattle.hm_refs.specs.Json.{first_lone, is_lone};
ghost use Rattle.hm_refs.specs.Tables.{IsNode, IsTrie, entry_at, found_at, front_at, names_in, points_list};
ghost use Rattle.hm_refs.specs.Nodes.{AreNames, IsPut, entries_of, place};
ghost use Rattle.hm_refs.specs.Ready.{nodes_from};

use crate::ids::{NameId, Node};
use crate::nodes::{ReferenceName, TrieNode, after_first_byte, find_child, grow, mark_ends};
use crate::ready::{ReadyNodes, nodes_of, places_of};
use crate::scan::is_closed;
use hm_base::{OutOfMemory, Points};
use std::alloc::Global;
use std::marker::Model;

/// Names by number, the nodes of their trie, and the node of each name.
#[derive(Drop)]
pub(crate) struct Trie {
    names: Vec<ReferenceName>,
    nodes: Vec<TrieNode>,
    places: Vec<Node>,
}

impl Model for Trie {
    ghost use Rattle.hm_refs.specs.Tables.{TableView};

    ghost Value = { TableView };

    ghost use Rattle.hm_refs.specs.Nodes.{IsWhole, entries_of, fronts_of};

    ghost view = { λ t. record { entries = entries_of t.names.items; fronts = fronts_of (entries_of t.names.items) t.nodes.items } };

    ghost invariant = { λ t. IsWhole (entries_of t.names.items) t.nodes.items t.places.items };
}

impl Trie {
    /// The trie of names in byte order.
    pub(crate) fn new(alloc: Global, names: Vec<ReferenceName>) -> Result<Trie, OutOfMemory>
        requires { AreNames (entries_of names.items) }
        ensures { IfOk result (λ trie. trie.entries ≡ entries_of names.items) }
    {
        let mut nodes = Vec::new(alloc);
        let places = grow(alloc, &names, &mut nodes)?;
        Ok(Trie {
            names,
            nodes,
            places,
        })
    }

    /// The trie of names whose nodes are constants of the program.
    pub(crate) fn ready(
        alloc: Global,
        names: Vec<ReferenceName>,
        ready: ReadyNodes,
    ) -> Result<Trie, OutOfMemory>
        requires few { length ready.names.now ≤ 65536 }
        requires depths { length ready.names.now ≤ length ready.depths.now }
        requires bytes { length ready.names.now ≤ length ready.bytes.now }
        requires counts { length ready.names.now ≤ length ready.counts.now }
        requires put { IsPut (entries_of names.items) 0 (nodes_from 1 ready.names.now ready.depths.now ready.bytes.now ready.counts.now) ready.places.now }
        ensures { IfOk result (λ trie. trie.entries ≡ entries_of names.items) }
    {
        let mut nodes = nodes_of(alloc, ready)?;
        let places = places_of(alloc, ready.places)?;
        mark_ends(&names, &mut nodes, &places);
        Ok(Trie {
            names,
            nodes,
            places,
        })
    }

    /// How many names there are.
    pub(crate) fn count(&self) -> u32
        ensures { result ≡ length self.now.entries }
    {
        self.names.len() as u32
    }

    /// The node of `&`.
    pub(crate) fn root(&self) -> Node
        ensures front { front_at self.now result ≡ 38 ∷ [] }
        ensures node { IsNode self.now result }
        ensures names { AreNames self.now.entries }
        ensures trie { IsTrie self.now }
    {
        let _nodes = &self.nodes;
        Node::new(0)
    }

    /// The node of the bytes of `node` and `byte`. None if no name starts with them.
    pub(crate) fn child(&self, node: Node, byte: u8) -> Option<Node>
        requires { node < length self.now.fronts }
        ensures leads { option_map (front_at self.now) result
            ≡ child_of self.now.entries (front_at self.now node) byte }
        ensures node { IfSome result (IsNode self.now) }
    {
        find_child(&self.nodes, node.index(), byte)
    }

    /// The name whose bytes are those of `node`.
    pub(crate) fn name_at(&self, node: Node) -> Option<NameId>
        requires { node < length self.now.fronts }
        ensures { result ≡ place (front_at self.now node) (names_in self.now.entries) }
    {
        self.nodes[node.index()].ends
    }

    /// The node of all bytes of a name.
    pub(crate) fn node_of(&self, id: NameId) -> Node
        requires { id < length self.now.entries }
        ensures front { front_at self.now result ≡ (entry_at self.now.entries id).name }
        ensures node { IsNode self.now result }
    {
        self.places[id.index()]
    }

    /// The code points of a name.
    pub(crate) fn points(&self, id: NameId) -> Points
        requires { id < length self.now.entries }
        ensures { points_list result ≡ (entry_at self.now.entries id).points }
    {
        self.names[id.index()].points
    }

    /// The text of a name.
    pub(crate) fn text(&self, id: NameId) -> &str
        requires { id < length self.now.entries }
        ensures { result.now ≡ (entry_at self.now.entries id).name }
    {
        self.names[id.index()].text.as_str()
    }

    /// The bytes of a name, the `&` included.
    pub(crate) fn name(&self, id: NameId) -> &[u8]
        requires { id < length self.now.entries }
        ensures { result.now ≡ (entry_at self.now.entries id).name }
    {
        self.text(id).as_bytes()
    }

    /// The longest name that the text starts with.
    pub(crate) fn longest(&self, text: &[u8]) -> Option<NameId>
        ensures found { option_map (λ id. found_at self.now.entries id text.now) result
            ≡ longest self.now.entries text.now }
        ensures inside { IfSome result (λ id. id < length self.now.entries) }
    {
        let mut node = self.root();
        if text.is_empty() {
            return None;
        }
        if text[0] != b'&' {
            return None;
        }
        let mut best = None;
        for byte in after_first_byte(text) {
            let Some(child) = self.child(node, *byte) else {
                return best;
            };
            node = child;
            best = self.name_at(node).or(best);
        }
        best
    }

    /// The first name without `;` for which the same name with `;` is missing or has other code points.
    pub(crate) fn first_lone(&self) -> Option<NameId>
        ensures found { option_map (λ id. (entry_at self.now.entries id).name) result
            ≡ first_lone self.now.entries self.now.entries }
        ensures inside { IfSome result (λ id. id < length self.now.entries) }
    {
        for number in 0..self.names.len() as u32 {
            let id = NameId::new(number);
            if self.is_lone(id) {
                return Some(id);
            }
        }
        None
    }

    /// Whether a name has no `;`, while the same name with `;` is missing or has other code points.
    fn is_lone(&self, id: NameId) -> bool
        requires { id < length self.now.entries }
        ensures { result ≡ is_lone self.now.entries (entry_at self.now.entries id) }
    {
        if is_closed(self.name(id)) {
            return false;
        }
        let Some(node) = self.child(self.node_of(id), b';') else {
            return true;
        };
        match self.name_at(node) {
            Some(closed) => self.points(closed) != self.points(id),
            None => true,
        }
    }
}
