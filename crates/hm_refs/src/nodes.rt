//! The names of a table in a trie: a vector of nodes, in which the children of each are neighbours.
ghost use Rattle.std.specs.Prelude.{◌≡◌, ◌<◌, ◌≤◌, [], ◌+◌, drop, length, OnOk, IfOk};
ghost use Rattle.hm_refs.specs.declared.limits.TheConstants.{LENGTH_LIMIT};
ghost use Rattle.hm_refs.specs.Nodes.{AreNames, AreWithin, IsFound, IsPut, IsSpread, IsWhole, Steps, adopted, entries_of};

use crate::ids::{NameId, Node};
use crate::limits::LENGTH_LIMIT;
use crate::text::NameText;
use hm_base::{OutOfMemory, Points};
use std::alloc::Global;

/// A name with its code points.
#[derive(Drop)]
pub(crate) struct ReferenceName {
    pub(crate) text: NameText,
    pub(crate) points: Points,
}

/// A node. Its bytes are `&` and the next `depth` bytes of the name with the number `name`.
#[derive(Drop)]
pub(crate) struct TrieNode {
    pub(crate) name: u32,
    pub(crate) depth: u32,
    /// The name whose bytes are those of this node.
    pub(crate) ends: Option<NameId>,
    /// The last of its bytes.
    pub(crate) byte: u8,
    /// The index of its first child. Children are in byte order.
    pub(crate) first: u32,
    /// How many children it has.
    pub(crate) count: u32,
}

impl TrieNode {
    /// Adds one more child after the others.
    fn adopt(&mut self, child: u32)
        requires { self.old.count < 4294967295 }
        ensures { self.new ≡ adopted self.old child }
    {
        if self.count == 0 {
            self.first = child;
        }
        self.count += 1;
    }
}

/// The child of the node `at` by `byte`.
pub(crate) fn find_child(nodes: &[TrieNode], at: usize, byte: u8) -> Option<Node>
    requires inside { at < length nodes.now }
    requires few { length nodes.now < 4294967296 }
    requires within { AreWithin nodes.now }
    ensures { IsFound nodes.now at byte result }
{
    let first = nodes[at].first;
    let end = first + nodes[at].count;
    for number in first..end {
        if nodes[number as usize].byte == byte {
            return Some(Node::new(number));
        }
    }
    None
}

/// The child of the node `at` by `byte`. If it isn't there, makes it, for the first `depth` bytes after the `&` of the
/// name `name`.
fn step(
    nodes: &mut Vec<TrieNode>,
    at: usize,
    byte: u8,
    name: u32,
    depth: u32,
) -> Result<Node, OutOfMemory>
    requires inside { at < length nodes.old.items }
    requires few { length nodes.old.items < 4294967295 }
    requires within { AreWithin nodes.old.items }
    ensures { IfOk result (λ child. Steps nodes.old.items nodes.new.items at byte name depth child) }
{
    if let Some(child) = find_child(nodes, at, byte) {
        return Ok(child);
    }
    let child = nodes.len() as u32;
    nodes.push(TrieNode {
        name,
        depth,
        ends: None,
        byte,
        first: 0,
        count: 0,
    })?;
    nodes[at].adopt(child);
    Ok(Node::new(child))
}

/// The bytes after the first one.
pub(crate) fn after_first_byte(text: &[u8]) -> &[u8]
    requires { 0 < length text.now }
    ensures { result.now ≡ drop 1 text.now }
{
    &text[1..]
}

/// Moves each name that has more than `depth` bytes after its `&` to the node of one byte more.
///
/// The names are in byte order, so those of one node are neighbours, and so are its children.
fn grow_deeper(
    names: &[ReferenceName],
    depth: u32,
    nodes: &mut Vec<TrieNode>,
    places: &mut [Node],
) -> Result<(), OutOfMemory>
    requires low { depth < LENGTH_LIMIT }
    requires spread { IsSpread (entries_of names.now) depth 0 nodes.old.items places.old }
    ensures { OnOk result (IsSpread (entries_of names.now) (depth + 1) 0 nodes.new.items places.new) }
{
    for number in 0..names.len() {
        let tail = after_first_byte(names[number].text.as_str().as_bytes());
        if (depth as usize) < tail.len() {
            let byte = tail[depth as usize];
            places[number] = step(
                nodes,
                places[number].index(),
                byte,
                number as u32,
                depth + 1,
            )?;
        }
    }
    Ok(())
}

/// Records in each node the name that has just its bytes.
pub(crate) fn mark_ends(names: &[ReferenceName], nodes: &mut [TrieNode], places: &[Node])
    requires { IsPut (entries_of names.now) 0 nodes.old places.now }
    ensures { IsWhole (entries_of names.now) nodes.new places.now }
{
    for (number, place) in places.iter().enumerate() {
        nodes[place.index()].ends = Some(NameId::new(number as u32));
    }
}

/// Makes the nodes of the names, and returns the node of each.
pub(crate) fn grow(
    alloc: Global,
    names: &[ReferenceName],
    nodes: &mut Vec<TrieNode>,
) -> Result<Vec<Node>, OutOfMemory>
    requires names { AreNames (entries_of names.now) }
    requires empty { nodes.old.items ≡ [] }
    ensures { IfOk result
        (λ places. IsWhole (entries_of names.now) nodes.new.items places.items) }
{
    nodes.push(TrieNode {
        name: 0,
        depth: 0,
        ends: None,
        byte: b'&',
        first: 0,
        count: 0,
    })?;
    let mut places = vec![in alloc; Node::new(0); names.len()]?;
    for depth in 0..LENGTH_LIMIT as u32 {
        grow_deeper(names, depth, nodes, &mut places)?;
    }
    mark_ends(names, nodes, &places);
    Ok(places)
}
