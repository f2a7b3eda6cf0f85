//! A table whose names and trie are constants of the program.
ghost use Rattle.std.specs.Prelude.{◌≡◌, ◌≤◌, true, length, option_to_list, IfOk};
ghost use Rattle.hm_refs.specs.Nodes.{entries_of};
ghost use Rattle.hm_refs.specs.Ready.{IsReady, are_cut, entries_from, nodes_from, second_of};

use crate::ids::{NameId, Node};
use crate::nodes::{ReferenceName, TrieNode};
use crate::text::NameText;
use hm_base::{OutOfMemory, Points};
use std::alloc::Global;

/// Names with their code points, in byte order. Each list has an item for each name.
#[derive(Clone, Copy)]
pub struct ReadyNames {
    /// The bytes of all names, one after the other, each with its `&`.
    pub text: &'static str,
    /// The length of each name in bytes.
    pub lengths: &'static [u8],
    /// The first code point of each name.
    pub firsts: &'static [char],
    /// The second code point of each name, or U+0000.
    pub seconds: &'static [char],
}

/// The trie of such names: a node for each prefix of a name. Shorter ones come first, and those of one length are in
/// byte order. `places` has an item for each name, the other lists have one for each node.
#[derive(Clone, Copy)]
pub struct ReadyNodes {
    /// The number of the first name that starts with the bytes of the node.
    pub names: &'static [u16],
    /// How many bytes the node has after the `&`.
    pub depths: &'static [u8],
    /// The last byte of the node.
    pub bytes: &'static [u8],
    /// How many children the node has. Children are neighbours, in the order of their parents.
    pub counts: &'static [u8],
    /// The node of each name.
    pub places: &'static [u16],
}

/// Such names in the order of their first code points. Names with the same one are in byte order.
#[derive(Clone, Copy)]
pub struct ReadyIndex {
    /// The first code points.
    pub points: &'static [char],
    /// The numbers of the names, in that order.
    pub names: &'static [u16],
}

/// A second code point, which U+0000 isn't.
fn second(point: char) -> Option<char>
    ensures { option_to_list result ≡ second_of point }
{
    if point == '\0' { None } else { Some(point) }
}

/// The names with their code points.
pub(crate) fn names_of(alloc: Global, ready: ReadyNames) -> Result<Vec<ReferenceName>, OutOfMemory>
    requires cut { are_cut ready.text.now ready.lengths.now ≡ true }
    requires firsts { length ready.lengths.now ≤ length ready.firsts.now }
    requires seconds { length ready.lengths.now ≤ length ready.seconds.now }
    ensures { IfOk result
        (λ names. entries_of names.items
        ≡ entries_from ready.text.now ready.lengths.now ready.firsts.now ready.seconds.now) }
{
    let mut names = Vec::with_capacity(alloc, ready.lengths.len())?;
    let mut rest = ready.text;
    for number in 0..ready.lengths.len() {
        let (text, after) = rest.split_at(ready.lengths[number] as usize);
        names.push(ReferenceName {
            text: NameText::ready(text),
            points: Points {
                first: ready.firsts[number],
                second: second(ready.seconds[number]),
            },
        })?;
        rest = after;
    }
    Ok(names)
}

/// The nodes. None has the name that has just its bytes yet.
pub(crate) fn nodes_of(alloc: Global, ready: ReadyNodes) -> Result<Vec<TrieNode>, OutOfMemory>
    requires few { length ready.names.now ≤ 65536 }
    requires depths { length ready.names.now ≤ length ready.depths.now }
    requires bytes { length ready.names.now ≤ length ready.bytes.now }
    requires counts { length ready.names.now ≤ length ready.counts.now }
    ensures { IfOk result
        (λ nodes. nodes.items
        ≡ nodes_from 1 ready.names.now ready.depths.now ready.bytes.now ready.counts.now) }
{
    let mut nodes = Vec::with_capacity(alloc, ready.names.len())?;
    let mut first = 1;
    for number in 0..ready.names.len() {
        let count = ready.counts[number] as u32;
        nodes.push(TrieNode {
            name: ready.names[number] as u32,
            depth: ready.depths[number] as u32,
            ends: None,
            byte: ready.bytes[number],
            first,
            count,
        })?;
        first += count;
    }
    Ok(nodes)
}

/// The names with these numbers.
pub(crate) fn ids_of(alloc: Global, numbers: &[u16]) -> Result<Vec<NameId>, OutOfMemory>
    ensures { IfOk result (λ ids. ids.items ≡ numbers.now) }
{
    let mut ids = Vec::with_capacity(alloc, numbers.len())?;
    for number in numbers {
        ids.push(NameId::new(*number as u32))?;
    }
    Ok(ids)
}

/// The nodes with these numbers, one for each name.
pub(crate) fn places_of(alloc: Global, numbers: &[u16]) -> Result<Vec<Node>, OutOfMemory>
    ensures { IfOk result (λ places. places.items ≡ numbers.now) }
{
    let mut places = Vec::with_capacity(alloc, numbers.len())?;
    for number in numbers {
        places.push(Node::new(*number as u32))?;
    }
    Ok(places)
}
