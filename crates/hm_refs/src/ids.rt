//! Numbers of names and of nodes.
ghost use Rattle.std.specs.Prelude.{◌≡◌};

use std::marker::Model;

/// A name of a table: its number in byte order. It is only meant for the table that gave it.
#[derive(Clone, Copy, Debug, PartialEq, Eq)]
pub struct NameId {
    number: u32,
}

impl Model for NameId {
    ghost use Rattle.std.specs.Prelude.{ℕ};

    ghost Value = { ℕ };

    ghost view = { λ id. id.number };

    ghost inverse = { λ n. record { number = n } };
}

impl NameId {
    /// The name with this number.
    pub(crate) fn new(number: u32) -> NameId
        ensures { result ≡ number }
    {
        NameId { number }
    }

    /// The number of the name, as an index.
    pub(crate) fn index(self) -> usize
        ensures { result ≡ self }
    {
        self.number as usize
    }
}

/// A node of a table's trie: bytes that at least one name starts with, the `&` included. It is only meant for the table
/// that gave it.
#[derive(Clone, Copy, Debug, PartialEq, Eq)]
pub struct Node {
    number: u32,
}

impl Model for Node {
    ghost use Rattle.std.specs.Prelude.{ℕ};

    ghost Value = { ℕ };

    ghost view = { λ node. node.number };

    ghost inverse = { λ n. record { number = n } };
}

impl Node {
    /// The node with this number.
    pub(crate) fn new(number: u32) -> Node
        ensures { result ≡ number }
    {
        Node { number }
    }

    /// The number of the node, as an index.
    pub(crate) fn index(self) -> usize
        ensures { result ≡ self }
    {
        self.number as usize
    }
}
