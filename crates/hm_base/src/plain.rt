//! Plain types that several crates share.
use std::alloc::{AllocError, AllocFailed};
use std::convert::AsStr;
use std::marker::Model;

/// An allocation failed: the error of each call that fails for no other reason.
#[derive(Clone, Copy, Debug, PartialEq, Eq)]
pub struct OutOfMemory;

impl From<AllocError> for OutOfMemory {
    fn from(_error: AllocError) -> Self {
        OutOfMemory
    }
}

impl<T: Drop> From<AllocFailed<T>> for OutOfMemory {
    fn from(_error: AllocFailed<T>) -> Self {
        OutOfMemory
    }
}

/// A text with its own memory. Contracts see the list of its bytes.
#[derive(Debug, Drop)]
pub struct OwnedText {
    pub text: String,
}

impl Model for OwnedText {
    ghost use Rattle.std.specs.Prelude.{ℕ, List, string_bytes};

    ghost Value = { List ℕ };

    ghost view = { λ word. string_bytes word.text };
}

impl AsStr for OwnedText {
    ghost text = { λ word. word };

    fn as_str(&self) -> &str {
        self.text.as_str()
    }
}

/// The one or two code points that a named character reference gives.
#[derive(Clone, Copy, PartialEq, Eq)]
pub struct Points {
    pub first: char,
    pub second: Option<char>,
}

/// Which rewrites of the tree are made.
#[derive(Clone, Copy, PartialEq, Eq)]
pub struct TreeOptions {
    pub doctype: bool,
    pub comments: bool,
    pub booleans: bool,
    pub empty: bool,
    pub redundant: bool,
    pub space: bool,
    pub conservative: bool,
}

/// Which spellings are allowed.
#[derive(Clone, Copy, PartialEq, Eq)]
pub struct SpellRules {
    pub omit: bool,
    pub unquote: bool,
    pub tight: bool,
    pub ascii: bool,
    pub frame: bool,
}

/// Which layers a certificate has, and of which graph.
#[derive(Clone, Copy, PartialEq, Eq)]
pub enum Format {
    /// Every layer.
    Full,
    /// The first, the last, and all others but those with exactly one state that has exactly one edge.
    Compact,
    /// In the graph without dominated edges: the first, the last, and those in which at least one state has no edge or
    /// more than one.
    Sparse,
}
