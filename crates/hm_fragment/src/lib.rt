//! Fragments: the content of `body` without a page around it.
#![tactic(auto)]

pub mod laws;
mod reader;

pub use reader::{front, read_fragment};
