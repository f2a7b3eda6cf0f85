//! The checker: whether a certificate shows that a text is the shortest of a tree. The two may come from any source.
#![tactic(auto)]

mod bounds;
mod checks;
mod followed;
pub mod laws;
mod layers;
mod rows;
mod sweep;
mod trees;
mod verdicts;

pub use checks::{check, check_settled};
pub use verdicts::{Verdict, Why};
