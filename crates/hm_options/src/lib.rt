//! Rewrites a tree by the options: six rewrites in their order, in place. The rewrite of whitespace is a pass of its
//! own.
#![tactic(auto)]

mod attributes;
mod joining;
pub mod laws;
mod names;
mod rules;
pub mod space_laws;
mod spaces;
mod top;
mod walk;

pub use top::rewrite;
pub use walk::collapse;
