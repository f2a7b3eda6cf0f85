//! The layered graph of one tree, as the program holds it: each step between two layers is made once and numbered, and kept as runs
//! of equal ones.
#![tactic(auto)]

mod along;
mod build;
mod building;
mod copied;
mod dominated;
mod equal;
mod forms;
mod graph;
mod hops;
mod interned;
pub mod laws;
mod layer;
mod made;
mod numbers;
mod pairs;
mod plain;
mod rules;
mod step;
mod still;
mod told;
mod values;
mod visitors;
mod walked;

pub use build::walk;
pub use graph::{Cursor, Graph, Passed};
pub use hops::Hop;
pub use step::Step;
pub use visitors::Visitor;
pub use walked::Walked;
