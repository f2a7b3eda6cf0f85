//! Laws of optimality: feasible prices bound every spelling of a settled tree, and the first least way is a shortest
//! one; the graph without dominated edges loses nothing; a value with some quotes is bounded by the value with others.
//! Nothing runs.
#![tactic(auto)]

pub mod forms;
pub mod sparse;
pub mod spellings;
