//! Laws of the round trip: each spelling of a settled tree by the written rules is a page with that tree. Nothing runs.
#![tactic(auto)]

pub mod line_ends;
pub mod tokens;
pub mod trees;
