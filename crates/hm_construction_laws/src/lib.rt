//! Laws of tree construction: what each token does, what the tree of a page is, and that it is settled. Nothing runs.
#![tactic(auto)]

pub mod laws;
