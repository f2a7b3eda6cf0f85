//! Laws of generated pages: each is read, and its tree is settled. Nothing runs.
#![tactic(auto)]

pub mod laws;
