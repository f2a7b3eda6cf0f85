//! Laws of tokens: what the next token of a text is, in a mode. Nothing runs.
#![tactic(auto)]

pub mod laws;
