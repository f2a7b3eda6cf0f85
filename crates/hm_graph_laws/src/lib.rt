//! The layered graph of the spellings of a tree: its units, states and edges, its ways and prices. Only definitions and
//! laws; nothing runs.
#![tactic(auto)]

pub mod attributes;
pub mod characters;
pub mod edges;
pub mod pending;
pub mod plain_characters;
pub mod prices;
