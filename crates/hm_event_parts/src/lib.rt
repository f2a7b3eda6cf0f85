//! One event of a tree for the writer: its units with their own bytes and runs of characters, which tags may be
//! omitted, and the bytes that the pieces of edges write.
#![tactic(auto)]

mod adding;
mod attributes;
mod find;
mod found;
pub mod laws;
mod left_out;
mod likely;
mod neighbours;
mod omission;
mod parts;
mod pieces;
mod texts;

pub use find::find_parts;
pub use found::{Found, find_event};
pub use parts::Part;
pub use pieces::{UnitText, put_piece};
