//! The stack of open elements, and what a start tag or an end tag does to it.
#![tactic(auto)]

mod element;
mod moves;
mod open_elements;
mod path;
mod plan;

pub use moves::{Made, Moves, SettleFault};
pub use open_elements::OpenElements;
pub use path::Path;
