//! The edges of one unit from one state, in code: states, units and pieces as a writer holds them, and steps over bytes.
#![tactic(auto)]

mod characters;
mod edges;
pub mod laws;
mod lengths;
mod pieces;
mod sections;
mod states;
mod steps;
mod units;

pub use edges::find_edges;
pub use lengths::piece_len;
pub use pieces::{Edge, Piece, Quoting};
pub use states::{Pending, Spot, State, Where};
pub use steps::{may_end, step};
pub use units::{Need, Needs, TextKind, Unit};
