//! The lines of a tree, as `tree` prints them, written to a sink in pieces.
#![tactic(auto)]

mod buffer;
mod lines;
mod runs;
mod shown;

pub use buffer::Buffer;
pub use shown::Shown;
