//! What the arguments of a call ask for: a command with its files or numbers, and flags.
#![tactic(auto)]

mod commands;
mod flags;
mod line;
mod notices;
mod numbers;
mod usage;
mod words;
mod writing;

pub use commands::{Action, Source, row_of};
pub use flags::{Choices, FLAGS, Flag, Setting};
pub use notices::{Notice, notice_in};
pub use usage::usage_fault;
pub use words::{Asked, Origin, WordsFault, Work};
pub use writing::Writing;
