//! The line and column of a byte of a text, the part of its line that is printed, and the lines of `explain`.
#![tactic(auto)]

mod explanation;
mod place;
mod sentences;
mod shown;

pub use explanation::{explained_page, settled_line};
pub use place::{Location, is_char_start, location_of, without_mark};
pub use shown::{AFTER_PLACE, BEFORE, ShownLine, shown_line};
