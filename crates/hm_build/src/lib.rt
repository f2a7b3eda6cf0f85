//! The tree of a page: `parse` reads a text token by token, and builds the tree from the tokens.
#![tactic(auto)]

mod fed;
mod page;
mod places;
mod ready;
mod tokens;

pub use fed::PageParser;
pub use page::{parse, parse_closed};
