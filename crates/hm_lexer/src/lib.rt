//! The lexer: the next token of a page's text, in a mode, with its place (HTML Standard, #tokenization).
#![tactic(auto)]

mod inside;
pub mod laws;
mod lexer;
mod modes;
mod ordinary;
mod parts;

pub use lexer::Lexer;
pub use modes::{Mode, RawName, RcdataName};
