//! Loads a page: its tree is built while its bytes are read from a store, so that neither all its bytes nor all its
//! text are in memory.
#![tactic(auto)]

mod fault;
mod page;
mod spaced;

pub use fault::PageLoadFault;
// Handed on from crates/hm_build/src, for hm_input and hm_piece_cases, which don't list that crate.
pub use hm_build::{PageParser, parse, parse_closed};
pub use page::load_page;
