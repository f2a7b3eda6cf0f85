//! What a run reads: a table of names and the tree of a page, of a fragment, of JSON or of a number, or why there is
//! none.
#![tactic(auto)]

mod explained;
mod input;
mod loads;
mod unread;

pub use explained::{Found, load_explained};
// Handed on from crates/hm_fragment/src, for hm_minify, which doesn't list that crate.
pub use hm_fragment::{front, read_fragment};
pub use input::{Input, load_input};
pub use unread::InputFault;
