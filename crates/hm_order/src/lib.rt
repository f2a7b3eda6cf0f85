//! The order of a tag's attributes in which the tag is shortest: what an attribute costs by its place, which one goes last, and the
//! tree with the attributes of each tag in that order.
#![tactic(auto)]

mod costs;
pub mod laws;
mod orders;
mod scan;
mod tags;

pub use costs::{AttrCost, attr_cost, best_last};
// Handed on from crates/hm_shortest/src, for hm_minify, which doesn't list that crate.
pub use hm_shortest::{Minified, minify_tree};
pub use orders::reorder;
