//! The writer: the shortest text of a tree, with its certificate. Prices and choices are found from the last layer to
//! the first, then the text of the first least way is written.
#![tactic(auto)]

mod copied;
mod direct;
mod kept;
pub mod laws;
mod least;
mod minify;
mod owned;
mod paths;
mod plans;
mod stretches;
mod turned;

pub use least::least_price;
pub use minify::{Minified, minify_tree};
pub use paths::write_path;
pub use plans::{Plan, backward};
