//! The builder of a tree: what each token does in each insertion mode of the HTML Standard.
#![tactic(auto)]

mod before_body;
mod builder;
mod end_tag;
mod fault;
mod finish;
mod insertion;
mod make;
mod moves;
mod other;
mod parts;
mod start_tag;
mod text;

pub use builder::TreeBuilder;
pub use fault::BuildFault;
