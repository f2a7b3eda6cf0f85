//! The page of `measure`: a page of any size, generated from a number.
#![tactic(auto)]

mod block;
pub mod laws;
mod pages;

pub use pages::page_of;
