//! Tests of the crates that read a page and keep a tree. They are outside of those crates, so that each of them is
//! proved once.
#![tactic(auto)]

#[cfg(test)]
mod dump;
#[cfg(test)]
mod elements;
#[cfg(test)]
mod fragment;
#[cfg(test)]
mod json;
#[cfg(test)]
mod lexer;
#[cfg(test)]
mod long_starts;
#[cfg(test)]
mod mark_scan;
#[cfg(test)]
mod printed;
#[cfg(test)]
mod refs;
#[cfg(test)]
mod rows;
#[cfg(test)]
mod settle;
#[cfg(test)]
mod source;
#[cfg(test)]
mod tag_scan;
#[cfg(test)]
mod text_scan;
#[cfg(test)]
mod tree;
