//! Tests of the crates that write the shortest text of a tree and check it.
#![tactic(auto)]

#[cfg(test)]
mod cert;
#[cfg(test)]
mod check;
#[cfg(test)]
mod edges;
#[cfg(test)]
mod layers;
#[cfg(test)]
mod made;
#[cfg(test)]
mod order;
#[cfg(test)]
mod pages;
#[cfg(test)]
mod parts;
#[cfg(test)]
mod rows;
