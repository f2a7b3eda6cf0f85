//! Tests of a run's inputs and outputs: arguments, stores and sinks.
#![tactic(auto)]

#[cfg(test)]
mod made;
#[cfg(test)]
mod store;
#[cfg(test)]
mod words;
