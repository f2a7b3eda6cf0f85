//! Specification of spellings: every way to write a tree, the relation that "shortest" refers to. Nothing runs.
#![tactic(auto)]
