//! Specification of markup: how a doctype and a tag may be written, for a reader of existing pages and for the written rules.
//! Nothing runs.
#![tactic(auto)]
