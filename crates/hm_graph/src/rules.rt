//! The rules that decide which edges a graph has.
use hm_base::{Format, SpellRules};

/// The rules by which a tree may be written, and the format of the graph.
#[derive(Clone, Copy)]
pub(crate) struct EdgeRules {
    pub(crate) spell: SpellRules,
    pub(crate) format: Format,
}
