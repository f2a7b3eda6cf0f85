//! How a tree is written.
use hm_base::SpellRules;

/// How a tree is written: the spellings that are allowed, whether its certificate is a sparse one, and whether the
/// attributes of each tag are put into the order that makes the tag shortest.
#[derive(Clone, Copy, PartialEq, Eq)]
pub struct Writing {
    pub rules: SpellRules,
    pub sparse: bool,
    pub order: bool,
}
