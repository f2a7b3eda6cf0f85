//! What all crates share: rules of refusal, limits, plain types, and the text of a page.
#![tactic(auto)]

mod limits;
mod plain;
mod rules;
mod source;
mod spaces;

pub use limits::{
    ATTRIBUTE_LIMIT, CERTIFICATE_LIMIT, DEPTH_LIMIT, JSON_LIMIT, OUTPUT_LIMIT, PAGE_LIMIT,
    TABLE_LIMIT,
};
pub use plain::{Format, OutOfMemory, OwnedText, Points, SpellRules, TreeOptions};
pub use rules::{Refused, Rule};
pub use source::{SourceText, TextFault};
pub use spaces::{
    begins_with_space, is_blank, is_digit, is_space, is_space_byte, leading_space, split_space,
};
