//! What a tag does to the open elements, or why it is refused.
ghost use Rattle.std.specs.Prelude.{◌≡◌, length, map};
ghost use Rattle.hm_elements.specs.Names.{table};
ghost use Rattle.hm_elements.specs.Nesting.{made_under};
ghost use Rattle.hm_elements.specs.Paths.{html_element};
ghost use Rattle.hm_open_elements.specs.Answers.{elements_of};
ghost use Rattle.hm_open_elements.specs.declared.moves.SettleFault.TheVariants as faults;

use hm_base::{OutOfMemory, Rule};
use hm_elements::{is_cell, is_section, same_name};
use std::alloc::AllocError;

/// The elements that a start tag makes before its own opens (HTML Standard, #parsing-main-intable,
/// #parsing-main-intbody).
#[derive(Clone, Copy, Debug, PartialEq, Eq)]
pub enum Made {
    Nothing,
    /// A `tbody`.
    Section,
    /// A `tbody` and a `tr` in it.
    SectionAndRow,
    /// A `tr`.
    Row,
    /// A `colgroup`.
    Colgroup,
}

impl Made {
    /// The elements that are made in this parent before an element of that name opens (#parsing-main-intable).
    #[tactic(auto, unfolding(crate::specs::Answers::elements_of, hm_elements::specs::Nesting::made_under))]
    pub(crate) fn under(parent: &str, name: &str) -> Made
        ensures { elements_of result ≡ map html_element (made_under parent.now name.now) }
    {
        if same_name(parent, "table") {
            Made::in_table(name)
        } else if is_section(parent) && is_cell(name) {
            Made::Row
        } else {
            Made::Nothing
        }
    }

    /// The elements that are made in a table before an element of that name opens.
    #[tactic(auto, unfolding(hm_elements::specs::Nesting::made_under))]
    fn in_table(name: &str) -> Made
        ensures { elements_of result ≡ map html_element (made_under table name.now) }
    {
        if name == "tr" {
            Made::Section
        } else if is_cell(name) {
            Made::SectionAndRow
        } else if name == "col" {
            Made::Colgroup
        } else {
            Made::Nothing
        }
    }

    /// How many elements are made.
    pub(crate) fn count(self) -> usize
        ensures { result ≡ length (elements_of self) }
    {
        match self {
            Made::Nothing => 0,
            Made::Section | Made::Row | Made::Colgroup => 1,
            Made::SectionAndRow => 2,
        }
    }
}

/// What a tag does to the open elements: how many it closes, and which it makes then.
#[derive(Clone, Copy, PartialEq, Eq)]
pub struct Moves {
    pub closes: u32,
    pub made: Made,
}

/// Why a tag isn't taken.
#[derive(Clone, Copy, PartialEq, Eq)]
pub enum SettleFault {
    /// This rule refuses the page.
    Rule { rule: Rule },
    /// An allocation failed.
    OutOfMemory,
}

impl From<Rule> for SettleFault {
    ghost from_gives = { λ rule fault. fault ≡ faults.Rule rule };

    fn from(rule: Rule) -> Self {
        SettleFault::Rule { rule }
    }
}

impl From<AllocError> for SettleFault {
    ghost from_gives = { λ _ fault. fault ≡ faults.OutOfMemory };

    fn from(_error: AllocError) -> Self {
        SettleFault::OutOfMemory
    }
}

impl From<OutOfMemory> for SettleFault {
    ghost from_gives = { λ _ fault. fault ≡ faults.OutOfMemory };

    fn from(_error: OutOfMemory) -> Self {
        SettleFault::OutOfMemory
    }
}
