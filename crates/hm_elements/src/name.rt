//! The number of a name.
ghost use Rattle.std.specs.Prelude.{◌≡◌, ◌==◌, ◌<◌, length};
ghost use Rattle.hm_elements.specs.Texts.{texts};
ghost use Rattle.hm_elements.specs.declared.names.TheConstants.{NAME_COUNT};
ghost use Rattle.hm_elements.specs.declared.slots.TheConstants.{SLOTS};
ghost use Rattle.hm_elements.specs.Numbers.{names, number_of, text_of, slot, number_at};

use crate::look_up::same_name;
use crate::names::NAMES;
use crate::slots::{BY_FIRST, BY_HALF, BY_LAST, BY_LENGTH, BY_THIRD, SLOTS};

/// The number of a name of the tables. 0 is that of any other name.
#[derive(Clone, Copy)]
pub struct Name {
    number: u8,
    ghost in_range: { number < NAME_COUNT },
}

impl Name {
    /// The number of this name.
    #[tactic(auto, using(crate::proofs::Finding::found, crate::proofs::Finding::missed, crate::proofs::Finding::number_of_empty, crate::proofs::Finding::text_at))]
    pub fn of(text: &str) -> Name
        ensures { result.number ≡ number_of text.now }
    {
        if text.is_empty() {
            return Name { number: 0 };
        }
        let number = candidate(text.as_bytes());
        if same_name(names()[number as usize], text) {
            Name { number }
        } else {
            Name { number: 0 }
        }
    }

    /// The name with this number.
    pub(crate) fn with(number: u8) -> Name
        requires { number < NAME_COUNT }
        ensures { result.number ≡ number }
    {
        Name { number }
    }

    /// Whether it is none of the names of the tables.
    pub fn is_other(self) -> bool
        ensures { result ≡ (self.number == 0) }
    {
        self.number == 0
    }

    /// The number, as a place in tables.
    pub(crate) fn place(self) -> usize
        ensures number { result ≡ self.number }
        ensures in_range { result < NAME_COUNT }
    {
        self.number as usize
    }

    /// The name, if it is one of the tables, else no text.
    #[tactic(auto, using(crate::proofs::Finding::text_at))]
    pub fn text(self) -> &'static str
        ensures { result.now ≡ text_of self.number }
    {
        names()[self.number as usize]
    }
}

/// The names of the tables.
fn names() -> &'static [&'static str]
    ensures names { texts result.now ≡ names }
    ensures many { length result.now ≡ NAME_COUNT }
{
    &NAMES
}

/// The table of numbers.
fn slots() -> &'static [u8]
    ensures slots { result.now ≡ SLOTS }
    ensures many { length result.now ≡ 2048 }
{
    &SLOTS
}

/// The number of the only name of the tables that this can be.
#[tactic(auto, using(crate::proofs::SlotFacts::number_at_below, crate::proofs::SlotFacts::number_at_is))]
fn candidate(text: &[u8]) -> u8
    requires { 0 < length text.now }
    ensures number { result ≡ number_at (slot text.now) }
    ensures in_range { result < NAME_COUNT }
{
    slots()[slot_of(text)]
}

/// The place of a name in the table of numbers.
#[tactic(auto, unfolding(crate::specs::Numbers::slot))]
fn slot_of(text: &[u8]) -> usize
    requires { 0 < length text.now }
    ensures slot { result ≡ slot text.now }
    ensures in_range { result < 2048 }
{
    let count = text.len();
    (count % 32 * BY_LENGTH
        + text[0] as usize * BY_FIRST
        + text[count / 3] as usize * BY_THIRD
        + text[count / 2] as usize * BY_HALF
        + text[count - 1] as usize * BY_LAST)
        % 2048
}
