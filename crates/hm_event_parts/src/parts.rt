//! A part of an event.
use hm_edges::{TextKind, Unit};

/// A part of an event: one unit, or the characters of a text or value.
#[derive(Clone, Copy, Debug)]
pub enum Part<'t> {
    /// A unit that is no character and opens no value. `own` is its name, or its bytes without a choice.
    One { unit: Unit, own: &'t str },
    /// The name of an attribute, its `=` and what opens its value. The value isn't empty.
    Opening { name: &'t str, value: &'t str },
    /// A comment. `text` is without `<!--` and `-->`.
    Comment { text: &'t str },
    /// Characters, each of them a unit.
    Chars { kind: TextKind, text: &'t str },
}
