//! Compares piece by piece what is printed with what is expected.
use hm_tree::Attrs;
use std::fmt::{self, Debug, Display, Write};

/// The expected text once something else was printed. Nothing that is printed contains it.
const OTHER: &str = "\0";

/// The rest of the expected text after this text.
pub(crate) fn after<'w>(wanted: &'w str, text: &str) -> &'w str {
    wanted.strip_prefix(text).unwrap_or(OTHER)
}

/// The rest of the expected text after ` name=[value]` for each attribute.
pub(crate) fn after_attributes<'w>(wanted: &'w str, attrs: &Attrs) -> &'w str {
    let mut rest = wanted;
    for i in 0..attrs.len() {
        let (name, value) = attrs.at(i);
        rest = after(after(rest, " "), name);
        rest = after(after(after(rest, "=["), value), "]");
    }
    rest
}

/// A writer that compares what is written with what is expected.
#[derive(Clone, Copy)]
struct Wanted<'w> {
    rest: &'w str,
}

impl Write for Wanted<'_> {
    fn write_str(&mut self, text: &str) -> fmt::Result {
        self.rest = after(self.rest, text);
        Ok(())
    }
}

/// The rest of the expected text after a value that is printed by `{}`.
pub(crate) fn after_shown<'w>(wanted: &'w str, value: &impl Display) -> &'w str {
    let mut left = Wanted { rest: wanted };
    match write!(left, "{value}") {
        Ok(()) => left.rest,
        Err(_) => OTHER,
    }
}

/// The rest of the expected text after a value that is printed by `{:?}`.
pub(crate) fn after_value<'w>(wanted: &'w str, value: &impl Debug) -> &'w str {
    let mut left = Wanted { rest: wanted };
    match write!(left, "{value:?}") {
        Ok(()) => left.rest,
        Err(_) => OTHER,
    }
}

/// Whether a value is printed so by `{}`.
pub(crate) fn is_shown(wanted: &str, value: &impl Display) -> bool {
    after_shown(wanted, value).is_empty()
}

/// Whether a value is printed so by `{:?}`.
pub(crate) fn is_value(wanted: &str, value: &impl Debug) -> bool {
    after_value(wanted, value).is_empty()
}

/// Whether bytes are those of three texts, one after the other.
pub(crate) fn are_those_of(bytes: &[u8], one: &str, two: &str, three: &str) -> bool {
    match bytes.strip_prefix(one.as_bytes()) {
        Some(rest) => rest.strip_prefix(two.as_bytes()) == Some(three.as_bytes()),
        None => false,
    }
}
