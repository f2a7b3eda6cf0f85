//! Rows of tables: how a line is cut, how printed values are compared, and how a row is asserted.
use std::fmt::{self, Debug, Write};
use std::process::Abort;

/// The expected text once something else was printed. Nothing that is printed contains it.
const OTHER: &str = "\0";

/// The parts of a line before and after its first mark. Without a mark the second part is `?`, which no row expects.
pub(crate) fn cut<'t>(line: &'t str, mark: &str) -> (&'t str, &'t str) {
    line.split_once(mark).unwrap_or((line, "?"))
}

/// The rest of the expected text after this text.
pub(crate) fn after<'w>(wanted: &'w str, text: &str) -> &'w str {
    wanted.strip_prefix(text).unwrap_or(OTHER)
}

/// A writer that compares what is written with what is expected.
#[derive(Clone, Copy)]
struct Wanted<'w> {
    rest: &'w str,
}

impl Write for Wanted<'_> {
    fn write_str(&mut self, text: &str) -> fmt::Result {
        self.rest = after(self.rest, text);
        Ok(())
    }
}

/// The rest of the expected text after a value that is printed by `{:?}`.
pub(crate) fn after_value<'w>(wanted: &'w str, value: &impl Debug) -> &'w str {
    let mut left = Wanted { rest: wanted };
    match write!(left, "{value:?}") {
        Ok(()) => left.rest,
        Err(_) => OTHER,
    }
}

/// Whether a value is printed so by `{:?}`.
pub(crate) fn is_value(wanted: &str, value: &impl Debug) -> bool {
    after_value(wanted, value).is_empty()
}

/// Asserts that a row holds. A failure is printed with the row.
pub(crate) fn expect(rt: &impl Abort, holds: bool, row: &str) {
    assert!(rt; holds, "{row}");
}
