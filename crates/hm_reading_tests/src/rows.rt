//! Rows of tables: how a line is cut, and how a row is asserted.
use std::process::Abort;

/// The parts of a line before and after its first mark. Without a mark the second part is `?`, which no row expects.
pub(crate) fn cut<'t>(line: &'t str, mark: &str) -> (&'t str, &'t str) {
    line.split_once(mark).unwrap_or((line, "?"))
}

/// Asserts that a row holds. A failure is printed with the row.
pub(crate) fn expect(rt: &impl Abort, holds: bool, row: &str) {
    assert!(rt; holds, "{row}");
}
