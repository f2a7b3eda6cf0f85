//! The limits of a table, each in one place: code and definitions cite these.

/// The most names.
pub const NAMES_LIMIT: usize = 4_096;

/// The most bytes of a name, the `&` included.
pub const LENGTH_LIMIT: usize = 64;

/// The most names with the same first code point.
pub const ALIKE_LIMIT: usize = 64;

/// The most names without `;` with the same first code point.
pub const OPEN_LIMIT: usize = 4;
