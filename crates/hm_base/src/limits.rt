//! Each limit of what is read and written, in one place. Code and definitions cite these.

/// The most bytes of a page.
pub const PAGE_LIMIT: u32 = 16_777_216;

/// The most bytes of a table of named character references.
pub const TABLE_LIMIT: u32 = 1_048_576;

/// The most bytes of an output that is checked. No longer text is read, whatever limit the caller gives.
pub const OUTPUT_LIMIT: u32 = 67_108_864;

/// The most bytes of a certificate that is checked.
pub const CERTIFICATE_LIMIT: u32 = 268_435_456;

/// The most bytes of a tree in JSON.
pub const JSON_LIMIT: u32 = 67_108_864;

/// The most attributes that may be written in one tag, repeats counted.
pub const ATTRIBUTE_LIMIT: u32 = 256;

/// The most elements that are open at once.
pub const DEPTH_LIMIT: u32 = 512;
