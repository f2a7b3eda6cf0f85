//! The limit of a tree in JSON.

/// The most bytes of a tree in JSON.
pub const JSON_LIMIT: u32 = 67_108_864;
