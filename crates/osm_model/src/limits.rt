//! The limits of texts, lists and lines (this project's, within the OpenStreetMap API 0.6).

/// The greatest length of a text, in bytes.
pub const TEXT_LIMIT: usize = 4_096;

/// The greatest number of items in a list.
pub const LIST_LIMIT: usize = 65_535;

/// The greatest length of an object's canonical line without its end, in bytes, 2^24.
pub const LINE_LIMIT: u64 = 16_777_216;
