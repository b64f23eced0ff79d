//! The limits of nodes and of the lists that have trees (this project's trees, docs/FORMATS.md).

/// The greatest number of items in a node.
pub const ITEM_LIMIT: usize = 64;

/// The greatest level of a node; leaves have level 0.
pub const LEVEL_LIMIT: u8 = 63;

/// The greatest number of entries that an inner node states of a child, 2^40.
pub const NUMBER_LIMIT: u64 = 1_099_511_627_776;

/// The greatest length of the key of an entry in a tree, in bytes.
pub const KEY_LIMIT: usize = 8_203;

/// The greatest length of the value of an entry in a tree, in bytes, 2^24.
pub const VALUE_LIMIT: usize = 16_777_216;

/// The greatest number of entries in a tree, 2^29.
pub const ENTRY_LIMIT: usize = 536_870_912;
