//! The limits of a head.

/// How many files a head may name.
pub const FILES_LIMIT: usize = 65_535;

/// How many bytes a file may have, 2^48.
pub const FILE_LEN_LIMIT: u64 = 281_474_976_710_656;

/// How many bytes the name of a file may have.
pub const NAME_LIMIT: usize = 255;
