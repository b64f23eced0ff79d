//! Limits of connections.

/// The number of reads after which a connection that doesn't end is given up.
pub(crate) const READ_LIMIT: u32 = 1_048_576;

/// The number of bytes that one read of a connection may give.
pub(crate) const PIECE_LIMIT: usize = 8192;

/// An answer or a proof that has more bytes is moved to its response, and not copied: 64 MiB.
pub(crate) const LARGE_ANSWER: usize = 67_108_864;
