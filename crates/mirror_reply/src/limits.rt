//! Limits of responses and of fetching.

/// The number of bytes that the head of a response may have.
pub(crate) const HEAD_LIMIT: usize = 8192;

/// The number of fields that the head of a response may have.
pub(crate) const FIELD_LIMIT: usize = 64;

/// The number of bytes of a root.
pub(crate) const ROOT_SIZE: usize = 32;

/// The number of bytes before the answer: the root, and the length of the answer in eight bytes.
pub(crate) const PREFIX_SIZE: usize = 40;

/// The number of bytes that are kept of a mirror's text, where its status isn't 200.
pub(crate) const TEXT_LIMIT: u64 = 200;

/// The number of reads after which a mirror that doesn't end is given up.
pub(crate) const READ_LIMIT: u32 = 1_048_576;

/// The number of bytes that one read may give.
pub(crate) const PIECE_LIMIT: usize = 65_536;
