//! Limits of relaying.

/// The number of bytes that the body of a mirror's response may have: the root, the length of the answer, the answer and
/// the proof.
pub const REPLY_LIMIT: u64 = 268_435_456;

/// The number of bytes that one read of a client may give.
pub(crate) const CLIENT_PIECE: usize = 8192;

/// The number of bytes that one read of a mirror may give.
pub(crate) const MIRROR_PIECE: usize = 65_536;

/// The number of conversations that may be open at a time.
pub const CONVERSATION_LIMIT: usize = 64;
