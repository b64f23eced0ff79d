//! Limits of what is asked and taken.

/// How many connections there are at most. It is what browsers open to one server over HTTP/1.1.
pub const WIRES: usize = 6;

/// The number of bytes that the head of a response may have.
pub const HEAD_LIMIT: usize = 8192;

/// The number of fields that the head of a response may have.
pub const FIELD_LIMIT: usize = 64;

/// The number of interim responses that are passed over before a response.
pub const INTERIM_LIMIT: u32 = 4;

/// How many bytes the first request asks for: the header of a pack and the upper levels of its trees come with it.
pub const FRONT_LEN: u64 = 65_536;

/// How many bytes may lie between two places that are asked for together. Asking for another range costs about 500 bytes, a
/// request and the head of its response, and a server's time for it; the bytes of a small gap cost less than both.
pub const GAP_LIMIT: u64 = 4096;

/// How long a range may get by joining places. Longer ones would leave connections idle.
pub const SPAN_LIMIT: u64 = 262_144;

/// How many requests are sent over a connection before the first answer is read.
pub const DEPTH_LIMIT: usize = 128;

/// How many bytes of requests are sent over a connection before the first answer is read. The buffers of two sockets take so
/// many even if the server reads none of them, so that sending never waits for a server that itself waits for its answers to
/// be read.
pub const REQUESTS_LIMIT: usize = 16_384;

/// How often a span is asked for ahead, where connections are closed before the answer.
pub const TRIES: u32 = 3;

/// The number of bytes that one read may give.
pub const PIECE_LIMIT: usize = 65_536;
