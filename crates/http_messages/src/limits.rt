//! Limits of requests.

/// The number of bytes that the head of a request may have.
pub const HEAD_LIMIT: usize = 8192;

/// The number of fields that the head of a request may have.
pub const FIELD_LIMIT: usize = 64;

/// The number of line feeds that the head of a request may have: that of the request line, one for each field,
/// and that of the empty line.
pub const LINE_LIMIT: usize = FIELD_LIMIT + 2;

/// The number of bytes that the body of a request may have.
pub const BODY_LIMIT: u64 = 1_048_576;

/// The number of digits that a field `Content-Length` may have.
pub const DIGIT_LIMIT: usize = 19;
