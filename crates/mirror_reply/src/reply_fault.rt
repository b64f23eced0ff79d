//! Why a mirror's bytes hold no reply.

use thiserror::Error;

/// Why a mirror's bytes hold no reply. Its text says so in words.
#[derive(Clone, Copy, Debug, PartialEq, Eq, Error)]
pub enum ReplyFault {
    /// What comes up to the first empty line isn't the head of a response with at most 64 fields, or no empty line comes
    /// within 8,192 bytes.
    #[error("the mirror's response has no valid head")]
    BadHead,
    /// The status is this one, and not 200.
    #[error("the mirror answered with status {0}")]
    BadStatus(u16),
    /// There isn't exactly one `Content-Length`, of 1 to 19 digits, or there is a `Transfer-Encoding` or a
    /// `Content-Encoding`.
    #[error("the mirror's response doesn't say how long it is")]
    BadLength,
    /// `Content-Length` is over the limit.
    #[error("the mirror's response is too long")]
    TooLong,
    /// The body has fewer than 40 bytes, or the answer is longer than what is left of it.
    #[error("the mirror's response has another form")]
    BadBody,
    /// The mirror ended before the head or the body was whole.
    #[error("the mirror closed the connection early")]
    ClosedEarly,
}
