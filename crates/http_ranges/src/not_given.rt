//! Why a server gave no bytes.

ghost use Rattle.std.specs.Prelude.{◌≡◌};
ghost use Rattle.http_ranges.specs.declared.not_given.NotGiven.TheVariants.{Memory};

use std::alloc::{AllocError, AllocFailed};
use thiserror::Error;

/// Why a server gave no bytes. Its text says so in words.
#[derive(Clone, Copy, Debug, PartialEq, Eq, Error)]
pub enum NotGiven {
    /// The server has no such file: status 404 or 410.
    #[error("the server has no such file")]
    Absent,
    /// The file is elsewhere: status 300 to 399. No other place is ever asked.
    #[error("the server refers to another place (status {0}), which isn't followed")]
    Redirected(u16),
    /// The server sends the file whole: status 200.
    #[error("the server doesn't give ranges of files")]
    NoRanges,
    /// Any other status than 206.
    #[error("the server answered with status {0}")]
    Status(u16),
    /// The response is no response, isn't of exactly the range that was asked for, or is coded.
    #[error("the server's response isn't of the range that was asked for")]
    Malformed,
    /// The file has another size than it had in the first response.
    #[error("the file was changed on the server while it was read")]
    Changed,
    /// The head of the response has more than 8,192 bytes.
    #[error("the head of the server's response is too long")]
    HeadTooLong,
    /// No connection was opened.
    #[error("the server can't be reached")]
    Unreached,
    /// Nothing was sent or came in time.
    #[error("the server went silent")]
    Silent,
    /// The connection was closed before any byte of a response came.
    #[error("the server closed the connection without a response")]
    Unanswered,
    /// The connection was closed within a response.
    #[error("the server closed the connection early")]
    ClosedEarly,
    /// An allocation was refused.
    #[error("no memory")]
    Memory,
}

impl From<AllocError> for NotGiven {
    ghost from_gives = { λ _ fault. fault ≡ Memory };

    fn from(_error: AllocError) -> NotGiven {
        NotGiven::Memory
    }
}

impl<T: Drop> From<AllocFailed<T>> for NotGiven {
    ghost from_gives = { λ _ fault. fault ≡ Memory };

    fn from(_error: AllocFailed<T>) -> NotGiven {
        NotGiven::Memory
    }
}
