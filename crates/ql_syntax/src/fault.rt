//! Refusals of queries.

use crate::cause::QlCause;
use thiserror::Error;

/// A text that is no query: the cause, and the place in the text.
///
/// Its text is the code and the place, as `Q7 byte 5`. Out of memory has no place and stands at byte 0.
#[derive(Clone, Copy, Debug, PartialEq, Eq, Error)]
#[error("{cause} byte {byte}")]
pub struct QlFault {
    /// Why it is none.
    pub cause: QlCause,
    /// The place in the text, in bytes from 0.
    pub byte: usize,
}
