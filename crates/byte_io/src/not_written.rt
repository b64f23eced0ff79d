//! Why a text isn't written whole.

use thiserror::Error;

/// A writer failed or took nothing, so a text wasn't written whole: no more than a beginning of it was.
#[derive(Clone, Copy, Debug, PartialEq, Eq, Error)]
#[error("device")]
pub struct NotWritten;
