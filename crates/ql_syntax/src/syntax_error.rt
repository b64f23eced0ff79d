//! Places at which a text can't go on.

ghost use Rattle.std.specs.Prelude.{◌≡◌};
ghost use Rattle.ql_syntax.specs.declared.cause.QlCause.TheVariants as causes;

use crate::cause::QlCause;
use std::alloc::AllocError;

/// A place at which a text can't go on as a query: why, and what is left from there on.
#[derive(Clone, Copy)]
pub(crate) struct SyntaxError<'a> {
    /// Why it can't go on.
    pub(crate) cause: QlCause,
    /// The text from that place to its end.
    pub(crate) rest: &'a [u8],
}

impl<'a> SyntaxError<'a> {
    /// The error for this cause in front of this rest.
    pub(crate) fn at(cause: QlCause, rest: &'a [u8]) -> SyntaxError<'a>
        ensures cause { result.cause ≡ cause }
        ensures rest { result.rest.now ≡ rest.now }
    {
        SyntaxError { cause, rest }
    }
}

impl<'a> From<AllocError> for SyntaxError<'a> {
    ghost from_gives = { λ _ error. error.cause ≡ causes.Memory };

    fn from(_error: AllocError) -> SyntaxError<'a> {
        SyntaxError::at(QlCause::Memory, &[])
    }
}
