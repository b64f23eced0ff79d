//! Why numbers, texts and parts make no value of the model.

use thiserror::Error;

/// A refusal of the model. Its text is its code.
#[derive(Clone, Copy, Debug, PartialEq, Eq, Error)]
pub enum ModelFault {
    /// A number without any text.
    #[error("M1")]
    EmptyNumber,
    /// A text that is no decimal.
    #[error("M2")]
    NotDecimal,
    /// A decimal with more than seven decimals.
    #[error("M3")]
    TooManyDecimals,
    /// Degrees outside the range of their axis.
    #[error("M4")]
    OutOfRange,
    /// A box whose southern edge is above its northern one.
    #[error("M5")]
    SouthAboveNorth,
    /// An object that stands twice in a set.
    #[error("M6")]
    ObjectTwice,
    /// A key that stands twice among the tags of an object.
    #[error("M7")]
    KeyTwice,
    /// A text, a list or a canonical line over its limit.
    #[error("M8")]
    LimitPassed,
    /// A NUL in a text.
    #[error("M9")]
    NulInText,
}
