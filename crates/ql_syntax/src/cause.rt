//! Causes for which a text is no query.

ghost use Rattle.std.specs.Prelude.{Some};
ghost use Rattle.ql_syntax.specs.Refusals.{code_text};

use std::fmt;

/// Why a text is no query. Its text is its code, from `Q1` to `Q11`, or `no memory`.
#[derive(Clone, Copy, Debug, PartialEq, Eq)]
pub enum QlCause {
    /// The text isn't UTF-8. At the first byte that isn't.
    NotUtf8,
    /// A character with which no query goes on, or NUL in a text between quotes. At that character.
    UnexpectedCharacter,
    /// A text between quotes, or a comment, that isn't closed. At its first byte.
    Unclosed,
    /// A bad escape. At its `\`.
    BadEscape,
    /// A word with which no query goes on, or what `out` takes once and has twice. At its first byte.
    UnexpectedWord,
    /// A number out of range, or a point in a number that is no edge of a box. At its first byte.
    NumberOutOfRange,
    /// What the Overpass query language has, and this project's profile of it has not. At its first
    /// byte.
    Unsupported,
    /// A 33rd `(` of unions and differences open at once. At that `(`.
    TooDeep,
    /// The text has more than 65,536 bytes. At byte 65,536.
    TooLong,
    /// A box with an edge out of its range, or with its south above its north. At its first number.
    BadBox,
    /// The text ends before the query does. At the text's length.
    UnexpectedEnd,
    /// Out of memory. At byte 0, whatever was read until then.
    Memory,
}

impl fmt::Display for QlCause {
    ghost output = { λ cause. Some (code_text cause) };

    fn fmt<W: fmt::Write>(&self, f: &mut fmt::Formatter<W>) -> fmt::Result {
        f.write_str(match self {
            QlCause::NotUtf8 => "Q1",
            QlCause::UnexpectedCharacter => "Q2",
            QlCause::Unclosed => "Q3",
            QlCause::BadEscape => "Q4",
            QlCause::UnexpectedWord => "Q5",
            QlCause::NumberOutOfRange => "Q6",
            QlCause::Unsupported => "Q7",
            QlCause::TooDeep => "Q8",
            QlCause::TooLong => "Q9",
            QlCause::BadBox => "Q10",
            QlCause::UnexpectedEnd => "Q11",
            QlCause::Memory => "no memory",
        })
    }
}

impl std::error::Error for QlCause {}
