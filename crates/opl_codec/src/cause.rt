//! Causes for which a line isn't read.

ghost use Rattle.std.specs.Prelude.{Some};
ghost use Rattle.opl_codec.specs.Refusals.{code_text};

use std::fmt;

/// Why a line, or a file, isn't read. Its text is its code, from `O1` to `O15`, or `no memory`.
#[derive(Clone, Copy, Debug, PartialEq, Eq)]
pub enum OplCause {
    /// The line begins with no letter of an object. At byte 0.
    UnknownObject,
    /// The id isn't a whole number of 64 bits with a sign. At byte 1.
    BadId,
    /// A field without a letter, or with an unknown one. At the field's first byte.
    UnknownField,
    /// A field whose letter an earlier field has. At the second field's first byte.
    FieldTwice,
    /// A field of another kind of object. At the field's first byte.
    OtherKind,
    /// A value that isn't of its field's form. At the field's first byte.
    BadValue,
    /// A bad escape. At its `%`.
    BadEscape,
    /// The line isn't UTF-8. At the first byte that isn't.
    NotUtf8,
    /// A node without a location. At the length of the line without its CR.
    NoLocation,
    /// A deleted object, in a file that is to hold a set. At byte 0.
    Deleted,
    /// A node of a way has a location. At the field's first byte.
    LocatedNode,
    /// The line has more than 2^25 bytes. At byte 2^25.
    LineTooLong,
    /// The model refuses the value: at the field's first byte degrees out of range, a text or a list over
    /// its limit, or a key twice; at byte 0 an object that an earlier line has, or one whose canonical
    /// line is over its limit.
    OutsideModel,
    /// The reader failed. At byte 0 of the line that was being read.
    ReaderFailed,
    /// 2^32 reads were made without an end. At byte 0 of the line that was being read.
    Endless,
    /// Out of memory. At byte 0.
    Memory,
}

impl fmt::Display for OplCause {
    ghost output = { λ cause. Some (code_text cause) };

    fn fmt<W: fmt::Write>(&self, f: &mut fmt::Formatter<W>) -> fmt::Result {
        f.write_str(match self {
            OplCause::UnknownObject => "O1",
            OplCause::BadId => "O2",
            OplCause::UnknownField => "O3",
            OplCause::FieldTwice => "O4",
            OplCause::OtherKind => "O5",
            OplCause::BadValue => "O6",
            OplCause::BadEscape => "O7",
            OplCause::NotUtf8 => "O8",
            OplCause::NoLocation => "O9",
            OplCause::Deleted => "O10",
            OplCause::LocatedNode => "O11",
            OplCause::LineTooLong => "O12",
            OplCause::OutsideModel => "O13",
            OplCause::ReaderFailed => "O14",
            OplCause::Endless => "O15",
            OplCause::Memory => "no memory",
        })
    }
}

impl std::error::Error for OplCause {}
