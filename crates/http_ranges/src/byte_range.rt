//! A range of a file's bytes.

/// The bytes of a file from the first to the last of these, both included.
#[derive(Clone, Copy, Debug, PartialEq, Eq)]
pub struct ByteRange {
    pub first: u64,
    pub last: u64,
}
