//! A record.

/// A record: a key and a value. A key has fewer than 2^16 bytes, a value fewer than 2^32.
#[derive(Clone, Copy, Debug, PartialEq, Eq)]
pub struct Record<'a> {
    pub key: &'a [u8],
    pub value: &'a [u8],
}
