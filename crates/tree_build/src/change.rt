//! Changes of lists of entries.

/// A change of a list of entries.
#[derive(Drop)]
pub struct EntryChange {
    /// The key of the entry that is put or taken away.
    pub key: Vec<u8>,
    /// The new value of the key; `None` removes the key.
    pub value: Option<Vec<u8>>,
}
