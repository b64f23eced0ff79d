//! What a head says.

use tree_node::Digest;

/// What a head says.
#[derive(Drop)]
pub struct Head<'a> {
    /// The newest root.
    pub root: Digest,
    /// The sequence number of its manifest.
    pub sequence: u64,
    /// Where the manifest's record stands: the number of a file times 2^48, and the offset there.
    pub manifest_at: u64,
    /// How many bytes the manifest's record has.
    pub manifest_len: u32,
    /// The files by their numbers, the pack first.
    pub files: Vec<HeadFile<'a>>,
}

/// A file that a head names.
#[derive(Clone, Copy, Debug, PartialEq, Eq)]
pub struct HeadFile<'a> {
    /// How many bytes the file has.
    pub len: u64,
    /// Its name in the folder of the head.
    pub name: &'a [u8],
}
