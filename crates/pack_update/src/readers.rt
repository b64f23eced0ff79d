//! The files of a publication.

use node_pack::ReadAt;

/// The files of a publication as one, opened three times: each step keeps the reader that it reads from.
#[derive(Drop)]
pub struct Readers<F: ReadAt + Drop> {
    /// From this one the objects that changes name are read.
    pub plan: F,
    /// From this one the trees are rebuilt.
    pub rebuild: F,
    /// This one tells where old nodes stand. What it reads isn't digested, so the places in the new file are only as true as it.
    pub places: F,
}
