//! What was added.

use node_pack::Header;
use osm_keys::Manifest;

/// What changes made of a publication, and the file that was written for it.
#[derive(Clone, Copy, Debug, PartialEq, Eq)]
pub struct Added {
    /// The manifest of the new publication.
    pub manifest: Manifest,
    /// What the header of the new file says: the new root, the length of the file, and the place of the new manifest's record.
    pub header: Header,
}
