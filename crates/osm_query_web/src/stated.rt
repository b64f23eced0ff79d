//! What a head states.

use node_pack::Place;
use tree_node::Digest;

/// What a head states of the files that it names: the root of their publication, and where the record of its manifest stands in
/// the files as one.
#[derive(Clone, Copy, Debug, PartialEq, Eq)]
pub(crate) struct Stated {
    pub(crate) root: Digest,
    pub(crate) manifest: Place,
}
