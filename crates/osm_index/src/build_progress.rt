//! How far the building of a snapshot is.

use tree_node::Tree;

/// Somebody who waits for a snapshot and is told how far its building is. Nothing that is built depends on it.
pub trait BuildProgress {
    /// The trees before this one are built, and this one is begun, of a set of so many objects.
    fn begin(&mut self, tree: Tree, object_count: usize);
}

/// Nobody waits.
#[derive(Clone, Copy)]
pub struct Unwatched;

impl BuildProgress for Unwatched {
    fn begin(&mut self, _tree: Tree, _object_count: usize) {}
}
