//! Changes of a set.

use osm_model::{Object, Ref};

/// What a line says: how a set of objects changes.
#[derive(Debug, Drop)]
pub enum Change {
    /// The object is as the line says.
    Put(Object),
    /// The object of this name is deleted.
    Delete(Ref),
}
