//! How much of an object is written.

/// Which fields of an object its line keeps, as the out statement of the Overpass query language
/// names them.
#[derive(Clone, Copy, Debug, PartialEq, Eq)]
pub enum OutMode {
    /// The first field alone: kind and id.
    Ids,
    /// The first field and the tags.
    Tags,
    /// The first field and what is particular to the kind.
    Skel,
    /// The first field, the tags, and what is particular to the kind.
    Body,
    /// All fields: the canonical line.
    Meta,
}
