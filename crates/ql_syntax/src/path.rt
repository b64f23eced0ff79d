//! Paths of filters.

/// How a filter leads from the objects of a set to those that it keeps.
#[derive(Clone, Copy, Debug, PartialEq, Eq)]
pub enum Path {
    /// From the ways of a set to the nodes that they hold.
    W,
    /// From the relations of a set to their members.
    R,
    /// From the nodes of a set to the ways and relations that hold them.
    Bn,
    /// From the ways of a set to the relations that hold them.
    Bw,
    /// From the relations of a set to the relations that hold them.
    Br,
}
