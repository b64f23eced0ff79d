//! How lists are cut.

/// How a list is cut into pieces, a node each; both shapes have at most 64 items a node (this project's
/// trees, docs/FORMATS.md).
#[derive(Clone, Copy, Debug, PartialEq, Eq)]
pub enum Shape {
    /// Pieces of 64 items, the last with the rest. An entry put in or taken out moves the ends of all
    /// pieces after it.
    One,
    /// A piece ends after an item that is at least its second and is marked, too. Marks depend on the
    /// item alone, so an entry put in or taken out moves few ends of pieces.
    Two,
}
