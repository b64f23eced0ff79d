//! Recursions.

/// How a recursion goes from the objects of a set to others.
#[derive(Clone, Copy, Debug, PartialEq, Eq)]
pub enum Recursion {
    /// To what ways and relations hold, and to the nodes of the ways found: `>`.
    Down,
    /// As `>`, and from relations to the relations in them, until nothing is added: `>>`.
    DownAll,
    /// To the ways and relations that hold nodes or ways: `<`.
    Up,
    /// As `<`, and from relations to those that hold them, until nothing is added: `<<`.
    UpAll,
}
