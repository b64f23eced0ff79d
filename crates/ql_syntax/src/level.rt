//! Levels of statements.

/// Where a statement stands.
#[derive(Clone, Copy)]
pub(crate) enum Level {
    /// In the query itself.
    Top,
    /// In a union or a difference.
    Inner,
}
