//! Rounds of readers that repeat.

/// Whether another round follows.
#[derive(Clone, Copy)]
pub(crate) enum Round {
    /// Another one follows.
    More,
    /// This was the last one.
    Done,
}
