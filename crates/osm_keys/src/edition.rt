//! Editions of roots.

/// The rules by which a root was made (this project, docs/FORMATS.md). The manifest states them.
#[derive(Clone, Copy, Debug, PartialEq, Eq)]
pub enum Edition {
    /// Trees of the first shape, and a manifest without a sequence.
    One,
    /// Trees of the second shape, and a sequence in the manifest.
    Two {
        /// The number of this root in the publisher's sequence of roots, any `u64`.
        sequence: u64,
    },
}
