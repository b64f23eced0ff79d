//! Whether a change file has to say which root it gives.

/// Whether a change file has to end with the comment line `# root HEX`, the root that its changes give.
#[derive(Clone, Copy, Debug, PartialEq, Eq)]
pub enum RootLine {
    /// It may: where it ends with such a line, its changes are published only if they give that root.
    Optional,
    /// It has to: a file that doesn't end with such a line is refused as one with another root.
    Required,
}
