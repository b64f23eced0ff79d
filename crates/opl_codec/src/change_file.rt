//! What a file of changes holds.

use crate::change::Change;

/// The changes of a file, and the comment that it ends with.
#[derive(Debug, Drop)]
pub struct ChangeFile {
    /// The changes, in the order of their lines.
    pub changes: Vec<Change>,
    /// The last line that isn't empty, without its LF, where it is a comment: it begins with `#`.
    pub end_comment: Option<Vec<u8>>,
}
