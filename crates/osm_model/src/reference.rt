//! References to objects.

use crate::kind::Kind;
use std::fmt;

/// What names an object: ids are unique within a kind (OpenStreetMap API 0.6).
///
/// References are ordered by kind, then by id. An id may be negative, as editors write for objects
/// that no server has seen.
#[derive(Clone, Copy, Debug, PartialEq, Eq, PartialOrd, Ord)]
pub struct Ref {
    /// The kind of the object.
    pub kind: Kind,
    /// The id within the kind.
    pub id: i64,
}

impl fmt::Display for Ref {
    /// As in a line: the letter of the kind, and the id, as `n1`.
    fn fmt<W: fmt::Write>(&self, f: &mut fmt::Formatter<W>) -> fmt::Result {
        write!(f, "{}{}", char::from(self.kind.letter()), self.id)
    }
}
