//! Filters of query statements.

use crate::name::Name;
use crate::path::Path;
use crate::ql_text::QlText;
use osm_model::BoxArea;
use smallvec::SmallVec;

/// A filter of a query statement. It borrows the text of the query, but for texts with escapes.
#[derive(Debug, Drop)]
pub enum Filter<'a> {
    /// The objects of a set: `.a`.
    InSet(Name<'a>),
    /// The objects that have the key: `[k]`.
    HasKey(QlText<'a>),
    /// The objects whose key has the value: `[k=v]`.
    KeyIs(QlText<'a>, QlText<'a>),
    /// The objects that lack the key: `[!k]`.
    LacksKey(QlText<'a>),
    /// The objects whose key has another value, or that lack it: `[k!=v]`.
    KeyIsNot(QlText<'a>, QlText<'a>),
    /// The objects with these ids: `(id)`, `(id:..)`. One or more, in the order of the query.
    Ids(SmallVec<i64, 1>),
    /// The nodes in a box: `(south,west,north,east)`.
    Within(Box<BoxArea<'a>>),
    /// The objects to which a path leads from those of a set: `(w)`, `(bn.a)`.
    Via(Path, Name<'a>),
}
