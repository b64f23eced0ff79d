//! Statements of a query.

use crate::filter::Filter;
use crate::name::Name;
use crate::pick::Pick;
use crate::recursion::Recursion;
use osm_model::OutMode;

/// A statement of a query. It borrows the text of the query, but for texts with escapes.
///
/// Each but `Print` writes its result to a set: the one that `->` names, or the default set.
#[derive(Debug, Drop)]
pub enum Stmt<'a> {
    /// A query statement: the objects of a kind that all filters keep.
    Select {
        /// The kind.
        kind: Pick,
        /// The filters, in the order of the query, perhaps none.
        filters: Vec<Filter<'a>>,
        /// The set that is written.
        into: Name<'a>,
    },
    /// A recursion from the objects of a set.
    Recurse {
        /// The set that it starts from.
        from: Name<'a>,
        /// How it goes on.
        how: Recursion,
        /// The set that is written.
        into: Name<'a>,
    },
    /// The objects of a set.
    Item {
        /// The set.
        from: Name<'a>,
        /// The set that is written.
        into: Name<'a>,
    },
    /// The objects that any of several statements gives.
    Union {
        /// The statements, one or more, in the order of the query.
        parts: Vec<Stmt<'a>>,
        /// The set that is written.
        into: Name<'a>,
    },
    /// The objects that one statement gives and another doesn't.
    Minus {
        /// The first statement.
        left: Box<Stmt<'a>>,
        /// The second one, whose objects are taken away.
        right: Box<Stmt<'a>>,
        /// The set that is written.
        into: Name<'a>,
    },
    /// An out statement.
    Print(Out<'a>),
}

/// An out statement: a set is printed.
#[derive(Debug, Drop)]
pub struct Out<'a> {
    /// The set.
    pub from: Name<'a>,
    /// How much of each object.
    pub mode: OutMode,
    /// How many objects at most, the first ones in their order; all of them where this is `None`.
    pub limit: Option<u64>,
}
