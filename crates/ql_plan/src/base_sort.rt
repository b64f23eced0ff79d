//! The order in which filters are taken as a base.

ghost use Rattle.std.specs.Prelude.{◌≡◌, ◌<◌, ◌↔◌, IsTrue};
ghost use Rattle.ql_syntax.specs.StatementViews.{filter_of};
ghost use Rattle.ql_plan.specs.Plans.{rank_of};
ghost use Rattle.ql_plan.specs.internal.Sorts.{rank};

use ql_syntax::Filter;

/// The sorts of bases, the earliest first.
#[derive(Clone, Copy, PartialEq, Eq, PartialOrd, Ord)]
pub(crate) enum BaseSort {
    /// `(id)`.
    Ids,
    /// `.a`.
    Set,
    /// `(w)`.
    Path,
    /// `[k=v]`.
    Tag,
    /// `[k]`.
    Key,
    /// `(south,west,north,east)`.
    Area,
    /// `[!k]` and `[k!=v]`, which are never a base.
    Never,
}

impl BaseSort {
    /// The sort of a filter.
    pub(crate) fn of(filter: &Filter<'_>) -> BaseSort
        ensures { rank result ≡ rank_of (filter_of filter.now) }
    {
        match filter {
            Filter::Ids(_) => BaseSort::Ids,
            Filter::InSet(_) => BaseSort::Set,
            Filter::Via(_, _) => BaseSort::Path,
            Filter::KeyIs(_, _) => BaseSort::Tag,
            Filter::HasKey(_) => BaseSort::Key,
            Filter::Within(_) => BaseSort::Area,
            Filter::LacksKey(_) | Filter::KeyIsNot(_, _) => BaseSort::Never,
        }
    }

    /// Whether it comes before another one.
    pub(crate) fn is_before(self, other: BaseSort) -> bool
        ensures { IsTrue result ↔ (rank self < rank other) }
    {
        self < other
    }
}
