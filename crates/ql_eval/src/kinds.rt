//! The kinds that query statements and paths are limited to.

ghost use Rattle.std.specs.Prelude.{◌≡◌};
ghost use Rattle.ql_eval.specs.Asks.{kind_picked, kinds_of};
ghost use Rattle.ql_eval.specs.internal.Kinds.{first_of, last_of};

use osm_model::Kind;
use ql_syntax::Pick;

/// The kind that a query statement is limited to, if it is.
pub(crate) fn kind_of(pick: Pick) -> Option<Kind>
    ensures { result ≡ kind_picked pick }
{
    match pick {
        Pick::Node => Some(Kind::Node),
        Pick::Way => Some(Kind::Way),
        Pick::Rel => Some(Kind::Rel),
        Pick::Nwr => None,
    }
}

/// All kinds, or the one.
pub(crate) fn kinds_in(kind: Option<Kind>) -> &'static [Kind]
    ensures { result.now ≡ kinds_of kind }
{
    match kind {
        None => &[Kind::Node, Kind::Way, Kind::Rel],
        Some(Kind::Node) => &[Kind::Node],
        Some(Kind::Way) => &[Kind::Way],
        Some(Kind::Rel) => &[Kind::Rel],
    }
}

/// The first kind of all, or the one.
pub(crate) fn first_kind(kind: Option<Kind>) -> Kind
    ensures { result ≡ first_of kind }
{
    kind.unwrap_or(Kind::Node)
}

/// The last kind of all, or the one.
pub(crate) fn last_kind(kind: Option<Kind>) -> Kind
    ensures { result ≡ last_of kind }
{
    kind.unwrap_or(Kind::Rel)
}
