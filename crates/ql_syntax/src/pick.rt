//! Kinds of query statements.

ghost use Rattle.std.specs.Prelude.{◌≡◌};
ghost use Rattle.ql_syntax.specs.Picks.{allows, takes_boxes};

use crate::path::Path;

/// The objects that a query statement begins with, before its filters.
#[derive(Clone, Copy, Debug, PartialEq, Eq)]
pub enum Pick {
    /// All nodes: `node`.
    Node,
    /// All ways: `way`.
    Way,
    /// All relations: `rel` or `relation`.
    Rel,
    /// All objects: `nwr`.
    Nwr,
}

impl Pick {
    /// Whether a path may lead to these objects.
    pub fn allows(self, path: Path) -> bool
        ensures { result ≡ allows self path }
    {
        match self {
            Pick::Node => matches!(path, Path::W | Path::R),
            Pick::Way => matches!(path, Path::R | Path::Bn),
            Pick::Rel => matches!(path, Path::R | Path::Bn | Path::Bw | Path::Br),
            Pick::Nwr => false,
        }
    }

    /// Whether a box may choose among these objects: it does among nodes alone.
    pub fn takes_boxes(self) -> bool
        ensures { result ≡ takes_boxes self }
    {
        matches!(self, Pick::Node)
    }
}
