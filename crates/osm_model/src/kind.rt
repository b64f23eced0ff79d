//! The kinds of objects.

/// The kind of an object: a node, a way or a relation, in this order.
///
/// `kind as u8` is its byte in keys: 1, 2, 3 (this project). The three kinds are those of the
/// OpenStreetMap API 0.6.
#[derive(Clone, Copy, Debug, PartialEq, Eq, PartialOrd, Ord)]
pub enum Kind {
    /// A point with a location.
    Node = 1,
    /// An ordered list of nodes.
    Way = 2,
    /// An ordered list of members, each with a role.
    Rel = 3,
}

impl Kind {
    ghost use Rattle.std.specs.Prelude.{◌≡◌};
    ghost use Rattle.osm_model.specs.CanonicalLine.{kind_letter};

    /// The letter that stands for the kind in text: `n`, `w` or `r` (Osmium's OPL manual).
    pub fn letter(self) -> u8
        ensures { result ≡ kind_letter self }
    {
        match self {
            Kind::Node => b'n',
            Kind::Way => b'w',
            Kind::Rel => b'r',
        }
    }
}
