//! The letters of fields.

ghost use Rattle.std.specs.Prelude.{◌≡◌, ◌≢◌, MatchOption};
ghost use Rattle.opl_codec.specs.LineLetters.{letter_byte, belongs};
ghost use Rattle.opl_codec.specs.declared.line_letter.LineLetter.{LineLetter};

use osm_model::Kind;

/// What a field says, by its letter (Osmium's OPL manual).
#[derive(Clone, Copy)]
pub(crate) enum LineLetter {
    /// `v`
    Version,
    /// `d`
    Visible,
    /// `c`
    Changeset,
    /// `t`
    Stamp,
    /// `i`
    Uid,
    /// `u`
    User,
    /// `T`
    Tags,
    /// `x`, of nodes
    Lon,
    /// `y`, of nodes
    Lat,
    /// `N`, of ways
    Nodes,
    /// `M`, of relations
    Members,
}

impl LineLetter {
    /// The letter that this byte is.
    pub(crate) fn of(byte: u8) -> Option<LineLetter>
        ensures { MatchOption result ((letter : LineLetter) → letter_byte letter ≢ byte)
            (λ letter. letter_byte letter ≡ byte) }
    {
        match byte {
            b'v' => Some(LineLetter::Version),
            b'd' => Some(LineLetter::Visible),
            b'c' => Some(LineLetter::Changeset),
            b't' => Some(LineLetter::Stamp),
            b'i' => Some(LineLetter::Uid),
            b'u' => Some(LineLetter::User),
            b'T' => Some(LineLetter::Tags),
            b'x' => Some(LineLetter::Lon),
            b'y' => Some(LineLetter::Lat),
            b'N' => Some(LineLetter::Nodes),
            b'M' => Some(LineLetter::Members),
            _ => None,
        }
    }

    /// Whether objects of this kind have such a field.
    pub(crate) fn belongs_to(self, kind: Kind) -> bool
        ensures { result ≡ belongs kind self }
    {
        match self {
            LineLetter::Lon | LineLetter::Lat => kind == Kind::Node,
            LineLetter::Nodes => kind == Kind::Way,
            LineLetter::Members => kind == Kind::Rel,
            _ => true,
        }
    }
}
