//! The letters of the kinds of objects.

ghost use Rattle.std.specs.Prelude.{◌≡◌, ◌≢◌, MatchOption};
ghost use Rattle.osm_model.specs.CanonicalLine.{kind_letter};
ghost use Rattle.osm_model.specs.declared.kind.Kind.{Kind};

use osm_model::Kind;

/// The kind of object whose letter this is.
pub(crate) fn kind_of(letter: u8) -> Option<Kind>
    ensures { MatchOption result ((kind : Kind) → letter ≢ kind_letter kind)
        (λ kind. letter ≡ kind_letter kind) }
{
    match letter {
        b'n' => Some(Kind::Node),
        b'w' => Some(Kind::Way),
        b'r' => Some(Kind::Rel),
        _ => None,
    }
}
