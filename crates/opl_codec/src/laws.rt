//! Laws: what reading and writing say of one another, and what the limits are.

ghost use Rattle.std.specs.Prelude.{◌≡◌, ◌++◌, ℕ, ◌<◌, ◌^◌, ℤ, FitsSigned, List, [], ◌∷◌};
ghost use Rattle.std.specs.Fmt.{decimal, signed_decimal};
ghost use Rattle.std.specs.Int.{w64};
ghost use Rattle.std.specs.Str.{IsUtf8};
ghost use Rattle.osm_model.specs.Elements.{Element};
ghost use Rattle.osm_model.specs.Limits.{IsElement, HasNoNul};
ghost use Rattle.osm_model.specs.CanonicalLine.{canonical_line, escaped};
ghost use Rattle.opl_codec.specs.Canonical.{IsCanonicalNumber, IsCanonicalText, IsCanonicalVersion};
ghost use Rattle.byte_io.specs.Pieces.{pieces};
ghost use Rattle.opl_codec.specs.LineChanges.{Spells};
ghost use Rattle.opl_codec.specs.Text.{text_of};
ghost use Rattle.opl_codec.specs.declared.line.TheConstants.{LONGEST_LINE};

use crate::change::Change;
use osm_model::OutMode;

/// A law: the text of an object with all its fields (mode `Meta` of `write_object`) is its canonical
/// line and an LF. That line has no LF within. `read_line` reads it: it puts the object, and says
/// nothing else.
pub fn text_is_read()
    ensures line { (o : Element) → text_of o OutMode.Meta ≡ canonical_line o ++ 10 ∷ [] }
    ensures read { (o : Element) → IsElement o → Spells (canonical_line o) (Change.Put o) }
    ensures only { (o : Element) (change : Change) → IsElement o → Spells (canonical_line o) change
        → change ≡ Change.Put o }
    ensures one { (o : Element) → IsElement o → pieces 10 (canonical_line o)
        ≡ canonical_line o ∷ [] }
{}

/// A law: objects with one canonical line are one object.
pub fn one_line()
    ensures { (a b : Element) → IsElement a → IsElement b → canonical_line a ≡ canonical_line b
        → a ≡ b }
{}

/// A law: among the spellings of a version, and among those of a whole number of 64 bits, there is one
/// that has no needless zero and no minus before 0, and it is the one of the canonical line.
pub fn one_number_text()
    ensures version { (version : ℕ) → version < 2 ^ 32
        → IsCanonicalVersion (decimal version) version }
    ensures only_version { (text : List ℕ) (version : ℕ) → IsCanonicalVersion text version
        → text ≡ decimal version }
    ensures number { (z : ℤ) → FitsSigned w64 z → IsCanonicalNumber (signed_decimal z) z }
    ensures only_number { (text : List ℕ) (z : ℤ) → IsCanonicalNumber text z
        → text ≡ signed_decimal z }
{}

/// A law: among the spellings of a text there is one in which each character that may stands for
/// itself, and each other is escaped by digits in lower case without needless zeros; and it is the one
/// of the canonical line.
pub fn one_escaped_text()
    ensures canonical { (text : List ℕ) → IsUtf8 text → HasNoNul text
        → IsCanonicalText (escaped text) text }
    ensures only { (spelled text : List ℕ) → IsCanonicalText spelled text → spelled ≡ escaped text }
{}

/// A law: the limit of a line as a number, in bytes, without its LF. Those of reading a file are `byte_io`'s.
pub fn limits_law()
    ensures { LONGEST_LINE ≡ 2 ^ 25 }
{}
