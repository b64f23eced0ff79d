//! Laws: what holds of each canonical spelling, and what the limits are.

ghost use Rattle.std.specs.Prelude.{◌≡◌, ◌≤◌, ◌^◌, List, ℕ, ℤ, unsigned_abs};
ghost use Rattle.osm_model.specs.Canonical.{IsCanonicalDegrees};
ghost use Rattle.osm_model.specs.CanonicalDegrees.{degrees};
ghost use Rattle.osm_model.specs.Degrees.{limit};
ghost use Rattle.osm_model.specs.declared.axis.Axis.TheVariants.{Lon};
ghost use Rattle.osm_model.specs.declared.limits.TheConstants.{LINE_LIMIT, LIST_LIMIT, TEXT_LIMIT};

/// A law: among the texts of a value in an axis's range there is one that has no needless zero and no
/// minus before 0, and it is the text that `write_degrees` makes.
pub fn one_degrees_text()
    ensures canonical { (z : ℤ) → unsigned_abs z ≤ limit Lon → IsCanonicalDegrees (degrees z) z }
    ensures only { (text : List ℕ) (z : ℤ) → unsigned_abs z ≤ limit Lon
        → IsCanonicalDegrees text z → text ≡ degrees z }
{}

/// A law: the limits that the definitions name, as numbers.
pub fn limits_law()
    ensures text { TEXT_LIMIT ≡ 4096 }
    ensures list { LIST_LIMIT ≡ 65535 }
    ensures line { LINE_LIMIT ≡ 2 ^ 24 }
{}
