//! The parts of decimal text.

ghost use Rattle.std.specs.Prelude.{◌≡◌, IsTrue, ◌↔◌, Option, IfSome, IfNone, List, ℕ, ◌++◌};
ghost use Rattle.osm_model.specs.Degrees.{Decimal, Spells, decimals, IsDigits, IsFraction, point};
ghost use Rattle.osm_model.specs.DecimalParts.{decimal_of, fraction_of};

use byte_io::digits_len;

/// The parts of a decimal, in its text.
#[derive(Clone, Copy, Debug)]
pub(crate) struct Parts<'a> {
    /// Whether a `-` comes first.
    pub(crate) negative: bool,
    /// The digits before the point, one or more.
    pub(crate) whole: &'a [u8],
    /// The digits after the point, one or more; `None` where there is no point.
    pub(crate) fraction: Option<&'a [u8]>,
}

impl<'a> Parts<'a> {
    /// The digits after the point: none where there is no point.
    pub(crate) fn decimals(self) -> &'a [u8]
        ensures { result.now ≡ decimals (fraction_of self.entry.fraction) }
    {
        self.fraction.unwrap_or(&[])
    }

    /// Whether the sign and the digits of another decimal are the same.
    pub(crate) fn is_same(self, other: Parts<'_>) -> bool
        ensures { IsTrue result ↔ (decimal_of self.entry ≡ decimal_of other.entry) }
    {
        self.negative == other.negative
            && self.whole == other.whole
            && are_same(self.fraction, other.fraction)
    }
}

/// Whether two decimals have the same digits after the point, or both no point.
fn are_same(first: Option<&[u8]>, second: Option<&[u8]>) -> bool
    ensures { IsTrue result ↔ (fraction_of first.entry ≡ fraction_of second.entry) }
{
    match (first, second) {
        (Some(first), Some(second)) => first == second,
        (None, None) => true,
        _ => false,
    }
}

/// The parts of a decimal, or `None` where the text is none.
pub(crate) fn split(text: &[u8]) -> Option<Parts<'_>>
    ensures found { IfSome result (λ p. Spells text.now (decimal_of p)) }
    ensures none { IfNone result ((d : Decimal) → Spells text.now d → ⊥) }
{
    match text {
        [b'-', rest @ ..] => split_unsigned(true, rest),
        _ => split_unsigned(false, text),
    }
}

/// The parts of a decimal after its sign.
fn split_unsigned(negative: bool, text: &[u8]) -> Option<Parts<'_>>
    ensures found { IfSome result (λ p. (p.negative ≡ negative)
        × IsDigits p.whole.now × IsFraction (fraction_of p.fraction)
        × (text.now ≡ p.whole.now ++ point (fraction_of p.fraction))) }
    ensures none { IfNone result ((whole : List ℕ) (f : Option (List ℕ)) → IsDigits whole
        → IsFraction f → text.now ≡ whole ++ point f → ⊥) }
{
    let len = digits_len(text);
    if len == 0 {
        return None;
    }
    after_whole(negative, &text[..len], &text[len..])
}

/// What comes after the whole digits.
fn after_whole<'a>(negative: bool, whole: &'a [u8], tail: &'a [u8]) -> Option<Parts<'a>>
    requires { IsDigits whole.now }
    ensures found { IfSome result (λ p. (p.negative ≡ negative) × (p.whole.now ≡ whole.now) × IsFraction (fraction_of p.fraction) × (tail.now ≡ point (fraction_of p.fraction))) }
    ensures none { IfNone result ((f : Option (List ℕ)) → IsFraction f → tail.now ≡ point f → ⊥) }
{
    let fraction = match tail {
        [] => None,
        [b'.', digits @ ..] if are_digits(digits) => Some(digits),
        _ => return None,
    };
    Some(Parts {
        negative,
        whole,
        fraction,
    })
}

/// Whether this is one or more digits, and nothing else.
fn are_digits(text: &[u8]) -> bool
    ensures { IsTrue result ↔ IsDigits text.now }
{
    match text {
        [] => false,
        _ => digits_len(text) == text.len(),
    }
}
