//! Numbers.

ghost use Rattle.std.specs.Prelude.{◌≡◌, ◌++◌, false, IfOk, IfErr};
ghost use Rattle.byte_io.specs.Digits.{BeginsOtherwise};
ghost use Rattle.osm_model.specs.Degrees.{sign};
ghost use Rattle.ql_syntax.specs.Words.{begins_with};
ghost use Rattle.ql_syntax.specs.Numbers.{IsNoNumber, IsMisfit, is_minus};
ghost use Rattle.ql_syntax.specs.internal.NumberParts.{IsNumberOf, IsFractionOf};

use crate::cause::QlCause;
use crate::syntax_error::SyntaxError;
use byte_io::digits_len;

/// The number at the front of a text, and what is left after it.
#[derive(Clone, Copy)]
pub(crate) struct Number<'a> {
    /// How it is spelled.
    pub(crate) text: &'a [u8],
    /// Whether it begins with a `-`.
    pub(crate) negative: bool,
    /// The digits before the point, one or more.
    pub(crate) whole: &'a [u8],
    /// The digits after the point, one or more; `None` where it has no point.
    pub(crate) fraction: Option<&'a [u8]>,
    /// What is left.
    pub(crate) rest: &'a [u8],
}

/// Whether a `-` comes first, and what is left after it.
#[derive(Clone, Copy)]
struct Signed<'a> {
    negative: bool,
    rest: &'a [u8],
}

/// The digits after a point, where a point and a digit come first, and what is left after them.
#[derive(Clone, Copy)]
struct Fraction<'a> {
    digits: Option<&'a [u8]>,
    rest: &'a [u8],
}

/// Takes the longest number off the front of a text: an optional `-`, digits, and optionally `.` and
/// digits, any number of them. A point that no digit follows isn't part of it.
///
/// Where there is no digit, after a `-` or without one, it is `UnexpectedCharacter` at what
/// comes instead, or `UnexpectedEnd` where the text ends. Linear; it takes no memory.
#[inline(always)]
pub(crate) fn split_number(text: &[u8]) -> Result<Number<'_>, SyntaxError<'_>>
    ensures read { IfOk result (λ number. IsNumberOf text.now number) }
    ensures refused { IfErr result (λ error. IsNoNumber text.now error.cause error.rest.now) }
{
    let signed = split_sign(text);
    let (whole, after) = signed.rest.split_at(digits_len(signed.rest));
    if whole.is_empty() {
        return Err(misfit(after));
    }
    let fraction = split_fraction(after);
    Ok(Number {
        text: &text[..text.len() - fraction.rest.len()],
        negative: signed.negative,
        whole,
        fraction: fraction.digits,
        rest: fraction.rest,
    })
}

/// Takes a `-` off the front of a text, where it begins with one.
fn split_sign(text: &[u8]) -> Signed<'_>
    ensures parts { text.now ≡ sign result.negative ++ result.rest.now }
    ensures plain { result.negative ≡ false → begins_with is_minus result.rest.now ≡ false }
{
    match text {
        [b'-', rest @ ..] => Signed {
            negative: true,
            rest,
        },
        _ => Signed {
            negative: false,
            rest: text,
        },
    }
}

/// Takes a point and digits off the front of a text, where it begins with a point and a digit.
fn split_fraction(text: &[u8]) -> Fraction<'_>
    requires { BeginsOtherwise text.now }
    ensures { IsFractionOf text.now result }
{
    if let [b'.', after @ ..] = text {
        let (digits, rest) = after.split_at(digits_len(after));
        if !digits.is_empty() {
            return Fraction {
                digits: Some(digits),
                rest,
            };
        }
    }
    Fraction {
        digits: None,
        rest: text,
    }
}

/// The error at a place where a digit is missing.
pub(crate) fn misfit(place: &[u8]) -> SyntaxError<'_>
    ensures cause { IsMisfit place.now result.cause }
    ensures place { result.rest.now ≡ place.now }
{
    if place.is_empty() {
        SyntaxError::at(QlCause::UnexpectedEnd, place)
    } else {
        SyntaxError::at(QlCause::UnexpectedCharacter, place)
    }
}
