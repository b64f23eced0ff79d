//! The values of numbers without a point.

ghost use Rattle.std.specs.Prelude.{◌≡◌, ◌≤◌, ◌^◌, ◌<◌, ℕ, ℤ, MatchOption, IfSome, IfNone};
ghost use Rattle.std.specs.Str.Parse.{AllDigits, digits_value};
ghost use Rattle.ql_syntax.specs.WholeNumbers.{IsId, IsCount};
ghost use Rattle.ql_syntax.specs.internal.NumberParts.{decimal_of};

use crate::number::Number;

/// The id that a number is, where it has no point and fits 64 bits with a sign.
pub(crate) fn id_of(number: Number<'_>) -> Option<i64>
    requires { AllDigits 10 number.whole.now }
    ensures some { IfSome result (λ id. IsId (decimal_of number.entry) id) }
    ensures none { IfNone result ((id : ℤ) → IsId (decimal_of number.entry) id → ⊥) }
{
    if number.fraction.is_some() {
        return None;
    }
    let size = size_of_digits(number.whole)?;
    if number.negative {
        0i64.checked_sub_unsigned(size)
    } else {
        0i64.checked_add_unsigned(size)
    }
}

/// The count that a number is, where it has no point and fits 64 bits without a sign.
pub(crate) fn count_of(number: Number<'_>) -> Option<u64>
    requires { AllDigits 10 number.whole.now }
    ensures some { IfSome result (λ count. IsCount (decimal_of number.entry) count) }
    ensures none { IfNone result ((count : ℕ) → IsCount (decimal_of number.entry) count → ⊥) }
{
    if number.fraction.is_some() {
        return None;
    }
    size_of_digits(number.whole).filter(|size| !number.negative || *size == 0)
}

/// The number that digits make, where it fits 64 bits.
fn size_of_digits(digits: &[u8]) -> Option<u64>
    requires { AllDigits 10 digits.now }
    ensures { MatchOption result (2 ^ 64 ≤ digits_value 10 digits.now)
        (λ size. (size ≡ digits_value 10 digits.now) × (size < 2 ^ 64)) }
{
    let mut size = 0u64;
    for digit in digits {
        size = size.checked_mul(10)?.checked_add(u64::from(*digit - b'0'))?;
    }
    Some(size)
}
