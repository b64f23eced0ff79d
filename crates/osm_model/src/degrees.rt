//! Degrees, read from decimal text.

ghost use Rattle.std.specs.Prelude.{◌≡◌, ◌≤◌, ◌<◌, ◌*◌, ◌^◌, ◌-◌, ℕ, ℤ, min, length, IfOk, IfErr, List, unsigned_abs, ◌++◌, Ok};
ghost use Rattle.std.specs.Char.{digit_value};
ghost use Rattle.std.specs.Str.Parse.{AllDigits, digits_value, digits_value_after};
ghost use Rattle.osm_model.specs.Degrees.{IsDegrees, IsFault, limit};

use crate::axis::Axis;
use crate::decimal::split;
use crate::fault::ModelFault;
use crate::units::power_of_ten;

/// More units than any axis has: numbers are counted no further.
const CAP: u64 = 10_000_000_000;

/// The value of a decimal, in 1e-7 degree: an optional `-`, one or more digits, and optionally `.`
/// and one to seven digits. Leading zeros are allowed, any number of them.
///
/// Refused by the first of these that holds: `EmptyNumber` for no text at all, `NotDecimal`,
/// `TooManyDecimals` for more than seven digits after the point, `OutOfRange` for a value outside
/// the axis's range. It takes no memory.
///
/// Source: degrees as Osmium's OPL manual spells them, without exponents (this project).
pub fn read_degrees(text: &[u8], axis: Axis) -> Result<i32, ModelFault>
    // What is read is spelled so.
    ensures read { IfOk result (λ z. IsDegrees text.now z × (unsigned_abs z ≤ limit axis)) }
    // What is spelled so is read.
    ensures only { (z : ℤ) → IsDegrees text.now z → unsigned_abs z ≤ limit axis → result ≡ Ok z }
    // Which fault it is.
    ensures refused { IfErr result (λ fault. IsFault text.now axis fault) }
{
    value_of(text, axis)
}

/// A law: a text has one value at most.
pub fn one_value()
    ensures { (text : List ℕ) (y z : ℤ) → IsDegrees text y → IsDegrees text z → y ≡ z }
{}

/// The value, or the first fault.
fn value_of(text: &[u8], axis: Axis) -> Result<i32, ModelFault>
    ensures read { IfOk result (λ z. IsDegrees text.now z × (unsigned_abs z ≤ limit axis)) }
    ensures refused { IfErr result (λ fault. IsFault text.now axis fault) }
{
    if text.is_empty() {
        return Err(ModelFault::EmptyNumber);
    }
    let Some(parts) = split(text) else {
        return Err(ModelFault::NotDecimal);
    };
    let decimals = parts.decimals();
    if decimals.len() > 7 {
        return Err(ModelFault::TooManyDecimals);
    }
    let units = units_of(parts.whole, decimals);
    if units > axis.limit() {
        return Err(ModelFault::OutOfRange);
    }
    let size = units as i32;
    Ok(if parts.negative { -size } else { size })
}

/// The units that these digits make, up to a cap above each limit.
pub(crate) fn units_of(whole: &[u8], fraction: &[u8]) -> u64
    requires few { length fraction.now ≤ 7 }
    requires whole { AllDigits 10 whole.now }
    requires fraction { AllDigits 10 fraction.now }
    ensures value { result ≡ min (digits_value 10 (whole.now ++ fraction.now)) 10000000000 * 10 ^ (7 - length fraction.now) }
    ensures bound { result ≤ 10 ^ 17 }
{
    let digits = number_up_to_cap(number_up_to_cap(0, whole), fraction);
    digits * power_of_ten(7 - fraction.len())
}

/// The number that these digits make after those before them, up to a cap.
pub(crate) fn number_up_to_cap(start: u64, digits: &[u8]) -> u64
    requires digits { AllDigits 10 digits.now }
    requires start { start ≤ 10000000000 }
    ensures { result ≡ min (digits_value_after 10 start digits.now) 10000000000 }
{
    let mut value = start;
    for byte in digits {
        value = (value * 10 + digit(*byte)).min(CAP);
    }
    value
}

/// The value of a digit.
pub(crate) fn digit(byte: u8) -> u64
    ensures value { digit_value byte < 10 → result ≡ digit_value byte }
    ensures small { result ≤ 9 }
{
    if byte.is_ascii_digit() {
        u64::from(byte - b'0')
    } else {
        0
    }
}
