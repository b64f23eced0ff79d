//! The exact order of decimals of any length.

ghost use Rattle.std.specs.Prelude.{◌≡◌, ◌≤◌, ◌<◌, ◌*◌, ◌^◌, length, get_or};
ghost use Rattle.std.specs.Char.{digit_value};
ghost use Rattle.std.specs.Str.Parse.{AllDigits, digits_value};
ghost use Rattle.std.specs.Ordering.{nat_cmp};
ghost use Rattle.osm_model.specs.Bytes.{digit_zero};
ghost use Rattle.osm_model.specs.Degrees.{IsDecimal};
ghost use Rattle.osm_model.specs.DecimalParts.{decimal_of};
ghost use Rattle.osm_model.specs.Edges.{size, scale};

use crate::decimal::Parts;
use crate::degrees::{digit, number_up_to_cap};
use std::cmp::Ordering;

/// How two decimals compare without their signs.
pub(crate) fn compare_sizes(first: Parts<'_>, second: Parts<'_>) -> Ordering
    requires first { IsDecimal (decimal_of first) }
    requires second { IsDecimal (decimal_of second) }
    requires few_first { digits_value 10 first.whole.now ≤ 10000000000 }
    requires few_second { digits_value 10 second.whole.now ≤ 10000000000 }
    ensures { result ≡ nat_cmp (size (decimal_of first.entry) * scale (decimal_of second.entry)) (size (decimal_of second.entry) * scale (decimal_of first.entry)) }
{
    let order = number_up_to_cap(0, first.whole).cmp(&number_up_to_cap(0, second.whole));
    if order.is_ne() {
        return order;
    }
    compare_fractions(first.decimals(), second.decimals())
}

/// How the digits after two points compare. The shorter text goes on with zeros.
fn compare_fractions(first: &[u8], second: &[u8]) -> Ordering
    requires first { AllDigits 10 first.now }
    requires second { AllDigits 10 second.now }
    ensures { result ≡ nat_cmp (digits_value 10 first.now * 10 ^ length second.now) (digits_value 10 second.now * 10 ^ length first.now) }
{
    for place in 0..first.len().max(second.len()) {
        let order = digit_at(first, place).cmp(&digit_at(second, place));
        if order.is_ne() {
            return order;
        }
    }
    Ordering::Equal
}

/// The value of a digit, or 0 after the last.
fn digit_at(digits: &[u8], place: usize) -> u64
    requires { AllDigits 10 digits.now }
    ensures { result ≡ digit_value (get_or digits.now place digit_zero) }
{
    match digits.get(place) {
        Some(byte) => digit(*byte),
        None => 0,
    }
}
