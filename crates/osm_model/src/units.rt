//! Units of 1e-7 degree.

ghost use Rattle.std.specs.Prelude.{◌≡◌, ◌≤◌, ◌^◌};

/// How many units a degree has.
pub(crate) const UNITS: u64 = 10_000_000;

/// Ten to the power of `n`, which is the unit of a decimal place.
pub(crate) fn power_of_ten(n: usize) -> u64
    requires { n ≤ 7 }
    ensures value { result ≡ 10 ^ n }
    ensures bound { result ≤ 10000000 }
    ensures some { 1 ≤ result }
{
    match n {
        0 => 1,
        1 => 10,
        2 => 100,
        3 => 1_000,
        4 => 10_000,
        5 => 100_000,
        6 => 1_000_000,
        _ => 10_000_000,
    }
}
