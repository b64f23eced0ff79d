//! Whole numbers, versions and visibility, as fields spell them.

ghost use Rattle.std.specs.Prelude.{◌≡◌, ◌-◌, ◌^◌, ℕ, ℤ, Bool, min, MatchOption};
ghost use Rattle.std.specs.Str.Parse.{digits_value};
ghost use Rattle.osm_model.specs.Degrees.{IsDigits};
ghost use Rattle.opl_codec.specs.Values.{SpellsNumber, SpellsVersion, SpellsVisible};

/// The value of a whole number of 64 bits: an optional `-` and one or more digits. Leading zeros are
/// allowed, any number of them.
pub(crate) fn read_number(text: &[u8]) -> Option<i64>
    ensures { MatchOption result ((z : ℤ) → SpellsNumber text.now z → ⊥)
        (λ z. SpellsNumber text.now z) }
{
    match text {
        [b'-', digits @ ..] => 0i64.checked_sub_unsigned(read_digits(digits)?),
        _ => 0i64.checked_add_unsigned(read_digits(text)?),
    }
}

/// The value of a version: one or more digits, in 32 bits. Leading zeros are allowed.
pub(crate) fn read_version(text: &[u8]) -> Option<u32>
    ensures { MatchOption result ((n : ℕ) → SpellsVersion text.now n → ⊥)
        (λ n. SpellsVersion text.now n) }
{
    u32::try_from(read_digits(text)?).ok()
}

/// Whether an object is visible: `V` where it is, `D` where it is deleted.
pub(crate) fn read_visible(text: &[u8]) -> Option<bool>
    ensures { MatchOption result ((b : Bool) → SpellsVisible text.now b → ⊥)
        (λ b. SpellsVisible text.now b) }
{
    match text {
        [b'V'] => Some(true),
        [b'D'] => Some(false),
        _ => None,
    }
}

/// The number that these digits make, or the greatest one where it is greater.
fn read_digits(digits: &[u8]) -> Option<u64>
    ensures { MatchOption result (¬ (IsDigits digits.now)) (λ n. IsDigits digits.now
        × (n ≡ min (digits_value 10 digits.now) (2 ^ 64 - 1))) }
{
    if digits.is_empty() {
        return None;
    }
    let mut value = 0u64;
    for byte in digits {
        if !byte.is_ascii_digit() {
            return None;
        }
        value = value
            .saturating_mul(10)
            .saturating_add(u64::from(*byte - b'0'));
    }
    Some(value)
}
