//! Digits at the front of a text.

ghost use Rattle.std.specs.Prelude.{◌≤◌, length, take, drop};
ghost use Rattle.std.specs.Str.Parse.{AllDigits};
ghost use Rattle.byte_io.specs.Digits.{BeginsOtherwise};

/// How many decimal digits a text begins with, in ASCII. Linear in them; it takes no memory.
pub fn digits_len(text: &[u8]) -> usize
    ensures within { result ≤ length text.now }
    ensures digits { AllDigits 10 (take result text.now) }
    ensures stop { BeginsOtherwise (drop result text.now) }
{
    for (i, byte) in text.iter().enumerate() {
        if !byte.is_ascii_digit() {
            return i;
        }
    }
    text.len()
}
