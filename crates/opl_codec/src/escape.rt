//! Escapes: characters by their code points.

ghost use Rattle.std.specs.Prelude.{◌≡◌, ◌≤◌, ◌<◌, MatchOption, length, take, slice_index};
ghost use Rattle.std.specs.Str.Parse.{AllDigits, digits_value};
ghost use Rattle.osm_model.specs.Bytes.{percent};
ghost use Rattle.opl_codec.specs.Texts.{IsEscape, BeginsEscape};
ghost use Rattle.opl_codec.specs.internal.TextParts.{IsHexadecimalFront};

/// The greatest number of hexadecimal digits of an escape.
const MOST_DIGITS: usize = 8;

/// The character of the escape that begins here, after its `%`, and how many digits it has before its
/// second `%`. `None` where no escape begins here.
pub(crate) fn read_escape(text: &[u8]) -> Option<(char, usize)>
    ensures { MatchOption result (¬ (BeginsEscape text.now)) (λ escape.
        (escape.1 < length text.now) × (slice_index text.now escape.1 ≡ percent)
        × IsEscape (take escape.1 text.now) × (digits_value 16 (take escape.1 text.now)
        ≡ escape.0)) }
{
    let (code, digits) = read_hexadecimal(text)?;
    if digits == 0 || code == 0 || text.get(digits) != Some(&b'%') {
        return None;
    }
    let character = char::from_u32(code)?;
    Some((character, digits))
}

/// The number that the hexadecimal digits make with which a text begins, and how many these are;
/// `None` where they are more than an escape may have.
fn read_hexadecimal(text: &[u8]) -> Option<(u32, usize)>
    ensures { MatchOption result ((9 ≤ length text.now) × AllDigits 16 (take 9 text.now)) (λ found.
        IsHexadecimalFront text.now found.1 × (found.1 ≤ 8)
        × (digits_value 16 (take found.1 text.now) ≡ found.0)) }
{
    let mut code = 0u32;
    for (place, byte) in text.iter().enumerate() {
        let Some(digit) = char::from(*byte).to_digit(16) else {
            return Some((code, place));
        };
        if place == MOST_DIGITS {
            return None;
        }
        code = code * 16 + digit;
    }
    Some((code, text.len()))
}
