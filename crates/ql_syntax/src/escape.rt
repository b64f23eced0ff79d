//! Escapes in texts between quotes.

ghost use Rattle.std.specs.Prelude.{◌≡◌, ◌<◌, ◌≤◌, length, take, slice_index};
ghost use Rattle.std.specs.Char.{digit_value};
ghost use Rattle.std.specs.Str.Parse.{AllDigits, digits_value};
ghost use Rattle.ql_syntax.specs.QuotedTexts.{escaped};
ghost use Rattle.ql_syntax.specs.internal.EscapeParts.{Finds};
ghost use Rattle.std.specs.Prelude.{◌∷◌};

/// What follows a `\`.
#[derive(Clone, Copy)]
pub(crate) enum Escape<'a> {
    /// An escape that stands for this character, and what is left after it.
    Character(char, &'a [u8]),
    /// No escape, however the text goes on.
    Bad,
    /// The beginning of an escape, at the end of the text.
    Cut,
}

/// A number, and how many digits it has.
#[derive(Clone, Copy)]
struct Hexadecimal {
    value: u32,
    len: usize,
}

/// Reads what follows a `\`: one of `\`, `"`, `'`, `n`, `t`, or `u` and four hexadecimal digits
/// that name a character other than NUL and no surrogate.
pub(crate) fn split_escape(after: &[u8]) -> Escape<'_>
    ensures { Finds after.now result }
{
    match after {
        [] => Escape::Cut,
        [b'u', digits @ ..] => split_code(digits),
        [letter, rest @ ..] => match escaped(*letter) {
            Some(character) => Escape::Character(character, rest),
            None => Escape::Bad,
        },
    }
}

/// What the letter after a `\` stands for.
fn escaped(letter: u8) -> Option<char>
    ensures { result ≡ escaped letter }
{
    match letter {
        b'\\' | b'"' | b'\'' => Some(char::from(letter)),
        b'n' => Some('\n'),
        b't' => Some('\t'),
        _ => None,
    }
}

/// Reads what follows `\u`.
fn split_code(text: &[u8]) -> Escape<'_>
    ensures { Finds (117 ∷ text.now) result }
{
    let number = read_digits(text);
    if number.len < 4 {
        return if number.len == text.len() {
            Escape::Cut
        } else {
            Escape::Bad
        };
    }
    match char::from_u32(number.value) {
        Some(character) if number.value > 0 => Escape::Character(character, &text[4..]),
        _ => Escape::Bad,
    }
}

/// The number that the hexadecimal digits at the front make, four at most.
fn read_digits(text: &[u8]) -> Hexadecimal
    ensures within { result.len ≤ length text.now }
    ensures four { result.len ≤ 4 }
    ensures digits { AllDigits 16 (take result.len text.now) }
    ensures value { result.value ≡ digits_value 16 (take result.len text.now) }
    ensures stop { result.len < 4 → result.len < length text.now
        → 16 ≤ digit_value (slice_index text.now result.len) }
{
    let mut value = 0;
    let len = text.len().min(4);
    for i in 0..len {
        let Some(digit) = char::from(text[i]).to_digit(16) else {
            return Hexadecimal { value, len: i };
        };
        value = value * 16 + digit;
    }
    Hexadecimal { value, len }
}
