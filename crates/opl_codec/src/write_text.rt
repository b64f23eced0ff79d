//! Texts, escaped.

ghost use Rattle.std.specs.Prelude.{◌≡◌, ◌++◌, ◌%◌, [], ◌∷◌, length, take, OnOk, OnErr};
ghost use Rattle.std.specs.Char.{digit_char};
ghost use Rattle.std.specs.List.{list_all};
ghost use Rattle.osm_model.specs.CanonicalLine.{is_literal, escaped, escaped_char, hex};

use osm_model::{Text, hex_places, is_literal};
use std::alloc::AllocError;

/// Appends a text, each character as itself or as an escape.
pub(crate) fn append_text(text: &Text, out: &mut Vec<u8>) -> Result<(), AllocError>
    ensures ok { OnOk result (out.new.items ≡ out.old.items ++ escaped text.now) }
    ensures err { OnErr result (take (length out.old.items) out.new.items ≡ out.old.items) }
{
    // Most texts have nothing to escape.
    if are_literal(text.as_bytes()) {
        out.extend_from_slice(text.as_bytes())
    } else {
        append_characters(text.as_str(), out)
    }
}

#[tactic(auto, unfolding(osm_model::specs::CanonicalLine::escaped))]
fn append_characters(text: &str, out: &mut Vec<u8>) -> Result<(), AllocError>
    ensures ok { OnOk result (out.new.items ≡ out.old.items ++ escaped text.now) }
    ensures err { OnErr result (take (length out.old.items) out.new.items ≡ out.old.items) }
{
    for character in text.chars() {
        append_character(character, out)?;
    }
    Ok(())
}

fn append_character(character: char, out: &mut Vec<u8>) -> Result<(), AllocError>
    ensures ok { OnOk result (out.new.items ≡ out.old.items ++ escaped_char character) }
    ensures err { OnErr result (take (length out.old.items) out.new.items ≡ out.old.items) }
{
    let code = character as u32;
    if is_literal(code) {
        out.push(code as u8)?;
    } else {
        out.push(b'%')?;
        append_hexadecimal(code, out)?;
    }
    Ok(())
}

/// Appends the digits of a code point and the `%` after them.
fn append_hexadecimal(code: u32, out: &mut Vec<u8>) -> Result<(), AllocError>
    ensures ok { OnOk result (out.new.items ≡ out.old.items ++ (hex code ++ 37 ∷ [])) }
    ensures err { OnErr result (out.new.items ≡ out.old.items) }
{
    let digits = [
        hex_digit(code / 0x10_0000),
        hex_digit(code / 0x1_0000),
        hex_digit(code / 0x1000),
        hex_digit(code / 0x100),
        hex_digit(code / 0x10),
        hex_digit(code),
        b'%',
    ];
    out.extend_from_slice(&digits[6 - hex_places(code)..])
}

/// The last hexadecimal digit of a number.
fn hex_digit(number: u32) -> u8
    ensures { result ≡ digit_char (number % 16) }
{
    let digit = (number % 16) as u8;
    if digit < 10 {
        b'0' + digit
    } else {
        b'a' + (digit - 10)
    }
}

fn are_literal(bytes: &[u8]) -> bool
    ensures { result ≡ list_all is_literal bytes.now }
{
    bytes.iter().all(|byte| is_literal(u32::from(*byte)))
}
