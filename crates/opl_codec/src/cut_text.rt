//! Texts that are UTF-8, cut at the ASCII byte that separates their parts.

ghost use Rattle.std.specs.Prelude.{◌≡◌, ◌+◌, ◌<◌, ◌∷◌, [], length, MatchOption, slice_index, IsTrue, ◌↔◌};
ghost use Rattle.byte_io.specs.Pieces.{pieces};

use memchr::memchr;

/// The text before the first such byte, and where the byte comes, the text after it. Linear; it takes
/// no memory.
pub(crate) fn first_piece(text: &str, byte: u8) -> (&str, Option<&str>)
    requires { byte < 128 }
    ensures { MatchOption result.1 (pieces byte text.now ≡ result.0.now ∷ [])
        (λ more. (pieces byte text.now ≡ result.0.now ∷ pieces byte more.now)
        × (length result.0.now + 1 + length more.now ≡ length text.now)) }
{
    match memchr(byte, text.as_bytes()) {
        Some(at) => (&text[..at], Some(&text[at + 1..])),
        None => (text, None),
    }
}

/// Whether the byte stands at the place.
pub(crate) fn is_at(text: &[u8], place: usize, byte: u8) -> bool
    ensures { IsTrue result ↔ ((place < length text.now) × (slice_index text.now place ≡ byte)) }
{
    place < text.len() && text[place] == byte
}
