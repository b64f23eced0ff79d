//! Texts, split at the byte that separates their parts.

ghost use Rattle.std.specs.Prelude.{◌≡◌, ◌+◌, ◌++◌, ◌∷◌, [], length, MatchOption};
ghost use Rattle.byte_io.specs.Pieces.{Lacks, pieces};

use memchr::memchr;

/// The text before the first such byte, and the text after it; `None` where the byte doesn't come.
/// Linear; it takes no memory.
pub fn split_once(text: &[u8], byte: u8) -> Option<(&[u8], &[u8])>
    ensures parts { MatchOption result (Lacks byte text.now)
        (λ parts. (text.now ≡ parts.0.now ++ byte ∷ parts.1.now) × Lacks byte parts.0.now) }
    // The same in the pieces between such bytes.
    ensures pieces { MatchOption result (pieces byte text.now ≡ text.now ∷ [])
        (λ parts. (pieces byte text.now ≡ parts.0.now ∷ pieces byte parts.1.now)
        × (length parts.0.now + 1 + length parts.1.now ≡ length text.now)) }
{
    let Some(at) = memchr(byte, text) else {
        return None;
    };
    Some((&text[..at], &text[at + 1..]))
}
