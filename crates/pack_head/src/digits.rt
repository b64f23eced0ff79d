//! Numbers and roots by their digits.

ghost use Rattle.std.specs.Fmt.{decimal};
ghost use Rattle.std.specs.Prelude.{◌≡◌, ◌≢◌, ◌↔◌, ◌<◌, ◌^◌, ℕ, IsTrue, List, MatchOption};
ghost use Rattle.hex.specs.Hex.{encode_lower};
ghost use Rattle.pack_head.specs.Heads.{IsRoot};

use hex::FromHex;
use itoa::Buffer;
use std::str::from_utf8;
use tree_node::Digest;

/// The number of 64 bits that the text is in decimal, without leading zeros; `None` where it is none. It takes no memory.
pub(crate) fn read_number(text: &[u8]) -> Option<u64>
    ensures { MatchOption result ((number : ℕ) → number < 2 ^ 64 → text.now ≢ decimal number)
        (λ number. (text.now ≡ decimal number) × (number < 2 ^ 64)) }
{
    let Ok(digits) = from_utf8(text) else {
        return None;
    };
    let Ok(number) = digits.parse::<u64>() else {
        return None;
    };
    // Zeros and a plus may come first, which aren't written.
    if is_number_text(text, number) {
        Some(number)
    } else {
        None
    }
}

fn is_number_text(text: &[u8], number: u64) -> bool
    ensures { IsTrue result ↔ (text.now ≡ decimal number) }
{
    Buffer::new().format(number).as_bytes() == text
}

/// The number of 32 bits that the text is in decimal, as [`read_number`] reads it.
pub(crate) fn read_short(text: &[u8]) -> Option<u32>
    ensures { MatchOption result ((number : ℕ) → number < 2 ^ 32 → text.now ≢ decimal number)
        (λ number. (text.now ≡ decimal number) × (number < 2 ^ 32)) }
{
    u32::try_from(read_number(text)?).ok()
}

/// The root that the text is in 64 hexadecimal digits, in lower case; `None` where it is none. It takes no memory.
pub(crate) fn read_root(text: &[u8]) -> Option<Digest>
    ensures { MatchOption result ((root : List ℕ) → IsRoot root → text.now ≢ encode_lower root)
        (λ root. (text.now ≡ encode_lower root.0) × IsRoot root.0) }
{
    let Ok(bytes) = <[u8; 32] as FromHex>::from_hex(text) else {
        return None;
    };
    let root = Digest(bytes);
    // Digits in upper case may come, which aren't written.
    if is_root_text(text, &root) {
        Some(root)
    } else {
        None
    }
}

fn is_root_text(text: &[u8], root: &Digest) -> bool
    ensures { IsTrue result ↔ (text.now ≡ encode_lower root.now.0) }
{
    digits_of(root).as_slice() == text
}

/// The 64 hexadecimal digits of a root, in lower case.
pub(crate) fn digits_of(root: &Digest) -> [u8; 64]
    ensures { result ≡ encode_lower root.now.0 }
{
    let mut digits = [0; 64];
    match hex::encode_to_slice(root.0, &mut digits) {
        Ok(()) => digits,
        Err(_) => unreachable!("64 digits find room"),
    }
}
