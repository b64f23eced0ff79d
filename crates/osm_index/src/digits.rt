//! Digests as digits.

ghost use Rattle.std.specs.Prelude.{◌≡◌, ◌↔◌, IsTrue};
ghost use Rattle.hex.specs.Hex.{encode_lower};

use tree_node::Digest;

/// Whether the text is the 64 hexadecimal digits of the digest, in lower case. It takes no memory.
pub(crate) fn are_digits_of(text: &[u8], digest: &Digest) -> bool
    ensures { IsTrue result ↔ (text.now ≡ encode_lower digest.now.0) }
{
    let mut digits = [0; 64];
    match hex::encode_to_slice(digest.0, &mut digits) {
        Ok(()) => digits.as_slice() == text,
        Err(_) => unreachable!("64 digits find room"),
    }
}
