//! Digests: FIPS 180-4's empty message and its message `abc`.

use tree_node::{Digest, Part, digest_of};

const DIGESTS: [(&[u8], &str); 2] = [
    (
        b"",
        "e3b0c44298fc1c149afbf4c8996fb92427ae41e4649b934ca495991b7852b855",
    ),
    (
        b"abc",
        "ba7816bf8f01cfea414140de5dae2223b00361a396177a9cb410ff61f20015ad",
    ),
];

/// Whether the text is the digest in lower-case hexadecimal.
pub(super) fn is_shown(digest: &Digest, text: &str) -> bool {
    let mut digits = text.chars();
    for byte in digest.0 {
        for number in [byte / 16, byte % 16] {
            if digits.next() != char::from_digit(u32::from(number), 16) {
                return false;
            }
        }
    }
    digits.next().is_none()
}

#[test]
fn digests(rt: HostRuntime) {
    for (message, wanted) in &DIGESTS {
        let digest = digest_of(message);
        assert!(rt; is_shown(&digest, wanted), "{wanted}");
        let part = Part::new(message);
        assert!(rt; part.digest() == digest && part.bytes() == *message);
        assert!(rt; Digest::from_slice(&digest.0) == Some(digest));
    }
    assert!(rt; Digest::from_slice(b"abc").is_none());
}
