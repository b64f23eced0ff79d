//! The lengths before a record.

ghost use Rattle.std.specs.Prelude.{◌≡◌, ◌<◌, ◌+◌, ◌++◌, ℕ, List, IfSome, length, take, drop, MatchOption};
ghost use Rattle.std.specs.Int.{w16, w32, from_be_bytes};

use crate::spelling::HEADER_LEN;

/// Where the key of the record ends with which the bytes begin, and where the record ends; none where not even its lengths
/// are there.
pub(crate) fn read_header(bytes: &[u8]) -> Option<(usize, usize)>
    ensures { MatchOption result (length bytes.now < 6)
        (λ ends. (ends.0 ≡ 6 + from_be_bytes w16 (take 2 bytes.now))
        × (ends.1 ≡ ends.0 + from_be_bytes w32 (take 4 (drop 2 bytes.now)))) }
{
    let [a, b, c, d, e, f, ..] = *bytes else {
        return None;
    };
    let key_end = HEADER_LEN + u16::from_be_bytes([a, b]) as usize;
    Some((key_end, key_end + u32::from_be_bytes([c, d, e, f]) as usize))
}
