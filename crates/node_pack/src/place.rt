//! Where a record stands.

ghost use Rattle.std.specs.Prelude.{◌≡◌, ◌<◌, ◌≤◌, MatchOption, drop, length};
ghost use Rattle.node_pack.specs.Places.{first_place};

/// Where the record of a node stands: the number of its file times 2^48, and its offset there; and its length.
#[derive(Clone, Copy, Debug, PartialEq, Eq, PartialOrd, Ord)]
pub struct Place {
    pub at: u64,
    pub len: u32,
}

impl Place {
    /// The place at the front of these bytes, and the bytes after it; none where they are fewer than twelve.
    pub(crate) fn split(bytes: &[u8]) -> Option<(Place, &[u8])>
        ensures { MatchOption result (length bytes.now < 12)
            (λ found. (12 ≤ length bytes.now) × (found.0 ≡ first_place bytes.now)
            × (found.1.now ≡ drop 12 bytes.now)) }
    {
        let (at, rest) = bytes.split_first_chunk()?;
        let (len, rest) = rest.split_first_chunk()?;
        let place = Place {
            at: u64::from_be_bytes(*at),
            len: u32::from_be_bytes(*len),
        };
        Some((place, rest))
    }
}
