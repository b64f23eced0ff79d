//! Where a record stands in a buffer.

ghost use Rattle.std.specs.Prelude.{◌≡◌, ◌<◌, ◌^◌, ◌+◌};
ghost use Rattle.external_sort.specs.internal.Places.{place_after};

use crate::spelling::HEADER_LEN;

/// Where the key of a record begins, where its value begins, and where the record ends.
#[derive(Clone, Copy)]
pub(crate) struct Place {
    pub(crate) key_start: usize,
    pub(crate) value_start: usize,
    pub(crate) end: usize,
}

impl Place {
    /// That of a record with these lengths whose header begins at `start`.
    pub(crate) fn after(start: usize, key_len: usize, value_len: usize) -> Place
        requires start { start < 2 ^ 63 }
        requires key { key_len < 2 ^ 16 }
        requires value { value_len < 2 ^ 32 }
        ensures { result ≡ place_after start key_len value_len }
    {
        let key_start = start + HEADER_LEN;
        let value_start = key_start + key_len;
        Place {
            key_start,
            value_start,
            end: value_start + value_len,
        }
    }
}
