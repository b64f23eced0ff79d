//! How a record stands in a run.

ghost use Rattle.std.specs.Prelude.{◌≡◌, ◌<◌, ◌^◌, ◌++◌, ℕ, List, OnOk, length};
ghost use Rattle.external_sort.specs.Records.{Fits, entry};
ghost use Rattle.external_sort.specs.internal.Spelling.{spelled};

use std::alloc::AllocError;

/// How many bytes stand before a key: the length of the key in two bytes and that of the value in four, the greatest byte first.
pub(crate) const HEADER_LEN: usize = 6;

/// Appends a record: its lengths, its key, its value. Where memory is refused, some first part of it is appended.
pub(crate) fn push_spelled(bytes: &mut Vec<u8>, key: &[u8], value: &[u8]) -> Result<(), AllocError>
    requires { Fits (entry key.now value.now) }
    ensures whole { OnOk result
        (bytes.new.items ≡ bytes.old.items ++ spelled (entry key.now value.now)) }
    ensures kept { (more : List ℕ) × (bytes.new.items ≡ bytes.old.items ++ more) }
{
    let key_len = key.len() as u16;
    let value_len = value.len() as u32;
    bytes.extend_from_slice(&key_len.to_be_bytes())?;
    bytes.extend_from_slice(&value_len.to_be_bytes())?;
    bytes.extend_from_slice(key)?;
    bytes.extend_from_slice(value)
}
