//! Where the bytes of a pack come from.

ghost use Rattle.std.specs.Prelude.{◌≡◌, ◌≤◌, ◌<◌, ◌+◌, ◌++◌, ℕ, Err, IfErr, IfOk, List, OnOk, drop, false, length, take};

use crate::place::Place;
use std::alloc::{AllocError, AllocFailed};
use thiserror::Error;

/// Why no bytes were read.
#[derive(Clone, Copy, Debug, PartialEq, Eq, Error)]
pub enum ReadFault {
    /// The device or the connection failed, or there are fewer bytes.
    #[error("the device failed")]
    Device,
    /// Memory was refused.
    #[error("no memory")]
    Memory,
}

impl From<AllocError> for ReadFault {
    ghost use Rattle.node_pack.specs.declared.read_at.ReadFault.TheVariants.{Memory};

    ghost from_gives = { λ _ fault. fault ≡ Memory };

    fn from(_error: AllocError) -> ReadFault {
        ReadFault::Memory
    }
}

impl<T: Drop> From<AllocFailed<T>> for ReadFault {
    ghost use Rattle.node_pack.specs.declared.read_at.ReadFault.TheVariants.{Memory};

    ghost from_gives = { λ _ fault. fault ≡ Memory };

    fn from(_error: AllocFailed<T>) -> ReadFault {
        ReadFault::Memory
    }
}

/// Gives bytes by their offset.
pub trait ReadAt {
    /// Each read that succeeds is of these bytes. Of a device that may give anything there are none of which this is so.
    ghost reads: { Self → List ℕ → Type 0 };

    /// How many bytes there are.
    fn size(&mut self) -> Result<u64, ReadFault>
        ensures size { (bytes : List ℕ) → reads self.old bytes
            → IfOk result (λ size. size ≡ length bytes) }
        ensures stays { (bytes : List ℕ) → reads self.old bytes → reads self.new bytes };

    /// Appends this many bytes from the offset on to `into`. What a refusal leaves there is open.
    fn read_at(&mut self, offset: u64, len: usize, into: &mut Vec<u8>) -> Result<(), ReadFault>
        ensures read { (bytes : List ℕ) → reads self.old bytes → OnOk result
            (into.new.items ≡ into.old.items ++ take len (drop offset bytes)) }
        ensures stays { (bytes : List ℕ) → reads self.old bytes → reads self.new bytes };

    /// Whether each read takes a round trip, so that it pays to say beforehand what will be read.
    fn is_remote(&self) -> bool;

    /// A hint: the bytes at these places will be read. Whether they come doesn't show before they are.
    fn expect(&mut self, places: &[Place])
        ensures stays { (bytes : List ℕ) → reads self.old bytes → reads self.new bytes };
}

impl ReadAt for &[u8] {
    ghost reads = { λ slice bytes. slice.now ≡ bytes };

    /// It doesn't fail.
    fn size(&mut self) -> Result<u64, ReadFault>
        ensures size { (bytes : List ℕ) → self.old.now ≡ bytes
            → IfOk result (λ size. size ≡ length bytes) }
        ensures stays { (bytes : List ℕ) → self.old.now ≡ bytes → self.new.now ≡ bytes }
    {
        Ok(self.len() as u64)
    }

    /// It fails where the slice ends before, and else for memory alone.
    fn read_at(&mut self, offset: u64, len: usize, into: &mut Vec<u8>) -> Result<(), ReadFault>
        ensures read { (bytes : List ℕ) → self.old.now ≡ bytes → OnOk result
            (into.new.items ≡ into.old.items ++ take len (drop offset bytes)) }
        ensures stays { (bytes : List ℕ) → self.old.now ≡ bytes → self.new.now ≡ bytes }
        ensures within { offset + len ≤ length self.old.now
            → IfErr result (λ fault. fault ≡ ReadFault.Memory) }
        ensures beyond { length self.old.now < offset + len → result ≡ Err ReadFault.Device }
    {
        append_at(self, offset, len, into)
    }

    /// It is at hand.
    fn is_remote(&self) -> bool
        ensures { result ≡ false }
    {
        false
    }

    /// It takes no hint.
    fn expect(&mut self, _places: &[Place])
        ensures stays { (bytes : List ℕ) → self.old.now ≡ bytes → self.new.now ≡ bytes }
    {}
}

/// Appends this many of the bytes, from an offset on.
fn append_at(bytes: &[u8], offset: u64, len: usize, into: &mut Vec<u8>) -> Result<(), ReadFault>
    ensures read { OnOk result
        (into.new.items ≡ into.old.items ++ take len (drop offset bytes.now)) }
    ensures within { offset + len ≤ length bytes.now
        → IfErr result (λ fault. fault ≡ ReadFault.Memory) }
    ensures beyond { length bytes.now < offset + len → result ≡ Err ReadFault.Device }
{
    let size = bytes.len() as u64;
    if offset > size || len as u64 > size - offset {
        return Err(ReadFault::Device);
    }
    let start = offset as usize;
    into.extend_from_slice(&bytes[start..start + len])?;
    Ok(())
}
