//! Writers whose text takes the place of an older one.

ghost use Rattle.std.specs.Prelude.{◌≡◌, ◌⊎◌, Bool, IfErr, OnErr, OnOk, true};
ghost use Rattle.std.specs.Io.KnownBytes.{Keeps};

use crate::command_fault::CommandFault;
use crate::flushing_writer::FlushingWriter;

/// A writer whose text may be kept aside until it is whole, and takes the place of an older one then, as a file does that is
/// written under another name and renamed.
pub trait ReplacingWriter: FlushingWriter {
    /// Whether all that was written is in its place.
    ghost is_in_place: { Self → Bool };

    /// Puts what was written in its place. Refused with `Device` where that fails: what was there before stays.
    fn put_in_place(&mut self) -> Result<(), CommandFault>
        ensures placed { OnOk result (is_in_place self.new ≡ true) }
        ensures failed { OnErr result (is_in_place self.new ≡ is_in_place self.old) }
        ensures flushed { OnOk result (Self.is_flushed self.new ≡ Self.is_flushed self.old) }
        ensures kept { Keeps (Self.contents self.old) (Self.contents self.new) }
        ensures device { IfErr result (λ fault. fault ≡ CommandFault.Device) };
}

/// Nothing is kept aside.
impl ReplacingWriter for Vec<u8> {
    ghost is_in_place = { λ _. true };

    fn put_in_place(&mut self) -> Result<(), CommandFault> {
        Ok(())
    }
}

/// Puts two texts in their places, one after the other. Refused with `Device` where one can't be put there: the second one
/// then isn't, and where it is the first that can't be, neither is.
pub(crate) fn put_both_in_place<A: ReplacingWriter, P: ReplacingWriter>(
    first: &mut A,
    second: &mut P,
) -> Result<(), CommandFault>
    ensures placed { OnOk result ((A.is_in_place first.new ≡ true)
        × (P.is_in_place second.new ≡ true)) }
    // The second is put in its place after the first: where the first can't be, the second isn't touched,
    ensures in_order { OnErr result (((A.is_in_place first.new ≡ A.is_in_place first.old)
        × (second.new ≡ second.old))
        ⊎ ((A.is_in_place first.new ≡ true)
        × (P.is_in_place second.new ≡ P.is_in_place second.old))) }
    ensures flushed { OnOk result ((A.is_flushed first.new ≡ A.is_flushed first.old)
        × (P.is_flushed second.new ≡ P.is_flushed second.old)) }
    // and neither gains anything.
    ensures kept { Keeps (A.contents first.old) (A.contents first.new)
        × Keeps (P.contents second.old) (P.contents second.new) }
    ensures device { IfErr result (λ fault. fault ≡ CommandFault.Device) }
{
    first.put_in_place()?;
    second.put_in_place()
}
