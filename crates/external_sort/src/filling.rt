//! Reading a part of a run into a buffer.

ghost use Rattle.std.specs.Prelude.{◌≡◌, ◌≢◌, ◌≤◌, ◌-◌, ◌++◌, ℕ, List, Err, IfErr, OnOk, length, drop, slice_range, take, false, true, vec_len};
ghost use Rattle.external_sort.specs.Runs.{run_at};
ghost use Rattle.external_sort.specs.internal.Reading.{HasBytes};

use crate::fault::SortFault;
use crate::run_store::RunStore;
use std::alloc::AllocError;

/// Reads the bytes of a run from an offset on, as many as `into` has.
pub(crate) fn fill<S: RunStore>(
    store: &mut S,
    run: usize,
    offset: u64,
    into: &mut [u8],
) -> Result<(), SortFault>
    ensures read { S.is_true ≡ true → OnOk result
        (into.new ≡ take (length into.old) (drop offset (run_at run (S.runs store.old)))) }
    ensures runs { OnOk result (S.runs store.new ≡ S.runs store.old) }
    ensures short { IfErr result (λ fault. fault ≢ SortFault.TooLong) }
    ensures device { S.may_refuse ≡ false → HasBytes (S.runs store.old) run offset (length into.old) →
        result ≢ Err SortFault.Device }
{
    store.read(run, offset, into)?;
    Ok(())
}

/// Moves a part of the buffer to its front.
pub(crate) fn shift_down(buffer: &mut Vec<u8>, start: usize, end: usize)
    requires part { start ≤ end }
    requires within { end ≤ vec_len buffer.old }
    ensures front { slice_range buffer.new.items 0 (end - start) ≡ slice_range buffer.old.items start end }
    ensures len { vec_len buffer.new ≡ vec_len buffer.old }
{
    buffer.copy_within(start..end, 0);
}

/// Gives the buffer this length at least. Where memory is refused it stays.
pub(crate) fn grow(buffer: &mut Vec<u8>, len: usize) -> Result<(), AllocError>
    ensures kept { (more : List ℕ) × (buffer.new.items ≡ buffer.old.items ++ more) }
    ensures len { OnOk result (len ≤ vec_len buffer.new) }
{
    if buffer.len() < len {
        buffer.resize(len, 0)?;
    }
    Ok(())
}
