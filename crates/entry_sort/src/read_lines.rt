//! Reading the lines of a file.

ghost use Rattle.std.specs.Prelude.{◌≡◌, ◌≢◌, ◌≤◌, ◌^◌, Err, IfErr, IfOk, None, Option, List, [], false, ℕ};
ghost use Rattle.opl_codec.specs.internal.Loading.{ReadsAll, start};
ghost use Rattle.opl_codec.specs.LineReads.{LinePlace};
ghost use Rattle.entry_sort.specs.internal.Puts.{Gathered, HasGathered, HasPut, Put, SpellsPuts};

use crate::gathering::Gathering;
use external_sort::{RunStore, SortFault};
use opl_codec::{Change, LineReader, LoadFault, OplCause, OplFault};
use std::io::Read;

/// How the reading of a file ended.
#[derive(Clone, Copy, Debug)]
pub(crate) enum ReadEnd {
    /// All lines were read.
    All,
    /// A line can't be read, or deletes an object.
    Stopped(LoadFault),
    /// Two objects that were read have one reference.
    Repeated,
}

/// Reads the lines of a reader, of which nothing was read yet, and takes the objects that they put.
pub(crate) fn read_lines<R: Read, S: RunStore>(
    lines: &mut LineReader<R>,
    gathering: &mut Gathering<S>,
) -> Result<ReadEnd, SortFault>
    requires fresh { lines.old.fault ≡ None }
    requires at { lines.old.at ≡ start lines.old.at.left }
    ensures read { IfOk result (λ end. Gathered S.runs S.in_hand gathering.old [] →
        HasGathered S.runs S.in_hand lines.old.at.left end gathering.new) }
    ensures short { IfErr result (λ fault. fault ≢ SortFault.TooLong) }
    ensures device { S.may_refuse ≡ false → result ≢ Err SortFault.Device }
{
    'lines: loop {
        match lines.next_change() {
            Ok(Some((line, Change::Put(object)))) => {
                if !gathering.put(line, object)? {
                    return Ok(ReadEnd::Repeated);
                }
            }
            Ok(Some((line, Change::Delete(_)))) => return Ok(ReadEnd::Stopped(deleted(line))),
            Ok(None) => return read_all(gathering),
            Err(load) => return stopped(load),
        }
    }
}

/// The end of a file of which all lines were read.
fn read_all<S: RunStore>(gathering: &mut Gathering<S>) -> Result<ReadEnd, SortFault>
    ensures read { IfOk result (λ end. (known : Option (List ℕ)) (at : LinePlace) (puts : List Put) →
        HasPut known at puts → at.lines ≤ 2 ^ 48 → ReadsAll SpellsPuts known puts → Gathered S.runs S.in_hand gathering.old puts →
        HasGathered S.runs S.in_hand known end gathering.new) }
    ensures short { IfErr result (λ fault. fault ≢ SortFault.TooLong) }
    ensures device { S.may_refuse ≡ false → result ≢ Err SortFault.Device }
{
    if gathering.flush()? {
        Ok(ReadEnd::All)
    } else {
        Ok(ReadEnd::Repeated)
    }
}

/// The end of a file of which a line can't be read.
fn stopped(load: LoadFault) -> Result<ReadEnd, SortFault>
    ensures stopped { IfOk result (λ end. end ≡ ReadEnd.Stopped load) }
    ensures told { IfOk result (λ _. load.fault.cause ≢ OplCause.Memory) }
    ensures memory { IfErr result (λ fault. fault ≡ SortFault.Memory) }
{
    match load.fault.cause {
        OplCause::Memory => Err(SortFault::Memory),
        _ => Ok(ReadEnd::Stopped(load)),
    }
}

/// The fault of a line that deletes an object.
fn deleted(line: u64) -> LoadFault
    ensures { result ≡ record { line = line; fault = record { cause = OplCause.Deleted; byte = 0 } } }
{
    LoadFault {
        line,
        fault: OplFault {
            cause: OplCause::Deleted,
            byte: 0,
        },
    }
}
