//! Sorting the entries of the trees of a file's set.

ghost use Rattle.std.specs.Prelude.{◌≡◌, ◌≢◌, Err, IfErr, IfSome, List, OnOk, Option, false, true, ℕ};
ghost use Rattle.osm_model.specs.Elements.{Element};
ghost use Rattle.opl_codec.specs.Files.{HoldsSet};
ghost use Rattle.entry_sort.specs.Sorting.{Explains, IsFresh, IsOutside, TakesFile};
ghost use Rattle.entry_sort.specs.internal.Puts.{HasGathered, IsReady};

use crate::entry_fault::EntryFault;
use crate::entry_sink::{EntrySink, SinkFault};
use crate::entry_sorter::EntrySorter;
use crate::gathering::Gathering;
use crate::read_lines::{ReadEnd, read_lines};
use external_sort::{RunStore, SortFault, StoreMaker};
use opl_codec::{LineReader, LoadFault, OplCause, OplFault};
use std::alloc::Global;
use std::io::Read;

/// Reads the set of objects that an OPL file holds, as `opl_codec::read_set` does, and gives the entries of its four
/// trees to the sink: tree by tree, those of a tree by rising key, each once. The set may be larger than memory.
///
/// `memory` is in bytes: an eighth for the references of the objects, an eighth for the entries of each tree, and a
/// sixteenth for objects that are read together; the rest is for their entries while they are handed over. What vectors
/// reserve beyond may double it, and an object or an entry that is longer alone takes what it needs. Five stores are
/// made, and each is written and read once; that of the references is read only where they don't rise.
///
/// Refused with `Load` for the first line at fault, as `read_set` tells it, with `TooMany` where a tree has more than
/// 2^29 entries, with `Memory` where memory is refused, and with `Device` where the maker, a store or the sink refuses.
/// After a refusal the sink may have taken some of the entries. `Load` comes before any is given.
pub fn sort_entries<R: Read, S: RunStore, M: StoreMaker<S>, E: EntrySink>(
    alloc: Global,
    reader: &mut R,
    maker: &mut M,
    memory: usize,
    sink: &mut E,
) -> Result<(), EntryFault>
    // The sink has taken the entries of the trees of the set that the file holds.
    ensures taken { S.is_true ≡ true → IsFresh (E.taken sink.old) →
        OnOk result (IfSome (R.remaining reader.old) (TakesFile (E.taken sink.new))) }
    ensures same { OnOk result (E.is_same sink.old sink.new) }
    // What holds a set is taken, unless the fault lies outside it or a tree has too many entries.
    ensures only { S.is_true ≡ true → IsFresh (E.taken sink.old) →
        IfSome (R.remaining reader.old) (λ file. (set : List Element) → HoldsSet file set →
        IfErr result (IsOutside set)) }
    // Which fault it is.
    ensures refused { S.is_true ≡ true → IsFresh (E.taken sink.old) →
        IfSome (R.remaining reader.old) (λ file. IfErr result (Explains file)) }
    // Where no store and no sink refuses, none is at fault.
    ensures device { S.may_refuse ≡ false → S.is_true ≡ true → E.may_refuse ≡ false → result ≢ Err EntryFault.Device }
{
    let mut gathering = match Gathering::new(alloc, maker, memory) {
        Ok(gathering) => gathering,
        Err(_) => return Err(EntryFault::Device),
    };
    let mut lines = LineReader::new(alloc, reader);
    match read_lines(&mut lines, &mut gathering) {
        Ok(end) => give_gathered(alloc, gathering, end, sink),
        Err(fault) => Err(sorting(fault)),
    }
}

/// Gives the entries of what was gathered of a file whose reading ended so.
fn give_gathered<S: RunStore, E: EntrySink>(
    alloc: Global,
    gathering: Gathering<S>,
    end: ReadEnd,
    sink: &mut E,
) -> Result<(), EntryFault>
    ensures taken { S.is_true ≡ true → IsFresh (E.taken sink.old) → (known : Option (List ℕ)) →
        HasGathered S.runs S.in_hand known end gathering →
        OnOk result (IfSome known (TakesFile (E.taken sink.new))) }
    ensures same { OnOk result (E.is_same sink.old sink.new) }
    ensures refused { S.is_true ≡ true → IsFresh (E.taken sink.old) → (known : Option (List ℕ)) →
        HasGathered S.runs S.in_hand known end gathering →
        IfSome known (λ file. IfErr result (Explains file)) }
    ensures device { S.may_refuse ≡ false → S.is_true ≡ true → E.may_refuse ≡ false → (known : Option (List ℕ)) →
        HasGathered S.runs S.in_hand known end gathering → result ≢ Err EntryFault.Device }
{
    match gathering.names.first_repeat(alloc) {
        Ok(Some(line)) => Err(EntryFault::Load(repeated(line))),
        Ok(None) => give_entries(alloc, gathering.entries, end, sink),
        Err(fault) => Err(sorting(fault)),
    }
}

/// Gives the entries, if all lines were read; no reference is repeated.
fn give_entries<S: RunStore, E: EntrySink>(
    alloc: Global,
    entries: EntrySorter<S>,
    end: ReadEnd,
    sink: &mut E,
) -> Result<(), EntryFault>
    ensures taken { S.is_true ≡ true → IsFresh (E.taken sink.old) → (known : Option (List ℕ)) →
        IsReady S.runs S.in_hand known end entries →
        OnOk result (IfSome known (TakesFile (E.taken sink.new))) }
    ensures same { OnOk result (E.is_same sink.old sink.new) }
    ensures refused { S.is_true ≡ true → IsFresh (E.taken sink.old) → (known : Option (List ℕ)) →
        IsReady S.runs S.in_hand known end entries →
        IfSome known (λ file. IfErr result (Explains file)) }
    ensures device { S.may_refuse ≡ false → S.is_true ≡ true → E.may_refuse ≡ false → (known : Option (List ℕ)) →
        IsReady S.runs S.in_hand known end entries → result ≢ Err EntryFault.Device }
{
    match end {
        ReadEnd::All => match entries.give(alloc, sink) {
            Ok(()) => Ok(()),
            Err(SinkFault::TooMany) => Err(EntryFault::TooMany),
            Err(SinkFault::Memory) => Err(EntryFault::Memory),
            Err(SinkFault::Device) => Err(EntryFault::Device),
        },
        ReadEnd::Stopped(load) => Err(EntryFault::Load(load)),
        // A store lost the line that repeats a reference.
        ReadEnd::Repeated => Err(EntryFault::Device),
    }
}

/// The fault of a line that puts an object which a line before it puts.
fn repeated(line: u64) -> LoadFault
    ensures { result ≡ record { line = line; fault = record { cause = OplCause.OutsideModel; byte = 0 } } }
{
    LoadFault {
        line,
        fault: OplFault {
            cause: OplCause::OutsideModel,
            byte: 0,
        },
    }
}

/// The fault of a sorter.
fn sorting(fault: SortFault) -> EntryFault
    requires { fault ≢ SortFault.TooLong }
    ensures outside { (file : List ℕ) → Explains file result }
    ensures device { result ≡ EntryFault.Device → fault ≡ SortFault.Device }
{
    match fault {
        SortFault::Memory => EntryFault::Memory,
        SortFault::Device => EntryFault::Device,
        SortFault::TooLong => unreachable!("references and entries are short"),
    }
}
