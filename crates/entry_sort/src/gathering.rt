//! Taking the objects of a file.

ghost use Rattle.std.specs.Prelude.{◌≡◌, ◌≢◌, ◌++◌, ◌∷◌, Err, IfErr, IfOk, IsOk, List, [], false};
ghost use Rattle.entry_sort.specs.internal.Puts.{FlushesIf, Gathered, GathersIf, Put, put_of};

use crate::entry_sorter::EntrySorter;
use crate::name_sorter::NameSorter;
use crate::object_len::object_len;
use external_sort::{RunStore, SortFault, StoreFault, StoreMaker};
use osm_model::{Object, ObjectSet};
use std::alloc::Global;

/// Takes the objects of a file, in any order: gathers some, and hands the entries of these to the sorters together. After
/// a fault it is of no more use.
#[derive(Drop)]
pub(crate) struct Gathering<S: RunStore> {
    alloc: Global,
    pub(crate) entries: EntrySorter<S>,
    pub(crate) names: NameSorter<S>,
    /// The objects whose entries weren't handed over yet.
    chunk: Vec<Object>,
    /// About how many bytes these take.
    len: usize,
    /// From how many bytes on they are handed over.
    room: usize,
}

impl<S: RunStore> Gathering<S> {
    /// No objects. Of `memory`, in bytes, an eighth is for the references, an eighth for the entries of each tree, and a
    /// sixteenth for objects that are gathered; the rest is for their entries while they are handed over.
    pub(crate) fn new<M: StoreMaker<S>>(
        alloc: Global,
        maker: &mut M,
        memory: usize,
    ) -> Result<Gathering<S>, StoreFault>
        ensures none { IfOk result (λ gathering. Gathered S.runs S.in_hand gathering []) }
        ensures device { S.may_refuse ≡ false → IsOk result }
    {
        let entries = EntrySorter::new(alloc, maker, memory / 2)?;
        let names = NameSorter::new(alloc, maker.make_store()?, memory / 8);
        Ok(Gathering {
            alloc,
            entries,
            names,
            chunk: Vec::new(alloc),
            len: 0,
            room: memory / 16,
        })
    }

    /// Takes the object of a line. Says whether more lines may be of use: no longer where two objects that were gathered
    /// have one reference.
    pub(crate) fn put(&mut self, line: u64, object: Object) -> Result<bool, SortFault>
        ensures put { IfOk result (λ goes_on. (puts : List Put) → Gathered S.runs S.in_hand self.old puts →
            GathersIf S.runs S.in_hand goes_on self.new (puts ++ put_of line object ∷ [])) }
        ensures short { IfErr result (λ fault. fault ≢ SortFault.TooLong) }
        ensures device { S.may_refuse ≡ false → result ≢ Err SortFault.Device }
    {
        self.names.add(object.reference(), line)?;
        self.len = self.len.saturating_add(object_len(&object));
        self.chunk.push(object)?;
        if self.len < self.room {
            return Ok(true);
        }
        self.flush()
    }

    /// Hands the entries of the objects that were gathered to the sorters. Says whether it did: it doesn't where two of
    /// them have one reference.
    pub(crate) fn flush(&mut self) -> Result<bool, SortFault>
        ensures flushed { IfOk result (λ done. (puts : List Put) → Gathered S.runs S.in_hand self.old puts →
            FlushesIf S.runs S.in_hand done self.new puts) }
        ensures short { IfErr result (λ fault. fault ≢ SortFault.TooLong) }
        ensures device { S.may_refuse ≡ false → result ≢ Err SortFault.Device }
    {
        let chunk = std::mem::replace(&mut self.chunk, Vec::new(self.alloc));
        self.len = 0;
        match ObjectSet::from_objects(chunk) {
            Ok(set) => {
                self.entries.add(self.alloc, &set)?;
                Ok(true)
            }
            Err(_) => Ok(false),
        }
    }
}
