//! The records in memory.

ghost use Rattle.std.specs.Prelude.{◌≡◌, ◌<◌, ◌+◌, ◌-◌, ◌++◌, ◌∷◌, ℕ, List, [], IfErr, IsOk, OnErr, OnOk, Some, false, length, slice_get};
ghost use Rattle.std.specs.List.{All, flat_map};
ghost use Rattle.std.specs.List.Sorted.{IsPermutation};
ghost use Rattle.external_sort.specs.Records.{Fits, Rises, entry};
ghost use Rattle.external_sort.specs.internal.Spelling.{spelled};

use crate::fault::SortFault;
use crate::part::part;
use crate::place::Place;
use crate::place_order::sort_places;
use crate::record::Record;
use crate::run_store::RunStore;
use crate::spelling::{HEADER_LEN, push_spelled};
use std::alloc::{AllocError, Global};
use std::marker::Model;

/// Records in memory, in one buffer. Contracts see them in their order.
#[derive(Drop)]
pub(crate) struct Batch {
    bytes: Vec<u8>,
    places: Vec<Place>,
}

impl Model for Batch {
    ghost use Rattle.std.specs.Prelude.{List, map};
    ghost use Rattle.external_sort.specs.Records.{Entry};
    ghost use Rattle.external_sort.specs.internal.Places.{IsBatch, entry_at};

    ghost Value = { List Entry };

    ghost view = { λ b. map (entry_at b.bytes.items) b.places.items };

    ghost invariant = { λ b. IsBatch b.bytes.items b.places.items };
}

impl Batch {
    /// No records. It takes no memory.
    pub(crate) fn new(alloc: Global) -> Batch
        ensures { result ≡ [] }
    {
        Batch {
            bytes: Vec::new(alloc),
            places: Vec::new(alloc),
        }
    }

    /// How many records there are.
    pub(crate) fn len(&self) -> usize
        ensures { result ≡ length self.now }
    {
        self.places.len()
    }

    /// How many bytes the records take in a run.
    pub(crate) fn bytes_len(&self) -> usize
        ensures { result ≡ length (flat_map spelled self.now) }
    {
        self.bytes.len()
    }

    /// How much memory the records take, with their places.
    pub(crate) fn size(&self) -> usize {
        self.bytes
            .len()
            .saturating_add(self.places.len().saturating_mul(size_of::<Place>()))
    }

    /// Adds a record. Where memory is refused the records stay.
    pub(crate) fn push(&mut self, key: &[u8], value: &[u8]) -> Result<(), AllocError>
        requires { Fits (entry key.now value.now) }
        ensures pushed { OnOk result (self.new ≡ self.old ++ entry key.now value.now ∷ []) }
        ensures kept { OnErr result (self.new ≡ self.old) }
    {
        let start = self.bytes.len();
        let place = Place::after(start, key.len(), value.len());
        self.places.reserve(1)?;
        if push_spelled(&mut self.bytes, key, value).is_err() || self.places.push(place).is_err() {
            self.bytes.truncate(start);
            return Err(AllocError);
        }
        Ok(())
    }

    /// Sorts the records by their keys, in n log n steps and without memory of its own. Those with one key come in any order.
    pub(crate) fn sort(&mut self)
        ensures permutation { IsPermutation self.old self.new }
        ensures rises { Rises self.new }
        ensures fit { All Fits self.new }
    {
        sort_places(&mut self.places, &self.bytes);
    }

    /// Adds the records to the run in hand.
    pub(crate) fn write<S: RunStore>(&self, store: &mut S) -> Result<(), SortFault>
        ensures in_hand { OnOk result
            (S.in_hand store.new ≡ S.in_hand store.old ++ flat_map spelled self.now) }
        ensures runs { OnOk result (S.runs store.new ≡ S.runs store.old) }
        ensures fault { IfErr result (λ fault. fault ≡ SortFault.Device) }
        ensures device { S.may_refuse ≡ false → IsOk result }
    {
        for place in &self.places {
            let start = place.key_start.saturating_sub(HEADER_LEN);
            store.append(part(&self.bytes, start, place.end))?;
        }
        Ok(())
    }

    /// A record, by its number from 0 on.
    pub(crate) fn record(&self, at: usize) -> Record<'_>
        requires { at < length self.now }
        ensures { slice_get self.now at ≡ Some (entry result.key.now result.value.now) }
    {
        let place = self.places[at];
        Record {
            key: part(&self.bytes, place.key_start, place.value_start),
            value: part(&self.bytes, place.value_start, place.end),
        }
    }

    /// Drops the records, and keeps the memory.
    pub(crate) fn clear(&mut self)
        ensures { self.new ≡ [] }
    {
        self.bytes.clear();
        self.places.clear();
    }
}
