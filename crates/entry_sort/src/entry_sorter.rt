//! Sorters of the entries of the four trees.

ghost use Rattle.std.specs.Prelude.{◌≡◌, ◌≢◌, ◌++◌, Err, IfErr, IfOk, IsOk, List, OnOk, [], false, true};
ghost use Rattle.osm_keys.specs.Entries.{AreEntriesOf};
ghost use Rattle.osm_keys.specs.Grains.{Whole};
ghost use Rattle.osm_keys.specs.Publications.{HasTooMany};
ghost use Rattle.osm_model.specs.Elements.{Element};
ghost use Rattle.osm_model.specs.Sets.{IsObjectSet};
ghost use Rattle.tree_node.specs.declared.tree.Tree.{Tree as TreeWord};
ghost use Rattle.entry_sort.specs.Holding.{HoldsEntries};

use crate::entry_sink::{EntrySink, SinkFault};
use crate::give::give_tree;
use crate::tree_entries::push_entries;
use external_sort::{RunStore, SortFault, Sorter, StoreFault, StoreMaker};
use osm_model::ObjectSet;
use std::alloc::Global;
use tree_node::Tree;

/// Takes sets of objects and sorts the entries of the four trees of all of them, more than memory holds. After a fault
/// it is of no more use.
#[derive(Drop)]
pub struct EntrySorter<S: RunStore> {
    objects: Sorter<S>,
    tags: Sorter<S>,
    cells: Sorter<S>,
    backs: Sorter<S>,
    /// How many objects were taken.
    object_count: u64,
}

impl<S: RunStore> EntrySorter<S> {
    /// Holds no entries. Each tree has a store of its own, and a fourth of `memory`, in bytes, as `Sorter::new` says.
    /// It takes no memory yet.
    ///
    /// Refused where the device fails.
    pub fn new<M: StoreMaker<S>>(
        alloc: Global,
        maker: &mut M,
        memory: usize,
    ) -> Result<EntrySorter<S>, StoreFault>
        ensures none { IfOk result (λ sorter. HoldsEntries S.runs S.in_hand sorter []) }
        ensures device { S.may_refuse ≡ false → IsOk result }
    {
        let share = memory / 4;
        Ok(EntrySorter {
            objects: Sorter::new(alloc, maker.make_store()?, share),
            tags: Sorter::new(alloc, maker.make_store()?, share),
            cells: Sorter::new(alloc, maker.make_store()?, share),
            backs: Sorter::new(alloc, maker.make_store()?, share),
            object_count: 0,
        })
    }

    /// Takes the entries of the trees of one more set. Besides what it keeps, it takes memory for the entries of one
    /// tree of the set (see `osm_index::entries_of` and `EntryList::sorted`).
    ///
    /// Refused with `Memory` where memory is refused, and with `Device` where a store refuses.
    pub fn add(&mut self, alloc: Global, set: &ObjectSet) -> Result<(), SortFault>
        ensures held { OnOk result ((objects : List Element) →
            HoldsEntries S.runs S.in_hand self.old objects →
            HoldsEntries S.runs S.in_hand self.new (objects ++ set.now)) }
        ensures short { IfErr result (λ fault. fault ≢ SortFault.TooLong) }
        ensures device { S.may_refuse ≡ false → result ≢ Err SortFault.Device }
    {
        let count = set.as_slice().len() as u64;
        self.object_count = self.object_count.saturating_add(count);
        push_entries(alloc, &mut self.objects, set, Tree::Objects)?;
        push_entries(alloc, &mut self.tags, set, Tree::Tags)?;
        push_entries(alloc, &mut self.cells, set, Tree::Cells)?;
        push_entries(alloc, &mut self.backs, set, Tree::Backs)
    }

    /// Gives the entries of the trees of the set that all objects make: tree by tree, those of a tree by rising key,
    /// each once. No two of the objects have one reference. The sink is told of each tree before its records are merged.
    ///
    /// Refused with `TooMany` where a tree has more than 2^29 entries, with `Memory` where memory is refused, and with
    /// `Device` where a store or the sink refuses.
    pub fn give<E: EntrySink>(self, alloc: Global, sink: &mut E) -> Result<(), SinkFault>
        ensures taken { S.is_true ≡ true → ((tree : TreeWord) → E.taken sink.old tree ≡ []) →
            (set : List Element) → IsObjectSet set → HoldsEntries S.runs S.in_hand self set →
            OnOk result ((tree : TreeWord) → AreEntriesOf Whole set tree (E.taken sink.new tree)) }
        ensures same { OnOk result (E.is_same sink.old sink.new) }
        ensures many { S.is_true ≡ true → ((tree : TreeWord) → E.taken sink.old tree ≡ []) →
            (set : List Element) → IsObjectSet set → HoldsEntries S.runs S.in_hand self set →
            result ≡ Err SinkFault.TooMany → HasTooMany set }
        ensures device { S.may_refuse ≡ false → S.is_true ≡ true → E.may_refuse ≡ false → (set : List Element) →
            HoldsEntries S.runs S.in_hand self set → result ≢ Err SinkFault.Device }
    {
        let count = self.object_count;
        give_tree(alloc, self.objects, Tree::Objects, count, sink)?;
        give_tree(alloc, self.tags, Tree::Tags, count, sink)?;
        give_tree(alloc, self.cells, Tree::Cells, count, sink)?;
        give_tree(alloc, self.backs, Tree::Backs, count, sink)
    }
}
