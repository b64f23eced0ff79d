//! The four trees of a set, while their entries come.

ghost use Rattle.std.specs.Prelude.{◌≡◌, ◌⊎◌, ◌↔◌, ◌-◌, [], ℕ, List, Err, IfOk, Ok, OnOk, Some, length, map, slice_index};
ghost use Rattle.tree_build.specs.Shapes.{shape_of};
ghost use Rattle.tree_node.specs.Digests.{digest as digest_word};
ghost use Rattle.tree_node.specs.NodeRefs.{number_of};
ghost use Rattle.tree_node.specs.Nodes.{Binding, spelling};
ghost use Rattle.tree_node.specs.Trees.{FitsTree, Shape as TreeShape, level_at, levels as levels_of, top_of};
ghost use Rattle.tree_node.specs.declared.limits.TheConstants.{ENTRY_LIMIT};
ghost use Rattle.tree_node.specs.declared.tree.Tree.{Tree};
ghost use Rattle.tree_stream.specs.Faults.{stream_fault_of};
ghost use Rattle.tree_stream.specs.Streams.{IsNextKey};
ghost use Rattle.tree_stream.specs.declared.fault.WriterFault.{WriterFault};
ghost use Rattle.level_files.specs.Built.{fault_in, HasEntries, fault_told, top_in, with_entry};
ghost use Rattle.level_files.specs.Stored.{level_of_tree};
ghost use Rattle.level_files.specs.Levels.{unread_level};

use crate::stored_levels::StoredLevels;
use crate::tree_writer::TreeWriter;
use external_sort::{RunStore, StoreMaker};
use std::alloc::Global;
use tree_build::Shape;
use tree_node::{Digest, Tree};
use tree_stream::{StreamFault, WriterFault};

/// The four trees of a set, while their entries come: those of each tree in rising order of their keys, and those of
/// different trees mixed as they may be. The nodes that they complete go to a device at once, so what is held in memory
/// doesn't grow with the set.
///
/// A level of a tree takes two stores, which are made when its first node is complete: one for its nodes, and one for five
/// bytes a node, which tell its length. A tree has at most 30 levels.
///
/// After `Memory` and `Device` each further call is refused with the same fault.
#[derive(Drop)]
pub struct TreesBuilder<S: RunStore, M> {
    objects: TreeWriter<S, M>,
    tags: TreeWriter<S, M>,
    cells: TreeWriter<S, M>,
    backs: TreeWriter<S, M>,
}

/// The four trees of a set, whose nodes were all written.
#[derive(Drop)]
pub struct FinishedTrees<S: RunStore> {
    /// The digests of the tops of the object, tag, cell and back tree.
    pub tops: [Digest; 4],
    /// The numbers of their levels, in the same order: from 1 to 30.
    pub heights: [u8; 4],
    /// Their nodes.
    pub levels: StoredLevels<S>,
}

impl<S: RunStore, M: StoreMaker<S>> TreesBuilder<S, M> {
    /// No entry was taken yet. The trees are of this shape. Each has a maker of stores, in the order of the trees' numbers.
    /// It takes no memory and makes no store yet.
    pub fn new(alloc: Global, shape: Shape, makers: [M; 4]) -> TreesBuilder<S, M>
        ensures { HasEntries result (shape_of shape) (λ tree. []) }
    {
        let [objects, tags, cells, backs] = makers;
        TreesBuilder {
            objects: TreeWriter::new(alloc, Tree::Objects, shape, objects),
            tags: TreeWriter::new(alloc, Tree::Tags, shape, tags),
            cells: TreeWriter::new(alloc, Tree::Cells, shape, cells),
            backs: TreeWriter::new(alloc, Tree::Backs, shape, backs),
        }
    }

    /// Takes the next entry of a tree, and writes the nodes that it completes. It is linear in the bytes of the entry and of
    /// these nodes. In the second shape it digests the key at most once.
    ///
    /// Refused with `NotRising` where the key isn't above that of the tree's entry before, else with `TooLong` where the key
    /// has more than 8,203 bytes or the value more than 2^24, and else with `TooMany` where the tree has 2^29 entries: the
    /// builder is then as before. Otherwise only `Memory` and `Device` refuse an entry, and after one of these each further
    /// call is refused with it. `Device` is also told where a level has 2^32 nodes or more.
    pub fn push(&mut self, tree: Tree, key: &[u8], value: &[u8]) -> Result<(), StreamFault>
        // It has then taken this entry after those of its tree.
        ensures taken { (shape : TreeShape) (entries : Tree → List Binding)
            → HasEntries self.old shape entries
            → OnOk result (HasEntries self.new shape
            (with_entry entries tree (record { key = key.now; value = value.now }))) }
        // An entry is refused as not rising exactly where its key isn't above those of its tree,
        ensures rising { (shape : TreeShape) (entries : Tree → List Binding)
            → HasEntries self.old shape entries
            → (result ≡ Err StreamFault.NotRising) ↔ ¬ IsNextKey (entries tree) key.now }
        // as too long exactly where its key is above those, and its key or its value is too long,
        ensures long { (shape : TreeShape) (entries : Tree → List Binding)
            → HasEntries self.old shape entries
            → (result ≡ Err StreamFault.TooLong) ↔ (IsNextKey (entries tree) key.now
            × ¬ FitsTree (record { key = key.now; value = value.now })) }
        // and as one too many exactly where it could be taken, but its tree has as many as it may.
        ensures many { (shape : TreeShape) (entries : Tree → List Binding)
            → HasEntries self.old shape entries
            → (result ≡ Err StreamFault.TooMany) ↔ (IsNextKey (entries tree) key.now
            × FitsTree (record { key = key.now; value = value.now })
            × (length (entries tree) ≡ ENTRY_LIMIT)) }
        // An entry that is refused for what it is changes nothing.
        ensures unchanged { (result ≡ Err StreamFault.NotRising) ⊎ (result ≡ Err StreamFault.TooLong)
            ⊎ (result ≡ Err StreamFault.TooMany) → self.new ≡ self.old }
        // A fault of memory or of the device is kept, and refuses each further call.
        ensures kept { (fault : WriterFault) → fault_in result ≡ Some fault
            → fault_told self.new ≡ Some fault }
        ensures spent { (fault : WriterFault) → fault_told self.old ≡ Some fault
            → result ≡ Err (stream_fault_of fault) }
    {
        if let Some(fault) = self.fault() {
            return Err(StreamFault::from(fault));
        }
        match tree {
            Tree::Objects => self.objects.push(key, value),
            Tree::Tags => self.tags.push(key, value),
            Tree::Cells => self.cells.push(key, value),
            Tree::Backs => self.backs.push(key, value),
        }
    }

    /// The fault that was told.
    fn fault(&self) -> Option<WriterFault>
        ensures { result ≡ fault_told self.now }
    {
        self.objects
            .fault()
            .or(self.tags.fault())
            .or(self.cells.fault())
            .or(self.backs.fault())
    }
}

impl<S: RunStore, M: StoreMaker<S> + Drop> TreesBuilder<S, M> {
    /// Ends the trees: writes the nodes that are still pending, up to the tops. It is linear in the bytes of these nodes.
    ///
    /// Refused only with `Memory` and `Device`.
    pub fn finish(self) -> Result<FinishedTrees<S>, WriterFault>
        // The levels of each tree hold just the nodes of those of the tree of its entries, in order, all yet to be read.
        ensures nodes { (shape : TreeShape) (entries : Tree → List Binding) → HasEntries self shape entries
            → IfOk result (λ done. (tree : Tree) (level : ℕ) → level_of_tree done.levels tree level
            ≡ unread_level (map spelling
            (level_at (levels_of shape (number_of tree) (entries tree)) level))) }
        // It gives the digests of the tops of these trees,
        ensures tops { (shape : TreeShape) (entries : Tree → List Binding) → HasEntries self shape entries
            → IfOk result (λ done. (tree : Tree) → top_in done.tops tree
            ≡ digest_word (top_of (levels_of shape (number_of tree) (entries tree)))) }
        // and the numbers of their levels.
        ensures heights { (shape : TreeShape) (entries : Tree → List Binding) → HasEntries self shape entries
            → IfOk result (λ done. (tree : Tree) → slice_index done.heights (number_of tree - 1)
            ≡ length (levels_of shape (number_of tree) (entries tree))) }
        // After a fault it is refused with this fault.
        ensures spent { (fault : WriterFault) → fault_told self ≡ Some fault → result ≡ Err fault }
    {
        if let Some(fault) = self.fault() {
            return Err(fault);
        }
        let objects = self.objects.finish()?;
        let tags = self.tags.finish()?;
        let cells = self.cells.finish()?;
        let backs = self.backs.finish()?;
        Ok(FinishedTrees {
            tops: [objects.top, tags.top, cells.top, backs.top],
            heights: [objects.height, tags.height, cells.height, backs.height],
            levels: StoredLevels::new(objects.levels, tags.levels, cells.levels, backs.levels),
        })
    }
}
