//! A tree that is made of entries as they come.

ghost use Rattle.std.specs.Prelude.{◌≡◌, ◌<◌, ◌++◌, ◌∷◌, ◌⊎◌, ◌↔◌, [], ℕ, List, Err, IfOk, OnOk, length, map};
ghost use Rattle.tree_build.specs.Shapes.{shape_of};
ghost use Rattle.tree_node.specs.Digests.{digest as digest_word};
ghost use Rattle.tree_node.specs.NodeRefs.{number_of};
ghost use Rattle.tree_node.specs.Nodes.{Binding, spelling};
ghost use Rattle.tree_node.specs.Trees.{FitsTree, Shape as TreeShape, level_at, levels as levels_of, top_of};
ghost use Rattle.tree_node.specs.declared.limits.TheConstants.{ENTRY_LIMIT};
ghost use Rattle.tree_stream.specs.Streams.{HasTaken, IsNextKey, IsSound};
ghost use Rattle.tree_stream.specs.internal.Finishing.{IsWhole};

use crate::add::add;
use crate::ends::leaf_ends;
use crate::fault::{StreamFault, WriterFault};
use crate::finish::finish_levels;
use crate::finished::FinishedTree;
use crate::leaf::OpenLeaf;
use crate::level::OpenLevel;
use crate::writer::NodeWriter;
use std::alloc::Global;
use tree_build::Shape;
use tree_node::{Child, ENTRY_LIMIT, KEY_LIMIT, Tree, VALUE_LIMIT, is_below};

/// The tree of a list whose entries come one at a time, in rising order of their keys (this project's trees,
/// docs/FORMATS.md). Each node is handed to the writer as soon as it is complete.
///
/// It holds at most 64 entries, at most 64 items for each of at most 30 levels over the leaves, and the node that was
/// written last at each level. All are in buffers that are used again, so no memory is taken for an entry once the buffers
/// are long enough; for each node one list of its items is taken and given back.
#[derive(Drop)]
pub struct TreeStream<W> {
    alloc: Global,
    tree: Tree,
    shape: Shape,
    writer: W,
    /// The number of entries.
    count: usize,
    /// The last key; empty before the first entry.
    last: Vec<u8>,
    leaf: OpenLeaf,
    levels: Vec<OpenLevel>,
}

impl<W: NodeWriter> TreeStream<W> {
    /// A stream that has taken no entry yet, for the tree of this number and shape. It takes no memory yet.
    pub fn new(alloc: Global, tree: Tree, shape: Shape, writer: W) -> TreeStream<W>
        // It has taken no entry, where its writer was given no node.
        ensures { ((level : ℕ) → W.given writer level ≡ [])
            → HasTaken W.given result (shape_of shape) (number_of tree) [] }
    {
        TreeStream {
            alloc,
            tree,
            shape,
            writer,
            count: 0,
            last: Vec::new(alloc),
            leaf: OpenLeaf::new(alloc),
            levels: Vec::new(alloc),
        }
    }

    /// Takes the next entry, and writes the nodes that it completes. It is linear in the bytes of the entry and of these
    /// nodes. In the second shape it digests the key at most once.
    ///
    /// Refused with `NotRising` where the key isn't above that of the entry before, else with `TooLong` where the key has
    /// more than 8,203 bytes or the value more than 2^24, and else with `TooMany` where there are 2^29 entries: the stream
    /// is then as before. Otherwise only `Memory` and `Device` refuse an entry. What the
    /// stream and its writer hold after one of these is open, so the stream can't be used again.
    pub fn push(&mut self, key: &[u8], value: &[u8]) -> Result<(), StreamFault>
        requires { IsSound W.given self.old }
        // It has then taken this entry after those that it had taken.
        ensures taken { (shape : TreeShape) (tree : ℕ) (entries : List Binding)
            → HasTaken W.given self.old shape tree entries
            → OnOk result (HasTaken W.given self.new shape tree
            (entries ++ record { key = key.now; value = value.now } ∷ [])) }
        // An entry is refused as not rising exactly where its key isn't above those of the entries.
        ensures rising { (shape : TreeShape) (tree : ℕ) (entries : List Binding)
            → HasTaken W.given self.old shape tree entries
            → (result ≡ Err StreamFault.NotRising) ↔ ¬ IsNextKey entries key.now }
        // It is too long exactly where its key is above those, and its key or its value is too long,
        ensures long { (shape : TreeShape) (tree : ℕ) (entries : List Binding)
            → HasTaken W.given self.old shape tree entries
            → (result ≡ Err StreamFault.TooLong) ↔ (IsNextKey entries key.now
            × ¬ FitsTree (record { key = key.now; value = value.now })) }
        // and one too many exactly where it could be taken, but there are as many as a tree has at most.
        ensures many { (shape : TreeShape) (tree : ℕ) (entries : List Binding)
            → HasTaken W.given self.old shape tree entries
            → (result ≡ Err StreamFault.TooMany) ↔ (IsNextKey entries key.now
            × FitsTree (record { key = key.now; value = value.now }) × (length entries ≡ ENTRY_LIMIT)) }
        // An entry that is refused for what it is changes nothing.
        ensures unchanged { (result ≡ Err StreamFault.NotRising) ⊎ (result ≡ Err StreamFault.TooLong)
            ⊎ (result ≡ Err StreamFault.TooMany) → self.new ≡ self.old }
    {
        if self.count > 0 && !is_below(self.last.as_slice(), key) {
            return Err(StreamFault::NotRising);
        }
        if key.len() > KEY_LIMIT || value.len() > VALUE_LIMIT {
            return Err(StreamFault::TooLong);
        }
        if self.count == ENTRY_LIMIT {
            return Err(StreamFault::TooMany);
        }
        self.take(key, value)?;
        Ok(())
    }

    /// Takes an entry that can come next.
    fn take(&mut self, key: &[u8], value: &[u8]) -> Result<(), WriterFault>
        requires sound { IsSound W.given self.old }
        requires next { (shape : TreeShape) (tree : ℕ) (entries : List Binding)
            → HasTaken W.given self.old shape tree entries → IsNextKey entries key.now }
        requires fits { FitsTree (record { key = key.now; value = value.now }) }
        requires few { self.old.count < ENTRY_LIMIT }
        ensures { (shape : TreeShape) (tree : ℕ) (entries : List Binding)
            → HasTaken W.given self.old shape tree entries
            → OnOk result (HasTaken W.given self.new shape tree
            (entries ++ record { key = key.now; value = value.now } ∷ [])) }
    {
        self.leaf.push(key, value)?;
        self.last.clear();
        self.last.extend_from_slice(key)?;
        self.count += 1;
        if leaf_ends(self.shape, self.leaf.len(), key) {
            let sum = self.leaf.write(self.alloc, self.tree, &mut self.writer)?;
            let child = Child {
                greatest: key,
                number: sum.number,
                digest: sum.digest,
            };
            add(
                self.alloc,
                self.tree,
                self.shape,
                &mut self.levels,
                0,
                &child,
                &mut self.writer,
            )?;
        }
        Ok(())
    }

    /// Writes the leaf of what is pending, if an entry is, or if there is no entry at all.
    fn close_leaf(&mut self) -> Result<(), WriterFault>
        requires { IsSound W.given self.old }
        ensures whole { (entries : List Binding)
            → HasTaken W.given self.old (shape_of self.old.shape) (number_of self.old.tree) entries
            → OnOk result (IsWhole (shape_of self.old.shape) (number_of self.old.tree) entries 0
            self.new.last.items self.new.levels.items (W.given self.new.writer)) }
        ensures same { (self.new.shape ≡ self.old.shape) × (self.new.tree ≡ self.old.tree) }
    {
        if self.leaf.len() == 0 && self.count > 0 {
            return Ok(());
        }
        let sum = self.leaf.write(self.alloc, self.tree, &mut self.writer)?;
        let child = Child {
            greatest: self.last.as_slice(),
            number: sum.number,
            digest: sum.digest,
        };
        add(
            self.alloc,
            self.tree,
            self.shape,
            &mut self.levels,
            0,
            &child,
            &mut self.writer,
        )
    }
}

impl<W: NodeWriter + Drop> TreeStream<W> {
    /// Writes the nodes that are still pending, level by level, up to the top. It is linear in their bytes.
    ///
    /// Refused only with `Memory` and `Device`; the writer is dropped then.
    pub fn finish(mut self) -> Result<FinishedTree<W>, WriterFault>
        requires { IsSound W.given self }
        // At each level the writer was given just the nodes of that level of the tree of the entries, in order, and
        // nothing at levels that the tree hasn't.
        ensures written { (shape : TreeShape) (tree : ℕ) (entries : List Binding)
            → HasTaken W.given self shape tree entries
            → IfOk result (λ done. (level : ℕ) → W.given done.writer level
            ≡ map spelling (level_at (levels_of shape tree entries) level)) }
        // It gives the digest of the top of that tree,
        ensures top { (shape : TreeShape) (tree : ℕ) (entries : List Binding)
            → HasTaken W.given self shape tree entries
            → IfOk result (λ done. done.top.0 ≡ digest_word (top_of (levels_of shape tree entries))) }
        // and the number of its levels.
        ensures levels { (shape : TreeShape) (tree : ℕ) (entries : List Binding)
            → HasTaken W.given self shape tree entries
            → IfOk result (λ done. done.levels ≡ length (levels_of shape tree entries)) }
    {
        self.close_leaf()?;
        let TreeStream {
            alloc,
            tree,
            shape,
            mut writer,
            last,
            mut levels,
            ..
        } = self;
        let top = finish_levels(
            alloc,
            tree,
            shape,
            &mut levels,
            last.as_slice(),
            &mut writer,
        )?;
        Ok(FinishedTree {
            top: top.digest,
            levels: top.level + 1,
            writer,
        })
    }
}
