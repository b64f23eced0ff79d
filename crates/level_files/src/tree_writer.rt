//! One tree, while its entries come.

ghost use Rattle.std.specs.Prelude.{◌≡◌, ◌++◌, ◌∷◌, ◌⊎◌, ◌↔◌, [], ℕ, List, Err, IfOk, OnOk, Some, length, map};
ghost use Rattle.tree_build.specs.Shapes.{shape_of};
ghost use Rattle.tree_node.specs.Digests.{digest as digest_word};
ghost use Rattle.tree_node.specs.NodeRefs.{number_of};
ghost use Rattle.tree_node.specs.Nodes.{Binding, spelling};
ghost use Rattle.tree_node.specs.Trees.{FitsTree, Shape as TreeShape, level_at, levels as levels_of, top_of};
ghost use Rattle.tree_node.specs.declared.limits.TheConstants.{ENTRY_LIMIT};
ghost use Rattle.tree_stream.specs.Faults.{stream_fault_of};
ghost use Rattle.tree_stream.specs.Streams.{IsNextKey};
ghost use Rattle.level_files.specs.Built.{Takes, fault_in};
ghost use Rattle.level_files.specs.Levels.{level_in, unread_level};

use crate::level_writer::LevelWriter;
use crate::stored_level::StoredLevel;
use external_sort::{RunStore, StoreMaker};
use std::alloc::Global;
use std::marker::Model;
use tree_build::Shape;
use tree_node::{Digest, Tree};
use tree_stream::{FinishedTree, StreamFault, TreeStream, WriterFault};

/// One tree, while its entries come. Contracts see the fault that was told and the stream, which is sound as long as none
/// was. After a fault each further call is refused with it.
#[derive(Drop)]
pub(crate) struct TreeWriter<S: RunStore, M> {
    stream: TreeStream<LevelWriter<S, M>>,
    fault: Option<WriterFault>,
}

impl<S: RunStore, M> Model for TreeWriter<S, M> {
    ghost use Rattle.std.specs.Prelude.{◌≡◌, None, Option};
    ghost use Rattle.tree_stream.specs.declared.fault.WriterFault.{WriterFault};
    ghost use Rattle.tree_stream.specs.declared.stream.TreeStream.{TreeStream};
    ghost use Rattle.tree_stream.specs.Streams.{IsSound};
    ghost use Rattle.level_files.specs.declared.level_writer.LevelWriter.{LevelWriter};
    ghost use Rattle.level_files.specs.internal.Given.{given_to};

    ghost Value = { Option WriterFault × TreeStream (LevelWriter S M) };

    ghost view = { λ w. (w.fault, w.stream) };

    ghost invariant = { λ w. w.fault ≡ None → IsSound given_to w.stream };
}

/// A tree whose nodes were all written.
#[derive(Drop)]
pub(crate) struct FinishedLevels<S: RunStore> {
    /// The digest of the top.
    pub(crate) top: Digest,
    /// The number of levels.
    pub(crate) height: u8,
    /// The levels, that of the leaves first.
    pub(crate) levels: Vec<StoredLevel<S>>,
}

impl<S: RunStore, M: StoreMaker<S>> TreeWriter<S, M> {
    /// No entry was taken yet. It takes no memory yet.
    pub(crate) fn new(alloc: Global, tree: Tree, shape: Shape, maker: M) -> TreeWriter<S, M>
        ensures { Takes result (shape_of shape) tree [] }
    {
        TreeWriter {
            stream: TreeStream::new(alloc, tree, shape, LevelWriter::new(alloc, maker)),
            fault: None,
        }
    }

    /// The fault that was told.
    pub(crate) fn fault(&self) -> Option<WriterFault>
        ensures { result ≡ self.now.0 }
    {
        self.fault
    }

    /// Takes the next entry, as `TreeStream::push` does. After `Memory` and `Device` each further call is refused with the same
    /// fault.
    pub(crate) fn push(&mut self, key: &[u8], value: &[u8]) -> Result<(), StreamFault>
        ensures taken { (shape : TreeShape) (tree : Tree) (entries : List Binding)
            → Takes self.old shape tree entries
            → OnOk result (Takes self.new shape tree
            (entries ++ record { key = key.now; value = value.now } ∷ [])) }
        ensures rising { (shape : TreeShape) (tree : Tree) (entries : List Binding)
            → Takes self.old shape tree entries
            → (result ≡ Err StreamFault.NotRising) ↔ ¬ IsNextKey entries key.now }
        ensures long { (shape : TreeShape) (tree : Tree) (entries : List Binding)
            → Takes self.old shape tree entries
            → (result ≡ Err StreamFault.TooLong) ↔ (IsNextKey entries key.now
            × ¬ FitsTree (record { key = key.now; value = value.now })) }
        ensures many { (shape : TreeShape) (tree : Tree) (entries : List Binding)
            → Takes self.old shape tree entries
            → (result ≡ Err StreamFault.TooMany) ↔ (IsNextKey entries key.now
            × FitsTree (record { key = key.now; value = value.now }) × (length entries ≡ ENTRY_LIMIT)) }
        ensures unchanged { (result ≡ Err StreamFault.NotRising) ⊎ (result ≡ Err StreamFault.TooLong)
            ⊎ (result ≡ Err StreamFault.TooMany) → self.new ≡ self.old }
        ensures told { self.new.0 ≡ fault_in result }
        ensures spent { (fault : WriterFault) → self.old.0 ≡ Some fault
            → result ≡ Err (stream_fault_of fault) }
    {
        if let Some(fault) = self.fault {
            return Err(StreamFault::from(fault));
        }
        let result = self.stream.push(key, value);
        self.fault = spending_fault(&result);
        result
    }
}

/// The fault after which a stream can't be used again.
fn spending_fault(told: &Result<(), StreamFault>) -> Option<WriterFault>
    ensures { result ≡ fault_in told.now }
{
    match told {
        Err(StreamFault::Memory) => Some(WriterFault::Memory),
        Err(StreamFault::Device) => Some(WriterFault::Device),
        _ => None,
    }
}

impl<S: RunStore, M: StoreMaker<S> + Drop> TreeWriter<S, M> {
    /// Ends the tree: writes the nodes that are still pending, up to the top.
    pub(crate) fn finish(self) -> Result<FinishedLevels<S>, WriterFault>
        ensures nodes { (shape : TreeShape) (tree : Tree) (entries : List Binding) → Takes self shape tree entries
            → IfOk result (λ done. (level : ℕ) → level_in done.levels.items level
            ≡ unread_level (map spelling (level_at (levels_of shape (number_of tree) entries) level))) }
        ensures top { (shape : TreeShape) (tree : Tree) (entries : List Binding) → Takes self shape tree entries
            → IfOk result (λ done. done.top.0
            ≡ digest_word (top_of (levels_of shape (number_of tree) entries))) }
        ensures height { (shape : TreeShape) (tree : Tree) (entries : List Binding) → Takes self shape tree entries
            → IfOk result (λ done. done.height ≡ length (levels_of shape (number_of tree) entries)) }
        ensures spent { (fault : WriterFault) → self.0 ≡ Some fault → result ≡ Err fault }
    {
        if let Some(fault) = self.fault {
            return Err(fault);
        }
        let TreeWriter { stream, .. } = self;
        let FinishedTree {
            top,
            levels: height,
            writer,
        } = stream.finish()?;
        let levels = writer.finish()?;
        Ok(FinishedLevels {
            top,
            height,
            levels,
        })
    }
}
