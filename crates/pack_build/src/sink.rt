//! Trees that take their entries as they are sorted.

ghost use Rattle.std.specs.Prelude.{◌≡◌, [], None};
ghost use Rattle.tree_build.specs.Shapes.{shape_of as shape_word};
ghost use Rattle.tree_node.specs.declared.tree.Tree.{Tree as TreeWord};
ghost use Rattle.level_files.specs.Built.{HasEntries, fault_told};
ghost use Rattle.pack_build.specs.internal.Faults.{sink_fault_of};
ghost use Rattle.pack_build.specs.Taken.{taken_by};

use crate::taken::{Given, Taken};
use entry_sort::{EntrySink, SinkFault};
use external_sort::{RunStore, StoreMaker};
use level_files::TreesBuilder;
use osm_index::BuildProgress;
use std::alloc::Global;
use std::marker::Model;
use tree_build::Shape;
use tree_node::Tree;
use tree_stream::StreamFault;

/// Four trees that take their entries as they are sorted, and write their nodes. Contracts see the trees, their shape, and
/// what each of them has taken.
#[derive(Drop)]
pub(crate) struct TreesSink<'a, S: RunStore, M, B> {
    builder: TreesBuilder<S, M>,
    shape: Shape,
    /// Is told which tree comes next.
    progress: &'a mut B,
    objects: Taken,
    tags: Taken,
    cells: Taken,
    backs: Taken,
}

impl<'a, S: RunStore, M, B> Model for TreesSink<'a, S, M, B> {
    ghost use Rattle.std.specs.Prelude.{◌≡◌, None};
    ghost use Rattle.level_files.specs.Built.{HasEntries, fault_told};
    ghost use Rattle.level_files.specs.declared.trees_builder.TreesBuilder.{TreesBuilder};
    ghost use Rattle.pack_build.specs.Taken.{taken_by};
    ghost use Rattle.pack_build.specs.declared.taken.Taken.{Taken};
    ghost use Rattle.tree_build.specs.Shapes.{shape_of};
    ghost use Rattle.tree_build.specs.declared.shape.Shape.{Shape};

    ghost Value = { TreesBuilder S M × Shape × Taken × Taken × Taken × Taken };

    ghost view = { λ s. (s.builder, s.shape, s.objects, s.tags, s.cells, s.backs) };

    ghost invariant = { λ s. fault_told s.builder ≡ None
        → HasEntries s.builder (shape_of s.shape) (taken_by s.objects s.tags s.cells s.backs) };
}

impl<'a, S: RunStore, M: StoreMaker<S>, B: BuildProgress> TreesSink<'a, S, M, B> {
    /// No entry was taken yet. The trees are of this shape, and each has a maker of stores. Which tree comes next is told
    /// to `progress`.
    pub(crate) fn new(
        alloc: Global,
        shape: Shape,
        progress: &'a mut B,
        makers: [M; 4],
    ) -> TreesSink<'a, S, M, B>
        ensures none { (tree : TreeWord) → taken_by result.2 result.3 result.4 result.5 tree ≡ [] }
        ensures shape { result.1 ≡ shape }
    {
        TreesSink {
            builder: TreesBuilder::new(alloc, shape, makers),
            shape,
            progress,
            objects: Taken::new(),
            tags: Taken::new(),
            cells: Taken::new(),
            backs: Taken::new(),
        }
    }

    /// The trees.
    pub(crate) fn into_builder(self) -> TreesBuilder<S, M>
        ensures { fault_told result ≡ None
            → HasEntries result (shape_word self.entry.1)
            (taken_by self.entry.2 self.entry.3 self.entry.4 self.entry.5) }
    {
        self.builder
    }
}

impl<S: RunStore, M: StoreMaker<S>, B: BuildProgress> EntrySink for TreesSink<'_, S, M, B> {
    ghost use Rattle.pack_build.specs.Taken.{taken_by};
    ghost use Rattle.std.proofs.Common.{◌∙◌};
    ghost use Rattle.std.specs.Prelude.{◌≡◌, refl, true};

    ghost taken = { λ sink. taken_by sink.2 sink.3 sink.4 sink.5 };

    ghost may_refuse = { true };

    ghost is_same = { λ sink later. sink.1 ≡ later.1 };

    ghost itself = { λ sink. refl };

    ghost chained = { λ sink later last first second. first ∙ second };

    fn begin(&mut self, tree: Tree, objects: u64) {
        self.progress.begin(tree, objects as usize);
    }

    fn take(&mut self, tree: Tree, key: &[u8], value: &[u8]) -> Result<(), SinkFault> {
        match self.builder.push(tree, key, value) {
            Ok(()) => {
                let given = Given { key, value };
                match tree {
                    Tree::Objects => self.objects = Taken::and(&self.objects, &given),
                    Tree::Tags => self.tags = Taken::and(&self.tags, &given),
                    Tree::Cells => self.cells = Taken::and(&self.cells, &given),
                    Tree::Backs => self.backs = Taken::and(&self.backs, &given),
                }
                Ok(())
            }
            Err(fault) => Err(sink_fault(fault)),
        }
    }
}

/// Why an entry isn't taken. Entries of a set rise and fit a tree, so one that doesn't was given back by a device that wasn't
/// given it.
fn sink_fault(fault: StreamFault) -> SinkFault
    ensures { result ≡ sink_fault_of fault }
{
    match fault {
        StreamFault::TooMany => SinkFault::TooMany,
        StreamFault::Memory => SinkFault::Memory,
        StreamFault::NotRising | StreamFault::TooLong | StreamFault::Device => SinkFault::Device,
    }
}
