//! The levels of one tree, while its nodes come.

ghost use Rattle.std.specs.Prelude.{◌≡◌, ◌<◌, [], ℕ, IfOk, OnOk, length, map};
ghost use Rattle.level_files.specs.Levels.{unread_level};
ghost use Rattle.level_files.specs.internal.Files.{file_at};

use crate::level_file::LevelFile;
use crate::stored_level::StoredLevel;
use external_sort::{RunStore, StoreFault, StoreMaker};
use std::alloc::Global;
use tree_stream::{NodeWriter, WriterFault};

/// Takes the nodes of one tree, each level's into stores of its own, which are made when the first node comes.
#[derive(Drop)]
pub(crate) struct LevelWriter<S: RunStore, M> {
    alloc: Global,
    maker: M,
    /// The levels, that of the leaves first.
    files: Vec<LevelFile<S>>,
}

impl<S: RunStore, M: StoreMaker<S>> LevelWriter<S, M> {
    /// No nodes. It takes no memory and makes no store yet.
    pub(crate) fn new(alloc: Global, maker: M) -> LevelWriter<S, M>
        ensures { (level : ℕ) → file_at result.files.items level ≡ [] }
    {
        LevelWriter {
            alloc,
            maker,
            files: Vec::new(alloc),
        }
    }

    /// Makes the levels up to this one that aren't there.
    fn reach(&mut self, level: u8) -> Result<(), WriterFault>
        ensures there { OnOk result (level < length self.new.files.items) }
        ensures same { OnOk result ((at : ℕ)
            → file_at self.new.files.items at ≡ file_at self.old.files.items at) }
    {
        while self.files.len() <= usize::from(level) {
            let Ok(file) = make_file(&mut self.maker) else {
                return Err(WriterFault::Device);
            };
            self.files.push(file)?;
        }
        Ok(())
    }
}

impl<S: RunStore, M: Drop> LevelWriter<S, M> {
    /// Ends the levels, which can then be read.
    pub(crate) fn finish(self) -> Result<Vec<StoredLevel<S>>, WriterFault>
        ensures { IfOk result (λ levels. levels.items ≡ map unread_level self.files.items) }
    {
        let LevelWriter { alloc, files, .. } = self;
        let mut levels = Vec::new(alloc);
        for file in files {
            let Ok(level) = file.finish(alloc) else {
                return Err(WriterFault::Device);
            };
            levels.push(level)?;
        }
        Ok(levels)
    }
}

impl<S: RunStore, M: StoreMaker<S>> NodeWriter for LevelWriter<S, M> {
    ghost use Rattle.level_files.specs.internal.Files.{file_at};

    ghost given = { λ writer level. file_at writer.files.items level };

    fn put(&mut self, level: u8, node: &[u8]) -> Result<(), WriterFault> {
        self.reach(level)?;
        let file = &mut self.files[usize::from(level)];
        if file.push(node).is_err() {
            return Err(WriterFault::Device);
        }
        Ok(())
    }
}

/// A level without nodes, in two stores of its own.
fn make_file<S: RunStore, M: StoreMaker<S>>(maker: &mut M) -> Result<LevelFile<S>, StoreFault>
    ensures { IfOk result (λ file. file ≡ []) }
{
    let nodes = maker.make_store()?;
    let rows = maker.make_store()?;
    Ok(LevelFile::new(nodes, rows))
}
