//! The nodes of one level, to be read again.

ghost use Rattle.std.specs.Prelude.{◌≡◌, ◌≢◌, Err, IfOk, OnOk, drop, false, true};
ghost use Rattle.external_sort.specs.Runs.{run_at};
ghost use Rattle.level_files.specs.Levels.{IsNext, unread_level};
ghost use Rattle.level_files.specs.internal.Given.{IsNextLen};
ghost use Rattle.level_files.specs.internal.Keeping.{IsEnded, IsReading};
ghost use Rattle.level_files.specs.internal.Rows.{nodes_of};

use crate::node_reader::NodeReader;
use crate::row_reader::RowReader;
use external_sort::RunStore;
use std::alloc::Global;
use std::marker::Model;
use tree_stream::{NodeLen, ReadBackFault};

/// The nodes of one level, which are read in their order, and their lengths, which are read beside them in rows of their
/// own. Contracts see the nodes, those that are yet to be read, and those whose lengths are. After a refusal each further
/// reading is refused with the same fault.
#[derive(Drop)]
pub(crate) struct StoredLevel<S: RunStore> {
    nodes: NodeReader<S>,
    rows: S,
    /// How many nodes there are.
    count: u32,
    /// The rows of the nodes that were read.
    reader: RowReader,
    /// The rows that were read by themselves.
    measurer: RowReader,
    /// The fault that was told.
    fault: Option<ReadBackFault>,
}

impl<S: RunStore> Model for StoredLevel<S> {
    ghost use Rattle.level_files.specs.Levels.{LevelNodes};

    ghost Value = { LevelNodes };

    ghost use Rattle.external_sort.specs.Runs.{run_at};
    ghost use Rattle.level_files.specs.internal.Keeping.{IsReadUnless};
    ghost use Rattle.level_files.specs.internal.Rows.{level_of};

    ghost view = { λ l. level_of l.count (run_at 0 (S.runs l.rows)) (run_at 0 (S.runs l.nodes.store))
        l.reader.passed l.measurer.passed };

    ghost invariant = { λ l. IsReadUnless S.is_true S.may_refuse l.fault l.count l.nodes.size l.nodes.offset
        (S.runs l.rows) (S.runs l.nodes.store) l.reader l.measurer };
}

impl<S: RunStore> StoredLevel<S> {
    /// The level with so many nodes of so many bytes, in the first runs of two stores. It takes no memory yet.
    pub(crate) fn new(alloc: Global, nodes: S, rows: S, count: u32, size: u64) -> StoredLevel<S>
        requires { IsEnded count size (S.runs rows) (S.runs nodes) }
        ensures { result ≡ unread_level (nodes_of count (run_at 0 (S.runs rows)) (run_at 0 (S.runs nodes))) }
    {
        StoredLevel {
            nodes: NodeReader::new(nodes, size),
            rows,
            count,
            reader: RowReader::new(alloc),
            measurer: RowReader::new(alloc),
            fault: None,
        }
    }

    /// Goes back to the first node, and to the first length.
    pub(crate) fn rewind(&mut self)
        ensures { self.new ≡ unread_level self.old.nodes }
    {
        self.nodes.rewind();
        self.reader.rewind();
        self.measurer.rewind();
    }

    /// Reads the next node in place of what was read, and says whether there was one.
    pub(crate) fn next_node(&mut self, into: &mut Vec<u8>) -> Result<bool, ReadBackFault>
        ensures read { S.is_true ≡ true → IfOk result (λ more.
            IsNext self.old.unread self.new.unread more into.new.items) }
        ensures nodes { OnOk result (self.new.nodes ≡ self.old.nodes) }
        ensures unmeasured { OnOk result (self.new.unmeasured ≡ self.old.unmeasured) }
        ensures given { S.is_true ≡ true → S.may_refuse ≡ false → result ≢ Err ReadBackFault.Device }
    {
        if let Some(fault) = self.fault {
            return Err(fault);
        }
        let result = read_node(
            &mut self.nodes,
            &mut self.rows,
            self.count,
            &mut self.reader,
            into,
        );
        self.fault = result.err();
        result
    }

    /// The length of the next node whose length wasn't read; none after the last.
    pub(crate) fn next_len(&mut self) -> Result<Option<NodeLen>, ReadBackFault>
        ensures measured { S.is_true ≡ true → IfOk result
            (IsNextLen self.old.unmeasured self.new.unmeasured) }
        ensures nodes { OnOk result (self.new.nodes ≡ self.old.nodes) }
        ensures unread { OnOk result (self.new.unread ≡ self.old.unread) }
        ensures given { S.is_true ≡ true → S.may_refuse ≡ false → result ≢ Err ReadBackFault.Device }
    {
        if let Some(fault) = self.fault {
            return Err(fault);
        }
        let result = self.measurer.next(&mut self.rows, self.count);
        self.fault = result.err();
        result
    }
}

/// Reads the next node of a level, by its row.
fn read_node<S: RunStore>(
    nodes: &mut NodeReader<S>,
    rows: &mut S,
    count: u32,
    reader: &mut RowReader,
    into: &mut Vec<u8>,
) -> Result<bool, ReadBackFault>
    ensures read { (measurer : _) → IsReading S.is_true count nodes.old.size nodes.old.offset
        (S.runs rows.old) (S.runs nodes.old.store) reader.old measurer
        → S.is_true ≡ true → IfOk result (λ more. IsNext
        (drop reader.old.passed (nodes_of count (run_at 0 (S.runs rows.old)) (run_at 0 (S.runs nodes.old.store))))
        (drop reader.new.passed (nodes_of count (run_at 0 (S.runs rows.old)) (run_at 0 (S.runs nodes.old.store))))
        more into.new.items) }
    ensures goes_on { (measurer : _) → IsReading S.is_true count nodes.old.size nodes.old.offset
        (S.runs rows.old) (S.runs nodes.old.store) reader.old measurer
        → OnOk result (IsReading S.is_true count nodes.new.size nodes.new.offset
        (S.runs rows.new) (S.runs nodes.new.store) reader.new measurer) }
    ensures rows { OnOk result (S.runs rows.new ≡ S.runs rows.old) }
    ensures nodes { OnOk result (S.runs nodes.new.store ≡ S.runs nodes.old.store) }
    ensures given { (measurer : _) → IsReading S.is_true count nodes.old.size nodes.old.offset
        (S.runs rows.old) (S.runs nodes.old.store) reader.old measurer
        → S.is_true ≡ true → S.may_refuse ≡ false → result ≢ Err ReadBackFault.Device }
{
    let Some(len) = reader.next(rows, count)? else {
        return Ok(false);
    };
    nodes.read(len.bytes, into)?;
    Ok(true)
}
