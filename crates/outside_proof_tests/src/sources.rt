//! Sources that have the nodes of a snapshot, and may spoil one of them.

use osm_index::Snapshot;
use outside_shelf::{NodeSource, SourceFault};
use std::alloc::Global;
use tree_node::{Digest, Recorder, Shelf, ShelfFault};

/// What a source does to a node.
#[derive(Clone, Copy)]
pub(crate) enum Spoiling {
    /// The node isn't there.
    Lacks,
    /// The lowest bit of its last byte is turned.
    Turns,
    /// The device fails.
    Fails,
}

/// Has the nodes of a snapshot.
#[derive(Drop)]
pub(crate) struct Stored<'a> {
    nodes: Recorder<'a>,
    /// How many nodes are given before the one that is spoiled, and how.
    spoiled: Option<(u32, Spoiling)>,
}

impl<'a> Stored<'a> {
    /// The nodes of a snapshot, of which one may be spoiled after so many.
    pub(crate) fn new(
        alloc: Global,
        snapshot: &'a Snapshot,
        spoiled: Option<(u32, Spoiling)>,
    ) -> Stored<'a> {
        Stored {
            nodes: snapshot.stock().shelf(alloc),
            spoiled,
        }
    }

    /// How the next node is spoiled, if it is.
    fn next_spoiling(&mut self) -> Option<Spoiling> {
        let (before, how) = self.spoiled?;
        if before == 0 {
            return Some(how);
        }
        self.spoiled = Some((before.saturating_sub(1), how));
        None
    }
}

impl<'a> NodeSource for Stored<'a> {
    fn read_node(
        &mut self,
        key: &Digest,
        _at_most: usize,
        into: &mut Vec<u8>,
    ) -> Result<(), SourceFault> {
        match self.nodes.fetch(key) {
            Ok(node) => into.extend_from_slice(node)?,
            Err(ShelfFault::Missing) => return Err(SourceFault::Absent),
            Err(ShelfFault::Memory) => return Err(SourceFault::Memory),
        }
        match self.next_spoiling() {
            Some(Spoiling::Lacks) => Err(SourceFault::Absent),
            Some(Spoiling::Fails) => Err(SourceFault::Device),
            Some(Spoiling::Turns) => {
                turn_bit(into.as_mut_slice());
                Ok(())
            }
            None => Ok(()),
        }
    }

    fn announce(&mut self, _top: &Digest, _lo: &[u8], _hi: &[u8]) {}
}

/// Turns the lowest bit of the last byte.
fn turn_bit(node: &mut [u8]) {
    if let Some(byte) = node.last_mut() {
        *byte ^= 1;
    }
}
