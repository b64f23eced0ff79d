//! A mirror on a device that can't read everything.

use osm_gate::{Mirror, MirrorFault};
use osm_index::Snapshot;
use osm_prove::{Answered, Proved};
use std::alloc::Global;
use tree_node::Digest;

/// A query that asks for what can't be read.
pub(super) const UNREAD: &[u8] = b"node(2);out;";

/// A set in memory that is asked as one on a device: it fails wherever this one query is asked.
#[derive(Drop)]
pub(super) struct FaultyDevice {
    pub(super) snapshot: Snapshot,
}

impl Mirror for FaultyDevice {
    ghost use Rattle.std.specs.Prelude.{true};
    ghost use Rattle.osm_index.specs.Snapshots.{HoldsPublication};

    ghost holds = { λ device p. HoldsPublication device.snapshot p };

    ghost may_fail = { true };

    fn root(&self) -> &Digest {
        self.snapshot.root()
    }

    fn answer_within(
        &mut self,
        alloc: Global,
        query: &[u8],
        most: Option<u64>,
    ) -> Result<Answered, MirrorFault> {
        let answered = self.snapshot.answer_within(alloc, query, most);
        if answered.is_ok() && query == UNREAD {
            return Err(MirrorFault::Device);
        }
        answered
    }

    fn prove_within(
        &mut self,
        alloc: Global,
        query: &[u8],
        most: Option<u64>,
    ) -> Result<Proved, MirrorFault> {
        let proved = self.snapshot.prove_within(alloc, query, most);
        if proved.is_ok() && query == UNREAD {
            return Err(MirrorFault::Device);
        }
        proved
    }
}
