//! A connection that has a snapshot for itself.

use crate::connection::Connection;
use crate::gate::Gate;
use osm_index::Snapshot;
use std::alloc::AllocError;

/// A gate with the snapshot over which it responds.
#[derive(Drop)]
pub(crate) struct SnapshotConnection<'a> {
    pub(crate) gate: Gate,
    pub(crate) snapshot: &'a Snapshot,
}

impl<'a> Connection for SnapshotConnection<'a> {
    ghost use Rattle.std.specs.Prelude.{◌≡◌};
    ghost use Rattle.std.proofs.Common.{◌∙◌, refl, subst, sym};
    ghost use Rattle.osm_index.specs.Snapshots.{HoldsPublication};
    ghost use Rattle.osm_index.specs.declared.snapshot.Snapshot.{Snapshot};

    ghost rest = { λ s. s.gate };

    ghost over = { λ s p. HoldsPublication s.snapshot.now p };

    ghost later = { λ s t. t.snapshot.now ≡ s.snapshot.now };

    fn feed(&mut self, piece: &[u8]) -> Result<Vec<u8>, AllocError> {
        self.gate.feed(piece, self.snapshot)
    }

    fn closed(&self) -> bool {
        self.gate.closed()
    }

    ghost itself = { λ s. refl };

    ghost chained = { λ s t u first second. second ∙ first };

    ghost same_over = { λ s t p same held. subst (λ (snapshot : Snapshot). HoldsPublication snapshot p) (sym same) held };
}
