//! One connection of a desk.

use crate::desk::Desk;
use osm_gate::Connection;
use osm_index::Snapshot;
use std::alloc::AllocError;

/// The connection of this number of a desk. If it isn't open, it takes nothing, as a closed one.
#[derive(Drop)]
pub(crate) struct OpenConnection<'a> {
    pub(crate) desk: &'a mut Desk<Snapshot>,
    pub(crate) number: u32,
}

impl<'a> Connection for OpenConnection<'a> {
    ghost use Rattle.std.specs.Prelude.{◌≡◌};
    ghost use Rattle.std.proofs.Common.{◌∙◌, ap, refl, subst, sym};
    ghost use Rattle.osm_index.specs.Snapshots.{HoldsPublication};
    ghost use Rattle.osm_index.specs.declared.snapshot.Snapshot.{Snapshot as Held};
    ghost use Rattle.osm_desk.specs.Contents.{Contents};
    ghost use Rattle.osm_desk.specs.OneConnection.{rest_of, without};

    ghost rest = { λ s. rest_of s.desk.now s.number };

    ghost over = { λ s p. HoldsPublication s.desk.now.mirror p };

    ghost later = { λ s t. (t.number ≡ s.number) × (t.desk.ghost_name ≡ s.desk.ghost_name) × (without t.desk.now s.number ≡ without s.desk.now s.number) };

    fn feed(&mut self, piece: &[u8]) -> Result<Vec<u8>, AllocError> {
        self.desk.hear(self.number, piece)
    }

    fn closed(&self) -> bool {
        self.desk.is_closed(self.number)
    }

    ghost itself = { λ s. (refl, refl, refl) };

    ghost chained = { λ s t u first second. (
      second.0 ∙ first.0,
      second.1 ∙ first.1,
      ap (without u.desk.now) (sym first.0) ∙ second.2 ∙ ap (without t.desk.now) first.0 ∙ first.2,
    ) };

    ghost same_over = { λ s t p same held. subst (λ (snapshot : Held). HoldsPublication snapshot p)
        (sym (ap (λ (d : Contents Held). d.mirror) same.2)) held };
}
