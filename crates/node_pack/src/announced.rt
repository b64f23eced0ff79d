//! The hints that are kept until a node is asked for.

ghost use Rattle.std.specs.Prelude.{◌≡◌, ◌≤◌, ◌<◌, ◌⊎◌, ◌↔◌, [], IsTrue, OnErr, OnOk};
ghost use Rattle.node_pack.specs.internal.Announcing.{IsBounded, IsKept, IsLeft, announcements, hint_cost, hints_in, hint_with};

use crate::hint::Hint;
use std::alloc::{AllocError, Global};
use std::mem;
use tree_node::Digest;

/// How many bytes the kept hints take at most, 1 MiB. That is room for 7,000 objects, whose leaves have some 50 MB: more isn't
/// brought at once, and what is dropped is read when it is asked for.
pub const HINT_BYTES: usize = 1_048_576;

/// How many bytes a hint counts beside its two keys.
pub const HINT_MORE: usize = 128;

/// The hints since a node was asked for last, in their order.
#[derive(Drop)]
pub(crate) struct Announced {
    hints: Vec<Hint>,
    /// How many bytes are left for hints.
    room: usize,
}

impl Announced {
    /// No hints.
    pub(crate) fn new(alloc: Global) -> Announced
        ensures hints { hints_in result ≡ [] }
        ensures bounded { IsBounded result }
    {
        Announced {
            hints: Vec::new(alloc),
            room: HINT_BYTES,
        }
    }

    /// Whether no hint is kept.
    pub(crate) fn is_empty(&self) -> bool
        ensures { IsTrue result ↔ (hints_in self.now ≡ []) }
    {
        self.hints.is_empty()
    }

    /// Keeps a hint as far as there is room. Where memory is refused for it, it is dropped.
    pub(crate) fn hear(&mut self, alloc: Global, top: &Digest, lo: &[u8], hi: &[u8])
        ensures kept { IsBounded self.old
            → IsKept self.old self.new (hint_with top.now lo.now hi.now)
            ⊎ IsLeft self.old self.new }
        ensures bounded { IsBounded self.old → IsBounded self.new }
    {
        match self.keep(alloc, top, lo, hi) {
            Ok(()) | Err(_) => {}
        }
    }

    /// Keeps a hint as far as there is room.
    fn keep(&mut self, alloc: Global, top: &Digest, lo: &[u8], hi: &[u8]) -> Result<(), AllocError>
        ensures kept { hint_cost (hint_with top.now lo.now hi.now) ≤ self.old.room
            → OnOk result (IsKept self.old self.new (hint_with top.now lo.now hi.now)) }
        ensures full { IsBounded self.old
            → self.old.room < hint_cost (hint_with top.now lo.now hi.now)
            → IsLeft self.old self.new }
        ensures refused { OnErr result (IsLeft self.old self.new) }
        ensures either { IsBounded self.old
            → IsKept self.old self.new (hint_with top.now lo.now hi.now)
            ⊎ IsLeft self.old self.new }
        ensures bounded { IsBounded self.old → IsBounded self.new }
    {
        let cost = lo.len().saturating_add(hi.len()).saturating_add(HINT_MORE);
        if cost > self.room {
            return Ok(());
        }
        let hint = Hint::new(alloc, top, lo, hi)?;
        self.hints.push(hint)?;
        self.room -= cost;
        Ok(())
    }

    /// The hints that were kept. None are kept then.
    pub(crate) fn take(&mut self, alloc: Global) -> Vec<Hint>
        ensures hints { announcements result.items ≡ hints_in self.old }
        ensures none { hints_in self.new ≡ [] }
        ensures bounded { IsBounded self.new }
    {
        let announced = mem::replace(self, Announced::new(alloc));
        announced.hints
    }
}
