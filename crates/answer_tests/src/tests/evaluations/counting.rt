//! A shelf that counts what it is asked for.

use tree_node::{Digest, Fetched, Shelf, ShelfFault};

/// A shelf that counts by itself what it is asked for.
#[derive(Drop)]
pub(super) struct Counting<S> {
    pub(super) shelf: S,
    pub(super) fetches: u64,
}

impl<'a, S: Shelf<'a>> Shelf<'a> for Counting<S> {
    ghost holds = { λ counting. S.holds counting.shelf };

    ghost is_fixed = { S.is_fixed };

    ghost used = { λ counting. S.used counting.shelf };

    ghost takes_memory = { S.takes_memory };

    ghost clash_free = { λ counting. S.clash_free counting.shelf };

    ghost used_held = { λ counting. S.used_held counting.shelf };

    fn fetch(&mut self, key: &Digest) -> Result<&'a [u8], ShelfFault> {
        self.fetches = self.fetches.saturating_add(1);
        self.shelf.fetch(key)
    }

    fn fetch_node(&mut self, key: &Digest) -> Result<Fetched<'a>, ShelfFault> {
        self.fetches = self.fetches.saturating_add(1);
        self.shelf.fetch_node(key)
    }

    fn announce(&mut self, top: &Digest, lo: &[u8], hi: &[u8]) {
        self.shelf.announce(top, lo, hi);
    }
}
