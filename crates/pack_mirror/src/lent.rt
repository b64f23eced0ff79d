//! A source that is lent to a shelf.

use node_pack::{PackSource, ReadAt};
use outside_shelf::{NodeSource, SourceFault};
use tree_node::Digest;

/// A source that is lent to a shelf: it gives what the source gives, and stays its owner's.
#[derive(Drop)]
pub(crate) struct Lent<'a, F: ReadAt + Drop> {
    source: &'a mut PackSource<F>,
}

impl<'a, F: ReadAt + Drop> Lent<'a, F> {
    /// Lends the source.
    pub(crate) fn new(source: &'a mut PackSource<F>) -> Lent<'a, F> {
        Lent { source }
    }
}

impl<F: ReadAt + Drop> NodeSource for Lent<'_, F> {
    fn read_node(
        &mut self,
        key: &Digest,
        at_most: usize,
        into: &mut Vec<u8>,
    ) -> Result<(), SourceFault> {
        self.source.read_node(key, at_most, into)
    }

    fn announce(&mut self, top: &Digest, lo: &[u8], hi: &[u8]) {
        self.source.announce(top, lo, hi);
    }
}
