//! What was announced.

ghost use Rattle.std.specs.Prelude.{◌≡◌, IfOk};
ghost use Rattle.node_pack.specs.Hints.{hint_of};

use std::alloc::{AllocError, Global};
use tree_node::Digest;

/// That the entries of a tree whose keys are from `lo` to `hi` will be asked for. Whether the keys that `hi` begins are meant
/// too isn't told.
#[derive(Drop)]
pub(crate) struct Hint {
    /// The digest of the tree's top.
    pub(crate) top: Digest,
    /// The least key.
    pub(crate) lo: Vec<u8>,
    /// The greatest key.
    pub(crate) hi: Vec<u8>,
}

impl Hint {
    /// A copy of what was announced.
    pub(crate) fn new(alloc: Global, top: &Digest, lo: &[u8], hi: &[u8]) -> Result<Hint, AllocError>
        ensures { IfOk result
            (λ hint. hint_of hint ≡ record { top = top.now.0; lo = lo.now; hi = hi.now }) }
    {
        Ok(Hint {
            top: *top,
            lo: Vec::from_slice(alloc, lo)?,
            hi: Vec::from_slice(alloc, hi)?,
        })
    }
}
