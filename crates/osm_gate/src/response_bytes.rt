//! How responses are given.

ghost use Rattle.std.specs.Prelude.{◌≡◌, IfOk, List, [], ℕ};

use crate::chunks::Chunks;
use std::alloc::{AllocError, Global};

/// The bytes of responses: as [`Chunks`], or in one vector.
pub trait ResponseBytes: Sized {
    /// All bytes, one after the other.
    ghost bytes: { Self → List ℕ };

    /// No bytes. It takes no memory.
    fn none(alloc: Global) -> Self
        ensures { bytes result ≡ [] };

    /// The bytes of these chunks. Refused only where memory runs out.
    fn of_chunks(chunks: Chunks) -> Result<Self, AllocError>
        ensures { IfOk result (λ responses. bytes responses ≡ chunks) };
}

impl ResponseBytes for Chunks {
    ghost bytes = { λ chunks. chunks };

    fn none(alloc: Global) -> Chunks {
        Chunks::new(alloc)
    }

    fn of_chunks(chunks: Chunks) -> Result<Chunks, AllocError> {
        Ok(chunks)
    }
}

/// Where there is one chunk it is the vector, and takes no memory.
impl ResponseBytes for Vec<u8> {
    ghost bytes = { λ whole. whole.items };

    fn none(alloc: Global) -> Vec<u8> {
        Vec::new(alloc)
    }

    fn of_chunks(chunks: Chunks) -> Result<Vec<u8>, AllocError> {
        chunks.into_vec()
    }
}
