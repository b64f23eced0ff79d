//! Why no reply is fetched.

ghost use Rattle.std.specs.Prelude.{◌≡◌};
ghost use Rattle.mirror_reply.specs.declared.fetch_fault.FetchFault.TheVariants.{Memory};

use crate::reply_fault::ReplyFault;
use std::alloc::AllocError;
use thiserror::Error;

/// Why no reply is fetched. Its text says so in words.
#[derive(Clone, Copy, Debug, PartialEq, Eq, Error)]
pub enum FetchFault {
    /// No connection to the mirror was opened.
    #[error("the mirror can't be reached")]
    Unreached,
    /// A read or a write failed, took nothing or waited too long, or 1,048,576 reads were made without an end.
    #[error("the mirror went silent")]
    Silent,
    /// The mirror's bytes hold no reply.
    #[error("{0}")]
    Reply(ReplyFault),
    /// An allocation was refused.
    #[error("no memory")]
    Memory,
}

impl From<AllocError> for FetchFault {
    ghost from_gives = { λ _ fault. fault ≡ Memory };

    fn from(_error: AllocError) -> FetchFault {
        FetchFault::Memory
    }
}
