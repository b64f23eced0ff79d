//! Why an answer isn't fetched.

ghost use Rattle.std.specs.Prelude.{◌≡◌};
ghost use Rattle.osm_fetch.specs.Fetching.{status_of};
ghost use Rattle.osm_fetch.specs.declared.not_fetched.NotFetched.TheVariants.{Memory};

use mirror_answer::MirrorFault;
use osm_commands::Status;
use ql_syntax::QlFault;
use std::alloc::AllocError;
use thiserror::Error;

/// Why an answer isn't fetched. Its text is the line that the program prints on standard error.
#[derive(Clone, Copy, Debug, PartialEq, Eq, Error)]
pub enum NotFetched {
    /// The query doesn't read: `Q2 byte 6`. The mirror isn't asked.
    #[error("{0}")]
    Query(QlFault),
    /// The mirror gives no answer that its proof shows.
    #[error("{0}")]
    Mirror(MirrorFault),
    /// An allocation was refused.
    #[error("no memory")]
    Memory,
    /// Writing the answer failed, or took nothing.
    #[error("device")]
    Device,
}

impl NotFetched {
    /// How the program ends after it: `No` where the mirror's proof is refused, `Refused` where the query is, else
    /// `Failed`: so too where the proof passes the budget, since nothing is known of it then.
    pub fn status(self) -> Status
        ensures { result ≡ status_of self }
    {
        match self {
            NotFetched::Query(_) => Status::Refused,
            NotFetched::Mirror(MirrorFault::OtherRoot | MirrorFault::Proof(_)) => Status::No,
            NotFetched::Mirror(_) | NotFetched::Memory | NotFetched::Device => Status::Failed,
        }
    }
}

impl From<AllocError> for NotFetched {
    ghost from_gives = { λ _ fault. fault ≡ Memory };

    fn from(_error: AllocError) -> NotFetched {
        NotFetched::Memory
    }
}
