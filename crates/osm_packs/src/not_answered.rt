//! Why a query isn't answered.

ghost use Rattle.std.specs.Prelude.{◌≡◌};
ghost use Rattle.osm_packs.specs.Querying.{status_of};

use node_pack::PackFault;
use osm_commands::Status;
use outside_shelf::Refused;
use ql_eval::EvalFault;
use ql_syntax::QlFault;
use thiserror::Error;

/// Why a query isn't answered. Its text is the line that the program prints on standard error.
#[derive(Clone, Copy, Debug, PartialEq, Eq, Error)]
pub enum NotAnswered {
    /// The query doesn't read: `Q2 byte 6`. The pack isn't opened.
    #[error("{0}")]
    Query(QlFault),
    /// The file can't be opened as a pack, for this reason, which isn't memory.
    #[error("{0}")]
    Pack(PackFault),
    /// The pack is of another root than the client holds.
    #[error("a pack of another root")]
    OtherRoot,
    /// The pack gave no node where one was needed, for this reason, which isn't memory.
    #[error("{0}")]
    Node(Refused),
    /// The nodes are those that the root stands for, and they aren't the nodes of a set of objects: `E1` to `E4`.
    #[error("{0}")]
    Evaluation(EvalFault),
    /// More is to be done for the query than the client's budget has.
    #[error("too much work")]
    Work,
    /// An allocation was refused.
    #[error("no memory")]
    Memory,
    /// Writing the answer failed, or took nothing.
    #[error("device")]
    Device,
}

impl NotAnswered {
    /// How the program ends after it: `Refused` where the query doesn't read or the file is no pack; `No` where the pack has
    /// not what the root stands for, or the root doesn't stand for a set of objects; else `Failed`.
    pub fn status(self) -> Status
        ensures { result ≡ status_of self }
    {
        match self {
            NotAnswered::Query(_) => Status::Refused,
            NotAnswered::Pack(PackFault::Device | PackFault::Memory) => Status::Failed,
            NotAnswered::Pack(_) => Status::Refused,
            NotAnswered::OtherRoot
            | NotAnswered::Node(Refused::Absent | Refused::Other)
            | NotAnswered::Evaluation(_) => Status::No,
            NotAnswered::Node(_) | NotAnswered::Work | NotAnswered::Memory | NotAnswered::Device =>
                Status::Failed,
        }
    }
}
