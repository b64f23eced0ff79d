//! How the program ends.

ghost use Rattle.std.specs.Prelude.{◌≡◌};
ghost use Rattle.osm_commands.specs.Statuses.{code_of, status_of_verdict};

use osm_check::Verdict;

/// How the program ends.
#[derive(Clone, Copy, Debug, PartialEq, Eq)]
pub enum Status {
    /// The work is done; of `check`, the answer is right.
    Done,
    /// The answer isn't shown to be right.
    No,
    /// The words, the input or the query are refused.
    Refused,
    /// Out of memory, or a device failed, or a file is larger than it may be, or a query is more work.
    Failed,
}

impl Status {
    /// The exit status: 0 done, 1 no, 2 refused, 3 failed.
    pub fn code(self) -> u8
        ensures { result ≡ code_of self }
    {
        match self {
            Status::Done => 0,
            Status::No => 1,
            Status::Refused => 2,
            Status::Failed => 3,
        }
    }
}

impl From<Verdict> for Status {
    ghost from_gives = { λ verdict status. status ≡ status_of_verdict verdict };

    fn from(verdict: Verdict) -> Status {
        match verdict {
            Verdict::Yes(_) => Status::Done,
            Verdict::No(_) => Status::No,
        }
    }
}
