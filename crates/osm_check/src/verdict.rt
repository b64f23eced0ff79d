//! What the checker answers.

ghost use Rattle.std.specs.Prelude.{Some};
ghost use Rattle.osm_check.specs.VerdictTexts.{verdict_text};

use crate::why::Why;
use ql_eval::Report;
use std::fmt;

/// What the checker answers. Its text is what the program prints: `yes`, or `no` and the reason, as in
/// `no C9 4`.
#[derive(Clone, Copy, Debug, PartialEq, Eq)]
pub enum Verdict {
    /// The answer is right, and the proof is the one proof of it.
    Yes(Report),
    /// The answer isn't shown to be right, for this reason.
    No(Why),
}

impl fmt::Display for Verdict {
    ghost output = { λ verdict. Some (verdict_text verdict) };

    fn fmt<W: fmt::Write>(&self, f: &mut fmt::Formatter<W>) -> fmt::Result {
        match self {
            Verdict::Yes(_) => f.write_str("yes"),
            Verdict::No(why) => write!(f, "no {why}"),
        }
    }
}
