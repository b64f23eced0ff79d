//! A verdict in numbers.

ghost use Rattle.std.specs.Prelude.{◌≡◌};
ghost use Rattle.osm_check_web.specs.ToldVerdicts.{cause_number, cause_of, nothing, place_of, reason_number, status_of, told_of};

use osm_check::{Verdict, Why};
use ql_syntax::QlCause;

/// The answer is right.
pub const YES: u32 = 0;

/// The answer isn't shown to be right, for the reason that is told.
pub const NO: u32 = 1;

/// Memory ran out: the answer was not judged.
pub const NO_MEMORY: u32 = 2;

/// The root doesn't have 32 bytes: the answer was not judged.
pub const BAD_ROOT: u32 = 3;

/// The form isn't 0, 1 or 2: no document was made.
pub const BAD_FORM: u32 = 4;

/// The answer is there, and its document is longer than the room for it.
pub const TOO_SHORT: u32 = 5;

/// What is told beside a status. Where an answer was not judged, all of it is 0.
#[repr(C)]
#[derive(Clone, Copy, Debug, PartialEq, Eq)]
pub struct Told {
    /// Why it isn't shown to be right: from 1 to 9, as in C1 to C9; 0 at a yes.
    pub reason: u32,
    /// Why the query is refused: from 1 to 11, as in Q1 to Q11; 0 where the reason isn't C1.
    pub cause: u32,
    /// The byte, from 0, that goes with C1 (of the query) or C9 (of the answer); 0 at other reasons.
    pub place: u64,
    /// At a yes: how many walks over trees the evaluation made ([`osm_check::Report`]).
    pub ranges: u64,
    /// At a yes: how many nodes these walks fetched.
    pub fetched: u64,
}

/// What is told where an answer was not judged.
pub(crate) fn told_nothing() -> Told
    ensures { result ≡ nothing }
{
    Told {
        reason: 0,
        cause: 0,
        place: 0,
        ranges: 0,
        fetched: 0,
    }
}

/// The status of an answer that was judged.
pub(crate) fn status_of_verdict(verdict: Verdict) -> u32
    ensures { result ≡ status_of verdict }
{
    match verdict {
        Verdict::Yes(_) => YES,
        Verdict::No(_) => NO,
    }
}

/// What is told of a verdict.
pub(crate) fn told_of_verdict(verdict: Verdict) -> Told
    ensures { result ≡ told_of verdict }
{
    match verdict {
        Verdict::Yes(report) => Told {
            reason: 0,
            cause: 0,
            place: 0,
            ranges: report.ranges,
            fetched: report.fetched,
        },
        Verdict::No(why) => Told {
            reason: number_of_reason(why),
            cause: cause_of_reason(why),
            place: place_of_reason(why),
            ranges: 0,
            fetched: 0,
        },
    }
}

/// The number in a reason's code.
fn number_of_reason(why: Why) -> u32
    ensures { result ≡ reason_number why }
{
    match why {
        Why::QueryRefused(_) => 1,
        Why::ProofMalformed => 2,
        Why::ProofNotRising => 3,
        Why::NodeMissing => 4,
        Why::NodeMalformed => 5,
        Why::NodesDisagree => 6,
        Why::EntriesDisagree => 7,
        Why::NodeUnused => 8,
        Why::AnswerDiffers(_) => 9,
    }
}

/// The number of the cause for which the query is refused.
fn cause_of_reason(why: Why) -> u32
    ensures { result ≡ cause_of why }
{
    match why {
        Why::QueryRefused(fault) => number_of_cause(fault.cause),
        _ => 0,
    }
}

/// The byte that a reason names.
fn place_of_reason(why: Why) -> u64
    ensures { result ≡ place_of why }
{
    match why {
        Why::QueryRefused(fault) => fault.byte as u64,
        Why::AnswerDiffers(byte) => byte,
        _ => 0,
    }
}

/// The number in a cause's code.
fn number_of_cause(cause: QlCause) -> u32
    ensures { result ≡ cause_number cause }
{
    match cause {
        QlCause::Memory => 0,
        QlCause::NotUtf8 => 1,
        QlCause::UnexpectedCharacter => 2,
        QlCause::Unclosed => 3,
        QlCause::BadEscape => 4,
        QlCause::UnexpectedWord => 5,
        QlCause::NumberOutOfRange => 6,
        QlCause::Unsupported => 7,
        QlCause::TooDeep => 8,
        QlCause::TooLong => 9,
        QlCause::BadBox => 10,
        QlCause::UnexpectedEnd => 11,
    }
}
