//! The reasons of queries that don't read, and of refused evaluations.

ghost use Rattle.std.specs.Prelude.{◌≡◌, ◌≢◌, ◌↔◌, IfErr, IfOk, MatchResult, None, Some};
ghost use Rattle.osm_check.specs.internal.Judging.{why_of};

use crate::check_fault::CheckFault;
use crate::why::Why;
use ql_eval::{EvalFault, ManifestFault};
use ql_syntax::{QlCause, QlFault};
use std::alloc::AllocError;
use tree_walk::WalkFault;

/// The reason where a query isn't read: out of memory is none.
pub(crate) fn unread(fault: QlFault) -> Result<Why, AllocError>
    ensures why { IfOk result (λ why. (why ≡ Why.QueryRefused fault)
        × (fault.cause ≢ QlCause.Memory)) }
    ensures memory { IfErr result (λ _. fault.cause ≡ QlCause.Memory) }
{
    match fault.cause {
        QlCause::Memory => Err(AllocError),
        _ => Ok(Why::QueryRefused(fault)),
    }
}

/// The reason where an evaluation was refused: out of memory is none, and neither is a budget.
pub(crate) fn stopped(fault: EvalFault) -> Result<Why, CheckFault>
    ensures { MatchResult result (λ why. why_of fault ≡ Some why)
        (λ stop. (why_of fault ≡ None)
        × ((stop ≡ CheckFault.Work) ↔ (fault ≡ EvalFault.Work))) }
{
    match fault {
        EvalFault::Walk(WalkFault::Missing) | EvalFault::Manifest(ManifestFault::Missing) => {
            Ok(Why::NodeMissing)
        }
        EvalFault::Walk(WalkFault::Malformed(_)) | EvalFault::Manifest(ManifestFault::Malformed) =>
            { Ok(Why::NodeMalformed) }
        EvalFault::Walk(WalkFault::WrongTreeOrLevel | WalkFault::Disagrees) => {
            Ok(Why::NodesDisagree)
        }
        EvalFault::Form | EvalFault::Absent => Ok(Why::EntriesDisagree),
        EvalFault::Walk(WalkFault::Memory)
        | EvalFault::Manifest(ManifestFault::Memory)
        | EvalFault::Memory => Err(CheckFault::Memory),
        EvalFault::Work => Err(CheckFault::Work),
    }
}
