//! Why an evaluation was refused.

ghost use Rattle.std.specs.Prelude.{◌≡◌, Some};
ghost use Rattle.ql_eval.specs.Faults.{fault_of_opening, fault_of_walk};
ghost use Rattle.ql_eval.specs.Refusals.{code_text};
ghost use Rattle.ql_eval.specs.declared.fault.EvalFault.TheVariants.{Memory};

use crate::opening::ManifestFault;
use std::alloc::{AllocError, AllocFailed};
use std::fmt;
use tree_walk::WalkFault;

/// Why an evaluation was refused. Its text is its code, from `E1` to `E4`, or `no memory` or `too much work`.
#[derive(Clone, Copy, Debug, PartialEq, Eq)]
pub enum EvalFault {
    /// E1: a walk was refused, by this fault (V1 to V4), which isn't memory.
    Walk(WalkFault),
    /// E2: an entry isn't of the form of its tree's entries.
    Form,
    /// E3: an entry names an object that isn't there.
    Absent,
    /// E4: the manifest is missing or malformed.
    Manifest(ManifestFault),
    /// Memory for sets, for objects, for the answer or on the shelf was refused.
    Memory,
    /// More is to be done than the budget has. Of an evaluation without a budget it is never told.
    Work,
}

impl fmt::Display for EvalFault {
    ghost output = { λ fault. Some (code_text fault) };

    fn fmt<W: fmt::Write>(&self, f: &mut fmt::Formatter<W>) -> fmt::Result {
        f.write_str(match self {
            EvalFault::Walk(_) => "E1",
            EvalFault::Form => "E2",
            EvalFault::Absent => "E3",
            EvalFault::Manifest(_) => "E4",
            EvalFault::Memory => "no memory",
            EvalFault::Work => "too much work",
        })
    }
}

impl std::error::Error for EvalFault {}

impl From<WalkFault> for EvalFault {
    ghost from_gives = { λ walk fault. fault ≡ fault_of_walk walk };

    fn from(fault: WalkFault) -> EvalFault {
        match fault {
            WalkFault::Memory => EvalFault::Memory,
            other => EvalFault::Walk(other),
        }
    }
}

impl From<ManifestFault> for EvalFault {
    ghost from_gives = { λ opening fault. fault ≡ fault_of_opening opening };

    fn from(fault: ManifestFault) -> EvalFault {
        match fault {
            ManifestFault::Memory => EvalFault::Memory,
            other => EvalFault::Manifest(other),
        }
    }
}

impl From<AllocError> for EvalFault {
    ghost from_gives = { λ _ fault. fault ≡ Memory };

    fn from(_error: AllocError) -> EvalFault {
        EvalFault::Memory
    }
}

impl<T: Drop> From<AllocFailed<T>> for EvalFault {
    ghost from_gives = { λ _ fault. fault ≡ Memory };

    fn from(_error: AllocFailed<T>) -> EvalFault {
        EvalFault::Memory
    }
}
