//! What each fault is to who asks a mirror.

ghost use Rattle.std.specs.Prelude.{◌≡◌};
ghost use Rattle.pack_mirror.specs.Faults.{fault_of_answer, fault_of_query};

use osm_gate::MirrorFault;
use outside_proof::OutsideFault;
use ql_syntax::{QlCause, QlFault};

/// What a query that isn't read is: its fault, or out of memory.
pub(crate) fn query_refused(fault: QlFault) -> MirrorFault
    ensures { result ≡ fault_of_query fault }
{
    match fault.cause {
        QlCause::Memory => MirrorFault::Memory,
        _ => MirrorFault::Query(fault),
    }
}

/// What it is that nodes have no answer: a node that isn't given, and nodes that aren't those of a publication, are the
/// device's fault.
pub(crate) fn answer_refused(fault: OutsideFault) -> MirrorFault
    ensures { result ≡ fault_of_answer fault }
{
    match fault {
        OutsideFault::Work => MirrorFault::Work,
        OutsideFault::Memory => MirrorFault::Memory,
        OutsideFault::Source(_) | OutsideFault::Evaluation(_) | OutsideFault::TooLong => {
            MirrorFault::Device
        }
    }
}
