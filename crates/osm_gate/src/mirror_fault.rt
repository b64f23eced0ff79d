//! Why a mirror has no answer.

ghost use Rattle.std.specs.Prelude.{◌≡◌};
ghost use Rattle.osm_gate.specs.Mirrors.{fault_of};

use osm_prove::ProveFault;
use ql_syntax::QlFault;

/// Why a mirror has no answer.
#[derive(Clone, Copy, Debug, PartialEq, Eq)]
pub enum MirrorFault {
    /// The query doesn't read.
    Query(QlFault),
    /// More is to be done for the query than the budget has.
    Work,
    /// An allocation was refused.
    Memory,
    /// The device of the nodes failed, or what it gave isn't what it should be.
    Device,
}

/// Why a set in memory has no answer.
pub(crate) fn fault_of(refused: ProveFault) -> MirrorFault
    ensures { result ≡ fault_of refused }
{
    match refused {
        ProveFault::Query(fault) => MirrorFault::Query(fault),
        ProveFault::Work => MirrorFault::Work,
        ProveFault::Memory => MirrorFault::Memory,
    }
}
