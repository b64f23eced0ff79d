//! Queries that read.

ghost use Rattle.std.specs.Prelude.{◌≡◌, ◌⊎◌, Err, IfErr, IfOk};
ghost use Rattle.ql_syntax.specs.Queries.{HasFault, Reads};
ghost use Rattle.ql_syntax.specs.StatementViews.{statements_of};
ghost use Rattle.ql_syntax.specs.declared.fault.QlFault.{QlFault};
ghost use Rattle.pack_mirror.specs.Faults.{IsOfQuery};

use crate::faults::query_refused;
use osm_gate::MirrorFault;
use ql_syntax::{Query, parse};
use std::alloc::Global;

/// The query that these bytes are. Refused with its fault exactly where they don't read, and else only where memory runs out.
pub(crate) fn read_query(alloc: Global, query: &[u8]) -> Result<Query<'_>, MirrorFault>
    ensures read { IfOk result (λ parsed. Reads query.now (statements_of parsed)) }
    ensures refused { (fault : QlFault) → HasFault query.now fault
        → (result ≡ Err (MirrorFault.Query fault)) ⊎ (result ≡ Err MirrorFault.Memory) }
    ensures told { (fault : QlFault) → result ≡ Err (MirrorFault.Query fault)
        → HasFault query.now fault }
    ensures alone { IfErr result IsOfQuery }
{
    match parse(alloc, query) {
        Ok(parsed) => Ok(parsed),
        Err(fault) => Err(query_refused(fault)),
    }
}
