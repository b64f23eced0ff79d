//! Refused memory.

use super::{apply, changes_of, is_built, second};
use crate::tests::texts_of_sets::ALL_KINDS;
use osm_index::{ApplyFault, Delta};
use std::test::Fail;

const CHANGED: &str =
    "n1 x1 y1\nn2 x13.4000001 y52.5\nn3 Ta=b x0 y0\nr100 Ttype=route Mw10@outer,n99@stop,r100@\n";

/// Run with each allocation refused in turn, the snapshot is changed, or it is out of memory and as before; then the
/// same changes are applied.
#[test]
fn changes_survive_refused_memory(rt: HostRuntime) -> Result<(), Fail> {
    let alloc = rt.alloc();
    let mut snapshot = second(alloc, ALL_KINDS, 0)?;
    let changes = changes_of(alloc, "w10 dD\nn3 Ta=b x0 y0\nn1 x1 y1\n")?;
    match apply(alloc, &mut snapshot, &changes)? {
        Ok(Delta { added: _, gone: _ }) => {}
        Err(fault) => {
            assert_eq!(rt; fault, ApplyFault::Memory);
            assert!(rt; is_built(alloc, &snapshot, ALL_KINDS, 0)?);
            let Delta { added: _, gone: _ } = apply(alloc, &mut snapshot, &changes)??;
        }
    }
    assert!(rt; is_built(alloc, &snapshot, CHANGED, 1)?);
    Ok(())
}
