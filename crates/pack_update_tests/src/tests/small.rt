//! A small set that changes.

use super::published::{Published, SET, SEVENTH, changes_of};
use node_pack::WriteFault;
use osm_index::ApplyFault;
use outside_shelf::Refused;
use pack_update::AddFault;
use std::test::Fail;

/// Objects of all three kinds come, change and go, one further file after the other; nothing changes but the sequence; the last
/// objects go; and the first one comes again.
#[test]
fn files_come_one_after_the_other(rt: HostRuntime) -> Result<(), Fail> {
    let alloc = rt.alloc();
    let mut published = Published::new(alloc, SET, SEVENTH)?;
    for changes in [
        "n3 Tamenity=bench x13.5 y52.5\nw11 Thighway=path Nn1,n3\nr101 Ttype=site Mn3@a,w10@\n",
        "n2 v2 x13.4000002 y52.5\nw10 v2 Thighway=secondary Nn1,n2\nr100 v2 Ttype=route Mw10@inner\n",
        "n3 dD\nw11 dD\nr101 dD\n",
        "n4 Ta=b x1 y1\nn2 v3 x13.4000003 y52.5\nr100 dD\n",
        "",
        "n1 dD\nn2 dD\nn4 dD\nw10 dD\n",
        "",
        "n1 v1 dV c5 t2020-01-02T03:04:05Z i7 uAnn Thighway=crossing x13.4 y52.5\n",
    ] {
        assert!(rt; published.add(alloc, changes)?, "{changes}");
    }
    assert_eq!(rt; published.files.len(), 9);
    Ok(())
}

/// Run with each allocation refused in turn: nothing is written then, and the next time all is.
#[test]
fn adds_after_refused_memory(rt: HostRuntime) -> Result<(), Fail> {
    let alloc = rt.alloc();
    let text = "n1 dD\nw10 v2 Thighway=secondary Nn2\nr101 Ttype=site Mw10@\n";
    let mut published = Published::new(alloc, SET, SEVENTH)?;
    let changes = changes_of(alloc, text)?;
    let mut file = Vec::with_capacity(alloc, 4096)?;
    if let Err(fault) = published.write(alloc, changes.as_slice(), &mut file) {
        let is_memory = fault == AddFault::Source(Refused::Memory)
            || fault == AddFault::Apply(ApplyFault::Memory)
            || fault == AddFault::Write(WriteFault::Memory);
        assert!(rt; is_memory);
        assert!(rt; file.is_empty());
    }
    assert!(rt; published.add(alloc, text)?);
    Ok(())
}
