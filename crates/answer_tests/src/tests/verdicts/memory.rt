//! Out of memory, or the whole verdict: also where an allocation is refused (tests/system).

use super::told;
use crate::tests::snapshot_of;
use crate::tests::texts_of_sets::ALL_KINDS;
use osm_check::check;
use osm_index::Edition;
use osm_prove::prove;
use std::test::Fail;

#[test]
fn checks_within_memory(rt: HostRuntime) -> Result<(), Fail> {
    let alloc = rt.alloc();
    let snapshot = snapshot_of(alloc, ALL_KINDS, Edition::Two { sequence: 0 })?;
    // Its list of statements, that of the union, and the sets that it writes take memory.
    let query = b"rel(100)->.a;(way(r.a)[name][highway];node(w););>>;(._;-node(1););out;";
    let proved = prove(alloc, &snapshot, query)?;
    assert_eq!(rt;
        proved.answer.as_slice(),
        b"n2 T x13.4000001 y52.5\n".as_slice()
    );
    // No refusal of memory is told as a no.
    if let Ok(verdict) = check(alloc, query, &proved.root, &proved.answer, &proved.proof) {
        let text = format!(in alloc; "{verdict}")?;
        assert_eq!(rt; text.as_str(), "yes");
    }
    let text = told(alloc, query, &proved.root, &proved.answer, &proved.proof)?;
    assert_eq!(rt; text.as_str(), "yes");
    Ok(())
}
