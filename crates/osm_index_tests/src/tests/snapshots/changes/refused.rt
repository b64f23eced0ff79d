//! Changes that are refused.

use super::{apply, changes_of, is_built, second};
use crate::tests::texts_of_sets::ALL_KINDS;
use osm_index::ApplyFault;
use osm_model::{Kind, Ref};
use std::alloc::Global;
use std::test::Fail;

/// The refusal of these changes of `ALL_KINDS` at this sequence, if the snapshot stays as it was.
fn refusal_of(alloc: Global, changes: &str, sequence: u64) -> Result<Option<ApplyFault>, Fail> {
    let mut snapshot = second(alloc, ALL_KINDS, sequence)?;
    let changes = changes_of(alloc, changes)?;
    let Err(fault) = apply(alloc, &mut snapshot, &changes)? else {
        return Ok(None);
    };
    if !is_built(alloc, &snapshot, ALL_KINDS, sequence)? {
        return Ok(None);
    }
    Ok(Some(fault))
}

#[test]
fn refusals_have_an_order(rt: HostRuntime) -> Result<(), Fail> {
    let alloc = rt.alloc();
    let rows = [
        ("n5 x0 y0\nn5 dD\n", 0, "I3 n5"),
        ("n99 dD\n", 0, "I2 n99"),
        ("", u64::MAX, "I5"),
        ("n5 dD\nn5 dD\n", u64::MAX, "I5"),
        // I3 comes before I2, and each names the earliest.
        ("w7 dD\nn5 x0 y0\nr9 dD\nr9 dD\nn5 dD\n", 0, "I3 r9"),
        ("n1 dD\nw11 dD\nr9 dD\n", 0, "I2 w11"),
        ("n9223372036854775807 dD\n", 0, "I2 n9223372036854775807"),
        ("r-3 dD\n", 3, "I2 r-3"),
        ("n1 dD\nn2 dD\nn1 x0 y0\n", 3, "I3 n1"),
    ];
    for (changes, sequence, text) in rows {
        let Some(fault) = refusal_of(alloc, changes, sequence)? else {
            return Err(Fail::new("it is refused, and the snapshot stays"));
        };
        let found = format!(in alloc; "{fault}")?;
        assert_eq!(rt; found.as_str(), text);
    }
    Ok(())
}

#[test]
fn refusals_show_their_codes(rt: HostRuntime) -> Result<(), Fail> {
    let alloc = rt.alloc();
    let way = Ref {
        kind: Kind::Way,
        id: 10,
    };
    let rows = [
        (ApplyFault::LastSequence, "I5"),
        (ApplyFault::ChangedTwice(way), "I3 w10"),
        (ApplyFault::NotThere(way), "I2 w10"),
        (ApplyFault::TooMany, "I4"),
        (ApplyFault::Clash, "I1"),
        (ApplyFault::Memory, "no memory"),
    ];
    for (fault, text) in rows {
        let found = format!(in alloc; "{fault}")?;
        assert_eq!(rt; found.as_str(), text);
    }
    Ok(())
}
