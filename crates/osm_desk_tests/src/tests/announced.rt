//! Changes whose root is announced.

use super::{ALL_KINDS, WITHOUT_N1, desk_of, root_of, snapshot_of};
use opl_codec::read_changes;
use osm_desk::Desk;
use osm_index::{AnnouncedFault, ApplyFault, Snapshot};
use osm_model::{Kind, Ref};
use std::alloc::Global;
use std::process::Abort;
use std::test::Fail;

/// The change that makes `WITHOUT_N1`.
const DELETE_N1: &str = "n1 dD\n";

/// Publishes the changes of this text, whose root is announced so. It has no clauses, so that the proofs of the tests carry
/// none of those of the desk.
fn publish(
    alloc: Global,
    desk: &mut Desk<Snapshot>,
    changes: &str,
    announced: &[u8],
) -> Result<Option<AnnouncedFault>, Fail> {
    let changes = read_changes(alloc, &mut changes.as_bytes())?;
    Ok(desk.publish_announced(&changes, announced).err())
}

/// The root of the set without n1 at sequence 1, built from nothing.
fn root_without_n1(alloc: Global) -> Result<String, Fail> {
    root_of(alloc, &snapshot_of(alloc, WITHOUT_N1, 1)?)
}

/// Whether the root in force has these digits.
fn has_root(alloc: Global, desk: &Desk<Snapshot>, digits: &str) -> Result<bool, Fail> {
    Ok(root_of(alloc, desk.snapshot())?.as_str() == digits)
}

#[test]
fn changes_that_give_the_announced_root_are_published(rt: HostRuntime) -> Result<(), Fail> {
    let alloc = rt.alloc();
    let root = root_without_n1(alloc)?;
    let mut desk = desk_of(alloc, ALL_KINDS)?;
    let refusal = publish(alloc, &mut desk, DELETE_N1, root.as_bytes())?;
    assert!(rt; refusal.is_none());
    assert!(rt; has_root(alloc, &desk, &root)?);
    Ok(())
}

/// Whether the changes are refused so, and the root of sequence 0 stays in force.
fn is_refused(
    alloc: Global,
    changes: &str,
    announced: &[u8],
    fault: AnnouncedFault,
) -> Result<bool, Fail> {
    let mut desk = desk_of(alloc, ALL_KINDS)?;
    let root = root_of(alloc, desk.snapshot())?;
    let refusal = publish(alloc, &mut desk, changes, announced)?;
    Ok(refusal == Some(fault) && has_root(alloc, &desk, &root)?)
}

#[test]
fn changes_that_give_another_root_change_nothing(rt: HostRuntime) -> Result<(), Fail> {
    let alloc = rt.alloc();
    let root = root_without_n1(alloc)?;
    let old = root_of(alloc, desk_of(alloc, ALL_KINDS)?.snapshot())?;
    let longer = format!(in alloc; "{root}0")?;
    let capitals = root.to_ascii_uppercase(alloc)?;
    for announced in [old.as_bytes(), longer.as_bytes(), capitals.as_bytes(), b""] {
        assert!(rt; is_refused(alloc, DELETE_N1, announced, AnnouncedFault::OtherRoot)?);
    }
    for len in [1, 63] {
        let Some(front) = root.as_bytes().get(..len) else {
            return Err(Fail::new("a root has 64 digits"));
        };
        assert!(rt; is_refused(alloc, DELETE_N1, front, AnnouncedFault::OtherRoot)?);
    }
    Ok(())
}

/// What else refuses them comes first.
#[test]
fn other_refusals_come_first(rt: HostRuntime) -> Result<(), Fail> {
    let missing = Ref {
        kind: Kind::Node,
        id: 99,
    };
    let fault = AnnouncedFault::Apply(ApplyFault::NotThere(missing));
    assert!(rt; is_refused(rt.alloc(), "n99 dD\n", b"", fault)?);
    Ok(())
}

#[test]
fn announced_within_memory(rt: HostRuntime) -> Result<(), Fail> {
    let alloc = rt.alloc();
    let root = root_without_n1(alloc)?;
    let mut desk = desk_of(alloc, ALL_KINDS)?;
    let old = *desk.snapshot().root();
    if let Some(fault) = publish(alloc, &mut desk, DELETE_N1, root.as_bytes())? {
        assert_eq!(rt; fault, AnnouncedFault::Apply(ApplyFault::Memory));
        assert!(rt; *desk.snapshot().root() == old);
        assert!(rt; publish(alloc, &mut desk, DELETE_N1, root.as_bytes())?.is_none());
    }
    assert!(rt; has_root(alloc, &desk, &root)?);
    Ok(())
}
