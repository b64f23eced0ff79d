//! Each single change of a set of many nodes.

use super::{apply, changes_of, is_built, second};
use crate::tests::snapshot_of;
use opl_codec::Change;
use osm_index::Delta;
use std::alloc::Global;
use std::test::Fail;

/// A node: its id, its location and a tag by rule.
fn append_node(alloc: Global, id: u64, text: &mut String) -> Result<(), Fail> {
    let lon = id.wrapping_mul(37) % 180;
    let lat = id.wrapping_mul(11) % 90;
    let value = id % 5;
    let line = format!(in alloc; "n{id} Tk={value} x{lon} y{lat}\n")?;
    text.push_str(line.as_str())?;
    Ok(())
}

/// The nodes with the ids 2, 4 and so on, up to 400, and this one, without the other one.
fn nodes(alloc: Global, more: u64, without: u64) -> Result<String, Fail> {
    let mut text = String::new(alloc);
    for id in 1..402 {
        if (id % 2 == 0 || id == more) && id != without {
            append_node(alloc, id, &mut text)?;
        }
    }
    Ok(text)
}

/// The change of the node with this id: it is deleted where it is among the 200, and put where it isn't.
fn change(alloc: Global, id: u64, is_there: bool) -> Result<Vec<Change>, Fail> {
    let mut text = String::new(alloc);
    if is_there {
        let line = format!(in alloc; "n{id} dD\n")?;
        text.push_str(line.as_str())?;
    } else {
        append_node(alloc, id, &mut text)?;
    }
    changes_of(alloc, text.as_str())
}

/// Changes each node with one of these ids, looks at the root, and changes it back.
fn change_each(alloc: Global, first: u64, last: u64) -> Result<bool, Fail> {
    let set = nodes(alloc, 0, 0)?;
    let mut snapshot = second(alloc, set.as_str(), 0)?;
    for id in first..last {
        let is_there = id % 2 == 0;
        let Delta { added: _, gone: _ } = apply(
            alloc,
            &mut snapshot,
            &change(alloc, id, is_there)?,
        )??;
        let changed = if is_there {
            nodes(alloc, 0, id)?
        } else {
            nodes(alloc, id, 0)?
        };
        let built = snapshot_of(alloc, changed.as_str(), snapshot.edition())?;
        if snapshot.root() != built.root() {
            return Ok(false);
        }
        let Delta { added: _, gone: _ } = apply(
            alloc,
            &mut snapshot,
            &change(alloc, id, !is_there)?,
        )??;
    }
    is_built(
        alloc,
        &snapshot,
        set.as_str(),
        last.wrapping_sub(first).wrapping_mul(2),
    )
}

#[test]
fn each_of_the_first_nodes_changes(rt: HostRuntime) -> Result<(), Fail> {
    assert!(rt; change_each(rt.alloc(), 1, 101)?);
    Ok(())
}

#[test]
fn each_of_the_second_nodes_changes(rt: HostRuntime) -> Result<(), Fail> {
    assert!(rt; change_each(rt.alloc(), 101, 201)?);
    Ok(())
}

#[test]
fn each_of_the_third_nodes_changes(rt: HostRuntime) -> Result<(), Fail> {
    assert!(rt; change_each(rt.alloc(), 201, 301)?);
    Ok(())
}

#[test]
fn each_of_the_last_nodes_changes(rt: HostRuntime) -> Result<(), Fail> {
    assert!(rt; change_each(rt.alloc(), 301, 402)?);
    Ok(())
}

#[test]
fn nodes_come_back_one_by_one(rt: HostRuntime) -> Result<(), Fail> {
    let alloc = rt.alloc();
    let set = nodes(alloc, 0, 0)?;
    let mut snapshot = second(alloc, set.as_str(), 0)?;
    let gone = changes_of(alloc, "n100 dD\n")?;
    let mut back = String::new(alloc);
    append_node(alloc, 100, &mut back)?;
    let back = changes_of(alloc, back.as_str())?;
    for _ in 0..5 {
        let Delta { added: _, gone: _ } = apply(alloc, &mut snapshot, &gone)??;
        let Delta { added: _, gone: _ } = apply(alloc, &mut snapshot, &back)??;
    }
    assert!(rt; is_built(alloc, &snapshot, set.as_str(), 10)?);
    Ok(())
}
