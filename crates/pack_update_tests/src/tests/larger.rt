//! Sets of many objects, whose trees have several levels.

use super::published::{Published, SEVENTH};
use std::alloc::Global;
use std::test::Fail;
use test_devices::Numbers;
use tree_node::Shelf;

/// The line of a node, by its id.
fn append_node(alloc: Global, id: u32, text: &mut String) -> Result<(), Fail> {
    let lon = id.wrapping_mul(37) % 180;
    let lat = id.wrapping_mul(11) % 90;
    let value = id % 50;
    let line = format!(in alloc; "n{id} Tk={value} x{lon} y{lat}\n")?;
    text.push_str(line.as_str())?;
    Ok(())
}

/// The nodes with the ids from the first one on, up to the last one.
pub(super) fn nodes(alloc: Global, first: u32, last: u32) -> Result<String, Fail> {
    let mut text = String::new(alloc);
    for id in first..last {
        append_node(alloc, id, &mut text)?;
    }
    Ok(text)
}

/// The nodes with these ids are deleted.
pub(super) fn deletes(alloc: Global, first: u32, last: u32) -> Result<String, Fail> {
    let mut text = String::new(alloc);
    for id in first..last {
        let line = format!(in alloc; "n{id} dD\n")?;
        text.push_str(line.as_str())?;
    }
    Ok(text)
}

/// The level of the top of the object tree: 0 where it is a leaf.
fn top_level(alloc: Global, published: &Published) -> Result<Option<u8>, Fail> {
    let snapshot = &published.snapshot;
    let mut shelf = snapshot.stock().shelf(alloc);
    let top = shelf.fetch(&snapshot.manifest().tops[0])?;
    Ok(top.get(1).copied())
}

/// Some of 1,200 nodes change, in several places of the trees; nearly all go; the others come again, and more.
#[test]
fn a_larger_set_changes(rt: HostRuntime) -> Result<(), Fail> {
    let alloc = rt.alloc();
    let set = nodes(alloc, 1, 1201)?;
    let mut published = Published::new(alloc, set.as_str(), SEVENTH)?;
    assert!(rt; top_level(alloc, &published)? == Some(2));
    assert!(rt;
        published.add(
            alloc,
            "n3 dD\nn700 v2 x1 y1\nn1100 Tz=y x5 y5\nn2500 x0 y0\n"
        )?
    );
    assert!(rt; published.add(alloc, "n1200 dD\n")?);
    let gone = deletes(alloc, 4, 1198)?;
    assert!(rt; published.add(alloc, gone.as_str())?);
    assert!(rt; top_level(alloc, &published)? == Some(0));
    let more = nodes(alloc, 3, 1601)?;
    assert!(rt; published.add(alloc, more.as_str())?);
    assert!(rt; top_level(alloc, &published)? == Some(2));
    assert!(rt; published.add(alloc, "w1 Nn1,n1599\nn1 dD\n")?);
    Ok(())
}

/// Nodes by chance: those that are there go, and the others come, each once in so many times.
fn turned(
    alloc: Global,
    numbers: &mut Numbers,
    times: u32,
    there: &mut [bool],
) -> Result<String, Fail> {
    let mut text = String::new(alloc);
    let mut id = 0_u32;
    for is_there in there.iter_mut() {
        id = id.wrapping_add(1);
        if numbers.happens(times) {
            if *is_there {
                let line = format!(in alloc; "n{id} dD\n")?;
                text.push_str(line.as_str())?;
            } else {
                append_node(alloc, id, &mut text)?;
            }
            *is_there = !*is_there;
        }
    }
    Ok(text)
}

/// Nodes come and go by chance, few and many at once.
#[test]
fn nodes_come_and_go(rt: HostRuntime) -> Result<(), Fail> {
    let alloc = rt.alloc();
    let mut numbers = Numbers::new(1);
    let mut there = [false; 400];
    let mut published = Published::new(alloc, "", SEVENTH)?;
    for times in [2, 300, 100, 300, 2, 30, 1, 10, 1, 2] {
        let changes = turned(alloc, &mut numbers, times, &mut there)?;
        assert!(rt; published.add(alloc, changes.as_str())?, "{times}");
    }
    Ok(())
}
