//! Rows of small sets, computed by an independent program: keys, entries, manifests and roots.

mod cells;
mod changes;
mod memory;
mod reading;

use crate::tests::texts_of_sets::{ALL_KINDS, DATELINE};
use opl_codec::read_set;
use osm_index::{
    Edition, IndexFault, OwnedRange, Snapshot, back_range, entries_of, object_range, tag_key_range,
    tag_range,
};
use osm_model::{Kind, ObjectSet, Ref};
use std::alloc::Global;
use std::test::Fail;
use tree_node::Tree;

fn set_of(alloc: Global, text: &str) -> Result<ObjectSet, Fail> {
    let mut reader = text.as_bytes();
    Ok(read_set(alloc, &mut reader)?)
}

/// The keys and values of a tree, a space between the two and an entry a line.
fn shown(alloc: Global, set: &ObjectSet, tree: Tree) -> Result<String, Fail> {
    let list = entries_of(alloc, set, tree)?;
    let mut text = String::new(alloc);
    for entry in list.sorted(alloc)?.iter() {
        text.push_str(hex::encode(alloc, entry.key)?.as_str())?;
        text.push_str(" ")?;
        text.push_str(hex::encode(alloc, entry.value)?.as_str())?;
        text.push_str("\n")?;
    }
    Ok(text)
}

#[test]
fn entries_of_one_node(rt: HostRuntime) -> Result<(), Fail> {
    let set = set_of(rt.alloc(), "n1 x0 y0\n")?;
    let rows = [
        (
            Tree::Objects,
            "018000000000000001 6e31207630206456206330207420693020752054207830207930\n",
        ),
        (Tree::Tags, ""),
        (Tree::Cells, "038407088000000000000001 0000000000000000\n"),
        (Tree::Backs, ""),
    ];
    for (tree, text) in rows {
        let found = shown(rt.alloc(), &set, tree)?;
        assert_eq!(rt; found.as_str(), text);
    }
    Ok(())
}

#[test]
fn entries_of_a_small_set(rt: HostRuntime) -> Result<(), Fail> {
    let set = set_of(rt.alloc(), ALL_KINDS)?;
    let rows = [
        (Tree::Objects, 4, "018000000000000001 6e31207631"),
        (Tree::Tags, 4, "68696768776179"),
        (
            Tree::Cells,
            2,
            "0591078e8000000000000001 07fcad801f4add40\n",
        ),
        (Tree::Backs, 5, "01800000000000000102800000000000000a \n"),
    ];
    for (tree, number, front) in rows {
        let found = shown(rt.alloc(), &set, tree)?;
        assert_eq!(rt; found.as_str().lines().count(), number);
        assert!(rt; found.as_str().starts_with(front));
    }
    Ok(())
}

/// The root of a set in the first edition, or in the second with a sequence.
fn root_of(alloc: Global, text: &str, sequence: Option<u64>) -> Result<String, Fail> {
    let edition = match sequence {
        None => Edition::One,
        Some(sequence) => Edition::Two { sequence },
    };
    let snapshot = Snapshot::build(alloc, set_of(alloc, text)?, edition)?;
    Ok(hex::encode(alloc, &snapshot.root().0)?)
}

#[test]
fn roots_are_those_of_the_vectors(rt: HostRuntime) -> Result<(), Fail> {
    let rows = [
        (
            "",
            None,
            "d15409ab6166f71beaff4544e4d62e1ff9fd4442699d90b7a114f26e4c8cb88f",
        ),
        (
            "",
            Some(7),
            "002810b7b77132709f366506ea47ab7df3893c60f1095b26bf69b74ad9b66822",
        ),
        (
            "n1 x0 y0\n",
            Some(0),
            "2edddc4ff3f49f87b186a0306c96101095e87e0191b83039db608cf0392a1214",
        ),
        (
            ALL_KINDS,
            None,
            "75a22f59df64013528dcb5e169ed9fd2305ff00f4b700f271af080582a6e0671",
        ),
        (
            ALL_KINDS,
            Some(7),
            "271e49a5432b1f23937721950d20e4003dfb01c994b9332797dac312f4e5a077",
        ),
        (
            DATELINE,
            Some(7),
            "f1d2f7baeaf4a719fe67eba741911333df8be5fde48f6aca513cfd00cfa1134e",
        ),
    ];
    for (text, sequence, root) in rows {
        let found = root_of(rt.alloc(), text, sequence)?;
        assert_eq!(rt; found.as_str(), root);
    }
    Ok(())
}

/// The two ends of a range in hexadecimal digits, a space between the two.
fn ends(alloc: Global, range: &OwnedRange) -> Result<String, Fail> {
    let range = range.as_range();
    let mut text = hex::encode(alloc, range.lo)?;
    text.push_str(" ")?;
    text.push_str(hex::encode(alloc, range.hi)?.as_str())?;
    Ok(text)
}

const WAY: Ref = Ref {
    kind: Kind::Way,
    id: 10,
};

#[test]
fn object_ranges_name_their_ends(rt: HostRuntime) -> Result<(), Fail> {
    let object = ends(rt.alloc(), &object_range(rt.alloc(), WAY)?)?;
    assert_eq!(rt; object.as_str(), "02800000000000000a 02800000000000000a");
    let back = ends(rt.alloc(), &back_range(rt.alloc(), WAY, Some(Kind::Rel))?)?;
    assert_eq!(rt; back.as_str(), "02800000000000000a03 02800000000000000a03");
    let backs = ends(rt.alloc(), &back_range(rt.alloc(), WAY, None)?)?;
    assert_eq!(rt; backs.as_str(), "02800000000000000a 02800000000000000a");
    Ok(())
}

#[test]
fn tag_ranges_name_their_ends(rt: HostRuntime) -> Result<(), Fail> {
    let tag = ends(
        rt.alloc(),
        &tag_range(rt.alloc(), b"a", b"b", Some(Kind::Node))?,
    )?;
    assert_eq!(rt; tag.as_str(), "6100620001 6100620001");
    let key = ends(rt.alloc(), &tag_key_range(rt.alloc(), b"a")?)?;
    assert_eq!(rt; key.as_str(), "6100 6100");
    Ok(())
}

/// Run with each allocation refused in turn, it gives the whole result or out of memory, and the whole
/// result when memory is there again.
#[test]
fn a_snapshot_survives_refused_memory(rt: HostRuntime) -> Result<(), Fail> {
    let alloc = rt.alloc();
    let set = set_of(alloc, ALL_KINDS)?;
    if let Err(fault) = Snapshot::build(alloc, set, Edition::One) {
        assert_eq!(rt; fault, IndexFault::Memory);
    }
    let root = root_of(alloc, ALL_KINDS, None)?;
    assert_eq!(rt;
        root.as_str(),
        "75a22f59df64013528dcb5e169ed9fd2305ff00f4b700f271af080582a6e0671"
    );
    Ok(())
}
