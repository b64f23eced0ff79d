//! Entries, nodes and roots.

use crate::tests::texts_of_sets::{ALL_KINDS, DATELINE, MANY, TOWN};
use light_index::{LightSnapshot, light_entries_of, line_nodes};
use opl_codec::read_set;
use osm_index::IndexFault;
use osm_model::ObjectSet;
use std::alloc::Global;
use std::test::Fail;
use tree_node::{Digest, Shelf, Tree};

fn set_of(alloc: Global, text: &str) -> Result<ObjectSet, Fail> {
    Ok(read_set(alloc, &mut text.as_bytes())?)
}

/// The keys and values of a tree, a space between the two and an entry a line.
fn shown(alloc: Global, set: &ObjectSet, tree: Tree) -> Result<String, Fail> {
    let lines = line_nodes(alloc, set.as_slice())?;
    let list = light_entries_of(alloc, set, &lines, tree)?;
    let mut text = String::new(alloc);
    for entry in list.sorted(alloc)?.iter() {
        text.push_str(hex::encode(alloc, entry.key)?.as_str())?;
        text.push_str(" ")?;
        text.push_str(hex::encode(alloc, entry.value)?.as_str())?;
        text.push_str("\n")?;
    }
    Ok(text)
}

/// One node by hand: `sha256sum` gives the digest of its line, `n1 v0 dV c0 t i0 u T x0 y0`, which is 5919 and so on;
/// it lies in row 9000 (2328) and column 1,800,000,000 (6b49d200). The four objects: how many entries a tree has, and
/// the first.
#[test]
fn entries_are_those_of_the_model(rt: HostRuntime) -> Result<(), Fail> {
    let rows = [
        (
            "n1 x0 y0\n",
            Tree::Objects,
            1,
            "018000000000000001 5919935275bd917d739d8313210db1b89709b41961d538f9701cece88b8d464f\n",
        ),
        ("n1 x0 y0\n", Tree::Tags, 0, ""),
        (
            "n1 x0 y0\n",
            Tree::Cells,
            1,
            "23286b49d2008000000000000001 000000005919935275bd917d739d8313210db1b89709b41961d538f9701cece88b8d464f\n",
        ),
        ("n1 x0 y0\n", Tree::Backs, 0, ""),
        (ALL_KINDS, Tree::Objects, 4, "018000000000000001 621bbb2f"),
        (
            ALL_KINDS,
            Tree::Tags,
            4,
            "686967687761790063726f7373696e6700018000000000000001 621bbb2f",
        ),
        (
            ALL_KINDS,
            Tree::Cells,
            2,
            "37aa73467f808000000000000001 1f4add40621bbb2f",
        ),
        (
            ALL_KINDS,
            Tree::Backs,
            5,
            "01800000000000000102800000000000000a c3cd2223",
        ),
    ];
    for (text, tree, number, front) in rows {
        let set = set_of(rt.alloc(), text)?;
        let found = shown(rt.alloc(), &set, tree)?;
        assert_eq!(rt; found.as_str().lines().count(), number);
        assert!(rt; found.as_str().starts_with(front), "{front}");
    }
    Ok(())
}

/// The root of a set at a sequence, in hexadecimal digits.
fn root_of(alloc: Global, text: &str, sequence: u64) -> Result<String, Fail> {
    let snapshot = LightSnapshot::build(alloc, set_of(alloc, text)?, sequence)?;
    Ok(hex::encode(alloc, &snapshot.root().0)?)
}

const ALL_KINDS_ROOT: &str = "a29cfe5d36ba25bf55b2d42dc264b645f64d052a1e2942606e6ff4d3408dcd8f";

#[test]
fn roots_are_those_of_the_model(rt: HostRuntime) -> Result<(), Fail> {
    let rows = [
        (
            "",
            0,
            "118d2d331ec97de0ea69707d1c4c513699a334f0e57619fc8b5872a29b32df16",
        ),
        (
            "",
            u64::MAX,
            "9d2b5a45aeffdabab4629ed012393afc51a2a586b45c8cd134cef23594206f9c",
        ),
        (
            "n1 x0 y0\n",
            0,
            "11e24a1ae5a1911e7be798ea6e773883ab37747220a6024b86d24adf8d528389",
        ),
        (
            "n1 x0 y0\n",
            7,
            "c28d0eb2c061c25f97d23d5dddaed238c20e6056124adde89b3fb02c8de48198",
        ),
        (
            ALL_KINDS,
            0,
            "a0e71205836b42ac705c278bef74e47e6f3e6f84a82e3bdc558f9478a9f95af3",
        ),
        (ALL_KINDS, 7, ALL_KINDS_ROOT),
        (
            DATELINE,
            7,
            "dfec985b7b80b38be2085d44d7ced88279f4bac0b67ec96aea3e556fb47ece04",
        ),
        (
            TOWN,
            7,
            "55c3d0843109bcf55d64f21543e0b3d0d630d35d223c071f6d756e83b541b7bd",
        ),
        (
            MANY,
            7,
            "57cd4395afff04e2d9732a80fe9e91f93c3b3eb5c62bda81a41af22e3890d2a2",
        ),
    ];
    for (text, sequence, root) in rows {
        let found = root_of(rt.alloc(), text, sequence)?;
        assert_eq!(rt; found.as_str(), root);
    }
    Ok(())
}

/// Three hundred nodes, whose tags aren't met by rising key, and a way that lists them from the last on: trees of two
/// and three levels.
fn row_of_nodes(alloc: Global) -> Result<String, Fail> {
    let mut text = String::new(alloc);
    for id in 1..=300 {
        let line = format!(in alloc; "n{id} Tk={id} x0.{id} y0\n")?;
        text.push_str(line.as_str())?;
    }
    text.push_str("w1 Nn300")?;
    for id in (1..300).rev() {
        let node = format!(in alloc; ",n{id}")?;
        text.push_str(node.as_str())?;
    }
    text.push_str("\n")?;
    Ok(text)
}

#[test]
fn root_of_a_row_of_nodes(rt: HostRuntime) -> Result<(), Fail> {
    let text = row_of_nodes(rt.alloc())?;
    let root = root_of(rt.alloc(), text.as_str(), 7)?;
    assert_eq!(rt;
        root.as_str(),
        "3c50602be0fb81c5cacc74e5cf6c60f0bf79f1d81f18a6bd952cf4be3d54f859"
    );
    Ok(())
}

/// The nodes of the four objects at sequence 7, by the model: how long each is.
#[test]
fn nodes_are_those_of_the_model(rt: HostRuntime) -> Result<(), Fail> {
    let alloc = rt.alloc();
    let snapshot = LightSnapshot::build(alloc, set_of(alloc, ALL_KINDS)?, 7)?;
    assert_eq!(rt; snapshot.sequence(), 7);
    let rows = [
        // The manifest, and the leaves of the four trees.
        (ALL_KINDS_ROOT, 141),
        (
            "fb7e9f2eb9a171a4260188a19fc5df38e86fe03e010657efd96550886c8e1ef3",
            192,
        ),
        (
            "79a8591ea69f278975e7cf373ad5aba4862b03784e691925980852908fab145d",
            245,
        ),
        (
            "769c5d68056272196130abf8581d539d29106cfd3daaaa342ef4fca28a5a42b9",
            116,
        ),
        (
            "c0795498fdbd1e5985bbc864f70a3c6255c530aa8629bd8d22daa794a43c6fc3",
            284,
        ),
        // The lines of n1, n2, w10 and r100.
        (
            "621bbb2fb932fddd55fcd627d5689377be625b91217f82f79b332f876d4b5b46",
            71,
        ),
        (
            "709881f63d4a44f8b171e619535082f737eb64d394c9baead7f1722c1ea2e86c",
            38,
        ),
        (
            "c3cd22234e46bb27097f8ed9995c7f475e454535f53c46e03f108b24c33262b5",
            58,
        ),
        (
            "24da77f8eb0531ab2bf64f2fcbeb538f9706c4884a9c39cf5c8ec5ddac790c92",
            58,
        ),
    ];
    let mut shelf = snapshot.stock().shelf(alloc);
    for (digits, len) in rows {
        let key = Digest::from_slice(hex::decode(alloc, digits.as_bytes())?.as_slice());
        let node = shelf.fetch(&key.unwrap_or(*snapshot.root()))?;
        assert_eq!(rt; node.len(), len, "{digits}");
    }
    let objects = hex::encode(alloc, &snapshot.manifest().tops[0].0)?;
    assert_eq!(rt; objects.as_str(), rows[1].0);
    Ok(())
}

/// Run with each allocation refused in turn, it gives the whole result or out of memory, and the whole result when
/// memory is there again.
#[test]
fn a_snapshot_survives_refused_memory(rt: HostRuntime) -> Result<(), Fail> {
    let alloc = rt.alloc();
    let set = set_of(alloc, ALL_KINDS)?;
    if let Err(fault) = LightSnapshot::build(alloc, set, 7) {
        assert_eq!(rt; fault, IndexFault::Memory);
    }
    let root = root_of(alloc, ALL_KINDS, 7)?;
    assert_eq!(rt; root.as_str(), ALL_KINDS_ROOT);
    Ok(())
}

/// As above, for the lines and the entries of each tree.
#[test]
fn entries_survive_refused_memory(rt: HostRuntime) -> Result<(), Fail> {
    let alloc = rt.alloc();
    let set = set_of(alloc, ALL_KINDS)?;
    if let Ok(lines) = line_nodes(alloc, set.as_slice()) {
        assert_eq!(rt; lines.len(), 4);
    }
    let lines = line_nodes(alloc, set.as_slice())?;
    let rows = [
        (Tree::Objects, 4),
        (Tree::Tags, 4),
        (Tree::Cells, 2),
        (Tree::Backs, 5),
    ];
    for (tree, number) in rows {
        if let Ok(list) = light_entries_of(alloc, &set, &lines, tree)
            && let Ok(entries) = list.sorted(alloc)
        {
            assert_eq!(rt; entries.len(), number);
        }
        let list = light_entries_of(alloc, &set, &lines, tree)?;
        assert_eq!(rt; list.sorted(alloc)?.len(), number);
    }
    Ok(())
}
