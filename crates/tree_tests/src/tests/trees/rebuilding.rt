//! Rebuilt trees beside those that are built from nothing, of lists and changes made by chance.

use super::super::whole_trees::built;
use super::building::keys_alone;
use super::chance::{Case, case_of, entries_of, entry_change, entry_changes, keys};
use std::alloc::Global;
use std::process::Abort;
use std::test::Fail;
use tree_build::{Entry, EntryChange, RebuildFault, Rebuilt, Shape, rebuild};
use tree_node::{Digest, Recorder, Shelf, ShelfFault, Stock, Tree};

/// The level of the node with this digest, which is the second of its bytes.
fn level_of(alloc: Global, stock: &Stock, digest: &Digest) -> Result<u8, ShelfFault> {
    let node = stock.shelf(alloc).fetch(digest)?;
    Ok(node.get(1).copied().unwrap_or(0))
}

/// The top of a tree, and its level.
#[derive(Clone, Copy)]
struct Top {
    digest: Digest,
    level: u8,
}

/// The top of the tree of these entries, and the digest of that of the changed ones, which is rebuilt.
fn rebuilt(
    alloc: Global,
    entries: &[Entry<'_>],
    changes: &[EntryChange],
) -> Result<(Top, Digest), Fail> {
    let mut stock = Stock::new(alloc);
    let digest = built(alloc, entries, Tree::Cells, Shape::Two, &mut stock)?;
    let level = level_of(alloc, &stock, &digest)?;
    let rebuilt = rebuild(alloc, &mut stock.shelf(alloc), &digest, changes)?;
    Ok((Top { digest, level }, rebuilt.top))
}

/// The top of the old tree of the case, and the digest of that of the new one, which is rebuilt.
fn rebuilt_of(alloc: Global, keys: &[[u8; 4]], case: &Case) -> Result<(Top, Digest), Fail> {
    let entries = entries_of(alloc, keys, case, false)?;
    let changes = entry_changes(alloc, keys, case)?;
    rebuilt(alloc, entries.as_slice(), changes.as_slice())
}

/// The top of the new tree of the case, which is built from nothing, and whether it has no entries.
fn built_of(alloc: Global, keys: &[[u8; 4]], case: &Case) -> Result<(Top, bool), Fail> {
    let entries = entries_of(alloc, keys, case, true)?;
    let mut stock = Stock::new(alloc);
    let digest = built(
        alloc,
        entries.as_slice(),
        Tree::Cells,
        Shape::Two,
        &mut stock,
    )?;
    let level = level_of(alloc, &stock, &digest)?;
    Ok((Top { digest, level }, entries.is_empty()))
}

/// Which kinds of cases there were.
#[derive(Clone, Copy)]
struct Seen {
    grown: bool,
    lowered: bool,
    emptied: bool,
    unchanged: bool,
}

/// The tree of the case that is rebuilt is the one that is built; what is seen with this case, too.
fn agrees(
    rt: &impl Abort,
    alloc: Global,
    keys: &[[u8; 4]],
    case: &Case,
    seen: Seen,
) -> Result<Seen, Fail> {
    let (old, rebuilt) = rebuilt_of(alloc, keys, case)?;
    let (new, empty) = built_of(alloc, keys, case)?;
    assert!(rt; rebuilt == new.digest);
    Ok(Seen {
        grown: seen.grown | (new.level > old.level),
        lowered: seen.lowered | (new.level < old.level),
        emptied: seen.emptied | empty,
        unchanged: seen.unchanged | (new.digest == old.digest),
    })
}

/// Cases by chance over this many keys.
fn cases(
    rt: &impl Abort,
    alloc: Global,
    count: usize,
    marked: bool,
    rounds: u64,
) -> Result<Seen, Fail> {
    let keys = keys(alloc, count, marked)?;
    let mut seen = Seen {
        grown: false,
        lowered: false,
        emptied: false,
        unchanged: false,
    };
    for round in 0..rounds {
        seen = agrees(rt, alloc, keys.as_slice(), &case_of(round, count), seen)?;
    }
    Ok(seen)
}

#[test]
fn rebuilds_small_trees(rt: HostRuntime) -> Result<(), Fail> {
    for count in [3, 7, 20] {
        let seen = cases(&rt, rt.alloc(), count, true, 300)?;
        assert!(rt;
            seen.grown && seen.lowered && seen.emptied && seen.unchanged,
            "a kind of case is missing"
        );
    }
    Ok(())
}

#[test]
fn rebuilds_trees(rt: HostRuntime) -> Result<(), Fail> {
    for (count, marked, rounds) in [(150, true, 60), (500, false, 20), (2000, true, 4)] {
        cases(&rt, rt.alloc(), count, marked, rounds)?;
    }
    Ok(())
}

/// How many nodes were added, and how many are gone.
fn counts_of(rebuilt: &Rebuilt) -> (usize, usize) {
    (rebuilt.added.len(), rebuilt.gone.len())
}

/// Changes a tree, and tells how many nodes were added and how many are gone. Where memory is refused it tries
/// again.
fn rebuilt_at_last<'a>(
    alloc: Global,
    shelf: &mut Recorder<'a>,
    top: &Digest,
    changes: &'a [EntryChange],
) -> Result<(usize, usize), RebuildFault> {
    match rebuild(alloc, shelf, top, changes) {
        Err(RebuildFault::Memory) => Ok(counts_of(&rebuild(alloc, shelf, top, changes)?)),
        first => Ok(counts_of(&first?)),
    }
}

/// Changes a tree, and tells how many nodes were added, how many are gone and how many the shelf has given.
fn counted<'a>(
    alloc: Global,
    mut shelf: Recorder<'a>,
    top: &Digest,
    changes: &'a [EntryChange],
) -> Result<(usize, usize, usize), Fail> {
    let (added, gone) = rebuilt_at_last(alloc, &mut shelf, top, changes)?;
    Ok((added, gone, shelf.parts()?.len()))
}

/// Two leaves and a top are changed into a leaf that is there.
fn is_lowered(
    rt: &impl Abort,
    alloc: Global,
    entries: &[Entry<'_>],
    changes: &[EntryChange],
) -> Result<(), Fail> {
    let mut stock = Stock::new(alloc);
    let top = built(alloc, entries, Tree::Cells, Shape::Two, &mut stock)?;
    // None is added and two are gone. The old top, the leaf that goes, and the new top were given.
    assert!(rt; counted(alloc, stock.shelf(alloc), &top, changes)? == (0, 2, 3));
    Ok(())
}

/// Where memory is refused, the next call, with ample memory, gives the full result. Run with each
/// allocation refused in turn.
#[test]
fn rebuilds_after_refused_memory(rt: HostRuntime) -> Result<(), Fail> {
    let alloc = rt.alloc();
    // The second of these keys is marked, so there are two leaves; without the third the first is alone.
    let entries = keys_alone(alloc, b"\x09\x0a\x0b", 1)?;
    let changes = vec![in alloc; entry_change(alloc, b"\x0b", None)?]?;
    is_lowered(&rt, alloc, entries.as_slice(), changes.as_slice())
}

/// The entry of a node at 0, 0 in a tree.
fn entry_of_node(alloc: Global, tree: Tree, id: u64) -> Result<(Vec<u8>, Vec<u8>), Fail> {
    let (front, value) = match tree {
        Tree::Objects => (
            b"\x01".as_slice(),
            format!(in alloc; "n{id} v0 dV c0 t i0 u T x0 y0")?.into_bytes(),
        ),
        _ => (b"\x03\x84\x07\x08".as_slice(), [0; 8].to_vec(alloc)?),
    };
    let mut key = front.to_vec(alloc)?;
    key.extend_from_slice(&(id | 1 << 63).to_be_bytes())?;
    Ok((key, value))
}

/// Whether the tree of the entries, from which one key is taken away, is rebuilt within the bound: beside the nodes that are
/// gone, the shelf gives one for each level at most.
fn check_used(
    rt: &(impl Abort + AllocGlobal),
    tree: Tree,
    entries: &[Entry<'_>],
    changes: &[EntryChange],
) -> Result<(), Fail> {
    let alloc = rt.alloc();
    let mut stock = Stock::new(alloc);
    let top = built(alloc, entries, tree, Shape::Two, &mut stock)?;
    let levels = usize::from(level_of(alloc, &stock, &top)?).saturating_add(1);
    let (added, gone, used) = counted(alloc, stock.shelf(alloc), &top, changes)?;
    assert!(rt;
        0 < added && added <= gone.saturating_add(levels),
        "{added} {gone} {levels}"
    );
    assert!(rt;
        used <= gone.saturating_add(levels),
        "{used} {gone} {levels}"
    );
    Ok(())
}

/// The object tree and the cell tree of the nodes 1 to 4,000 at 0, 0, from which node 2,000 is taken away.
#[test]
fn rebuilding_uses_few_nodes(rt: HostRuntime) -> Result<(), Fail> {
    let alloc = rt.alloc();
    for tree in [Tree::Objects, Tree::Cells] {
        let mut rows = Vec::new(alloc);
        for id in 1..=4000 {
            rows.push(entry_of_node(alloc, tree, id)?)?;
        }
        let mut entries = Vec::new(alloc);
        for (key, value) in rows.iter() {
            entries.push(Entry { key, value })?;
        }
        let (key, _) = entry_of_node(alloc, tree, 2000)?;
        let changes = vec![in alloc; entry_change(alloc, &key, None)?]?;
        check_used(&rt, tree, entries.as_slice(), changes.as_slice())?;
    }
    Ok(())
}
