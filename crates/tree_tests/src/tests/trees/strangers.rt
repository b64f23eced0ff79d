//! Rebuilding over shelves that hold no tree.

use super::super::by_hand::{child, put_inner, put_leaf};
use super::chance::entry_change;
use std::alloc::Global;
use std::process::Abort;
use std::test::Fail;
use tree_build::{RebuildFault, rebuild};
use tree_node::{Digest, Stock, Tree, digest_of};

/// The tops of what is no tree of tags, and what refuses a change of the key `a` there.
fn strangers(alloc: Global, stock: &mut Stock) -> Result<[(Digest, RebuildFault); 5], Fail> {
    let nothing = digest_of(b"nothing");
    let junk = stock.put(b"\x05\x00\x00\x00".to_vec(alloc)?)?;
    let leaf = put_leaf(alloc, stock, Tree::Tags, b"a", 1)?;
    let over_nothing = put_inner(alloc, stock, Tree::Tags, 1, &[child(b"a", 1, nothing)])?;
    let inner = put_inner(alloc, stock, Tree::Tags, 1, &[child(b"a", 1, leaf)])?;
    let over_its_like = put_inner(alloc, stock, Tree::Tags, 1, &[child(b"a", 1, inner)])?;
    // The leaf below it has 1 entry, and it states more than a tree may have.
    let too_many = put_inner(
        alloc,
        stock,
        Tree::Tags,
        1,
        &[child(b"a", 1, leaf), child(b"b", 1 << 40, leaf)],
    )?;
    Ok([
        (nothing, RebuildFault::Missing),
        (junk, RebuildFault::NoTree),
        (over_nothing, RebuildFault::Missing),
        (over_its_like, RebuildFault::NoTree),
        (too_many, RebuildFault::NoTree),
    ])
}

/// Whether it is refused so.
fn is_refused<T: Drop>(rebuilt: Result<T, RebuildFault>, fault: RebuildFault) -> bool {
    match rebuilt {
        Ok(_) => false,
        Err(other) => other == fault,
    }
}

#[test]
fn refuses_what_is_no_tree(rt: HostRuntime) -> Result<(), Fail> {
    let alloc = rt.alloc();
    let mut stock = Stock::new(alloc);
    let tops = strangers(alloc, &mut stock)?;
    let changes = vec![in alloc; entry_change(alloc, b"a", None)?]?;
    for (top, fault) in &tops {
        let result = rebuild(alloc, &mut stock.shelf(alloc), top, &changes);
        assert!(rt; is_refused(result, *fault), "{fault:?}");
    }
    Ok(())
}

/// The change of a leaf's two keys, of which the second is below the first.
#[test]
fn refuses_changes_that_fall(rt: HostRuntime) -> Result<(), Fail> {
    let alloc = rt.alloc();
    let mut stock = Stock::new(alloc);
    let top = put_leaf(alloc, &mut stock, Tree::Tags, b"ab", 1)?;
    let changes = vec![in alloc;
        entry_change(alloc, b"b", None)?,
        entry_change(alloc, b"a", None)?,
    ]?;
    let result = rebuild(alloc, &mut stock.shelf(alloc), &top, &changes);
    assert!(rt; is_refused(result, RebuildFault::NoTree));
    Ok(())
}
