//! Walks and counts over trees written by hand: the rows of docs/FORMATS.md.

use super::super::by_hand::{
    Answer, all, child, counted, put_65_keys, put_130_keys, put_inner, put_leaf, range_of, walked,
    walked_within,
};
use std::alloc::Global;
use std::process::Abort;
use std::test::Fail;
use tree_node::{Digest, Recorder, Stock, Tree, digest_of};
use tree_walk::{KeyRange, Tally, WalkFault};

/// A tree that the rows ask.
#[derive(Clone, Copy)]
enum Asked {
    /// That of the 65 keys 00 to 40.
    Of65,
    /// That of the 130 keys 610000 to 610081.
    Of130,
    /// A leaf without entries.
    Empty,
    /// The key 61 below the first child; the second isn't held.
    Half,
    /// The key 61 in a leaf below 63 inner nodes.
    Deep,
}

/// The tree that is asked; the ends of the range, and whether it holds what its last key begins; the number of
/// entries; the fetches of a walk and of a count.
type Row = (Asked, (&'static [u8], &'static [u8], bool), u64, u64, u64);

const ROWS: [Row; 10] = [
    (Asked::Of65, (b"\x3f", b"\x3f", false), 1, 2, 2),
    (Asked::Of65, (b"\x40", b"\x40", false), 1, 2, 2),
    (Asked::Of65, (b"\x41", b"\x41", false), 0, 1, 1),
    (Asked::Of65, (b"\x3f\x00", b"\x3f\x00", false), 0, 2, 2),
    // A count leaves the second leaf closed.
    (Asked::Of65, (b"\x3f", b"\x40", false), 2, 3, 2),
    (Asked::Of65, (b"", b"", true), 65, 3, 2),
    (Asked::Of130, (b"\x61\x00", b"\x61\x00", true), 130, 4, 2),
    (Asked::Empty, (b"", b"", true), 0, 1, 1),
    // The missing node isn't needed.
    (Asked::Half, (b"a", b"a", false), 1, 2, 2),
    // Only first children, which have no left bound.
    (Asked::Deep, (b"", b"", true), 1, 64, 64),
];

/// So many entries after so many fetches, in one call.
fn answer(entries: u64, fetches: u64) -> Answer {
    (Ok(entries), Tally { calls: 1, fetches })
}

/// Puts a leaf of the key 61 and a top over it, with a second child that isn't put.
fn put_half(alloc: Global, stock: &mut Stock) -> Result<Digest, Fail> {
    let leaf = put_leaf(alloc, stock, Tree::Tags, b"a", 1)?;
    let children = [child(b"a", 1, leaf), child(b"b", 1, digest_of(b"nothing"))];
    put_inner(alloc, stock, Tree::Tags, 1, &children)
}

/// Puts a leaf of the key 61 and 63 inner nodes over it.
fn put_deep(alloc: Global, stock: &mut Stock) -> Result<Digest, Fail> {
    let mut top = put_leaf(alloc, stock, Tree::Tags, b"a", 1)?;
    for level in 1..=63 {
        top = put_inner(alloc, stock, Tree::Tags, level, &[child(b"a", 1, top)])?;
    }
    Ok(top)
}

/// Puts the tree.
fn put_asked(alloc: Global, stock: &mut Stock, asked: Asked) -> Result<Digest, Fail> {
    match asked {
        Asked::Of65 => put_65_keys(alloc, stock),
        Asked::Of130 => put_130_keys(alloc, stock),
        Asked::Empty => put_leaf(alloc, stock, Tree::Tags, b"", 1),
        Asked::Half => put_half(alloc, stock),
        Asked::Deep => put_deep(alloc, stock),
    }
}

/// What a walk and a count from this top give.
fn answers(
    alloc: Global,
    mut shelf: Recorder<'_>,
    top: &Digest,
    keys: &KeyRange<'_>,
) -> Result<(Answer, Answer), Fail> {
    let walk = walked(alloc, &mut shelf, top, keys)?;
    Ok((walk, counted(alloc, &mut shelf, top, keys)?))
}

/// A walk and a count give what the row says.
fn is_asked(rt: &impl Abort, alloc: Global, row: &Row) -> Result<(), Fail> {
    let (asked, (lo, hi, under), entries, fetches, count_fetches) = row;
    let mut stock = Stock::new(alloc);
    let top = put_asked(alloc, &mut stock, *asked)?;
    let given = answers(alloc, stock.shelf(alloc), &top, &range_of(lo, hi, *under))?;
    let wanted = (answer(*entries, *fetches), answer(*entries, *count_fetches));
    assert!(rt; given == wanted, "{lo:?}");
    Ok(())
}

#[test]
fn walks_and_counts(rt: HostRuntime) -> Result<(), Fail> {
    for row in &ROWS {
        is_asked(&rt, rt.alloc(), row)?;
    }
    Ok(())
}

/// How many entries a walk over the 130 keys may give; what it gives, and how many nodes it fetches. Its three leaves have 64,
/// 64 and 2 of them.
type Room = (usize, Result<u64, WalkFault>, u64);

const ROOMS: [Room; 5] = [
    (130, Ok(130), 4),
    (129, Err(WalkFault::Memory), 4),
    (64, Err(WalkFault::Memory), 3),
    // The first leaf has more than one.
    (1, Err(WalkFault::Memory), 2),
    // No more than two leaves may wait, so none is opened.
    (0, Err(WalkFault::Memory), 1),
];

/// A walk over all of the tree that may give so many entries gives what the row says.
fn is_within(
    rt: &impl Abort,
    alloc: Global,
    stock: &Stock,
    top: &Digest,
    row: &Room,
) -> Result<(), Fail> {
    let (most, given, fetches) = row;
    let seen = walked_within(alloc, &mut stock.shelf(alloc), top, *most)?;
    let tally = Tally {
        calls: 1,
        fetches: *fetches,
    };
    assert!(rt; seen == (*given, tally), "{most}");
    Ok(())
}

#[test]
fn reads_no_more_than_it_may(rt: HostRuntime) -> Result<(), Fail> {
    let alloc = rt.alloc();
    let mut stock = Stock::new(alloc);
    let top = put_130_keys(alloc, &mut stock)?;
    for row in &ROOMS {
        is_within(&rt, alloc, &stock, &top, row)?;
    }
    Ok(())
}

/// How many entries a walk over all gives, or a count of all, or its fault; with so many fetches at most.
fn ask_all(
    rt: &impl Abort,
    alloc: Global,
    shelf: &mut Recorder<'_>,
    top: &Digest,
    counts: bool,
    most: u64,
) -> Result<Result<u64, WalkFault>, Fail> {
    let (number, tally) = if counts {
        counted(alloc, shelf, top, &all())?
    } else {
        walked(alloc, shelf, top, &all())?
    };
    assert!(rt; tally.calls == 1 && tally.fetches <= most);
    Ok(number)
}

/// Walks over all or counts all. Where memory is refused it does so again.
fn is_answered_at_last(
    rt: &impl Abort,
    alloc: Global,
    shelf: &mut Recorder<'_>,
    top: &Digest,
    counts: bool,
    most: u64,
) -> Result<(), Fail> {
    let mut number = ask_all(rt, alloc, shelf, top, counts, most)?;
    if number == Err(WalkFault::Memory) {
        number = ask_all(rt, alloc, shelf, top, counts, most)?;
    }
    assert!(rt; number == Ok(65));
    Ok(())
}

/// Where memory is refused the tally tells what was fetched until then, and the next call over the same
/// shelf gives the full result. Run with each allocation refused in turn.
#[test]
fn calls_stand_after_refused_memory(rt: HostRuntime) -> Result<(), Fail> {
    let alloc = rt.alloc();
    let mut stock = Stock::new(alloc);
    let top = put_65_keys(alloc, &mut stock)?;
    let mut shelf = stock.shelf(alloc);
    is_answered_at_last(&rt, alloc, &mut shelf, &top, true, 2)?;
    is_answered_at_last(&rt, alloc, &mut shelf, &top, false, 3)
}
