//! Trees of lists made by rule, and worked ones.

ghost use Rattle.std.specs.Prelude.{◌<◌};

use super::super::digests::is_shown;
use super::super::whole_trees::{built, has_tree};
use super::rows::{BYTES, MARKED, NUMBERS, Row, VALUES, row_of};
use std::alloc::{AllocError, Global};
use std::process::Abort;
use std::test::Fail;
use tree_build::{BuildFault, Entry, Shape, build};
use tree_node::{Digest, Stock, Tree};

/// The tree of these entries has this top.
fn has_top(
    rt: &impl Abort,
    alloc: Global,
    entries: &[Entry<'_>],
    tree: Tree,
    shape: Shape,
    top: &str,
) -> Result<(), Fail> {
    let mut stock = Stock::new(alloc);
    let built = built(alloc, entries, tree, shape, &mut stock)?;
    assert!(rt; is_shown(&built, top), "{top}");
    Ok(())
}

/// The entries whose keys are these bytes, cut into keys of this many, without values.
pub(super) fn keys_alone(
    alloc: Global,
    keys: &[u8],
    len: usize,
) -> Result<Vec<Entry<'_>>, AllocError>
    requires { 0 < len }
{
    let mut entries = Vec::new(alloc);
    for key in keys.chunks(len) {
        entries.push(Entry { key, value: b"" })?;
    }
    Ok(entries)
}

/// The last bytes of the numbers from 0, this many of them, in this many bytes each, up to 8.
fn numbers(alloc: Global, count: usize, len: usize) -> Result<Vec<u8>, AllocError> {
    let mut bytes = Vec::new(alloc);
    for number in 0..count {
        let all = (number as u64).to_be_bytes();
        bytes.extend_from_slice(all.get(8usize.saturating_sub(len)..).unwrap_or(&[]))?;
    }
    Ok(bytes)
}

/// The decimal digits of the squares of the numbers from 0, this many of them.
fn squares(alloc: Global, count: usize) -> Result<Vec<String>, AllocError> {
    let mut squares = Vec::new(alloc);
    for number in 0..count {
        let square = number.wrapping_mul(number);
        squares.push(format!(in alloc; "{square}")?)?;
    }
    Ok(squares)
}

/// The entries of these keys, cut into keys of this many bytes, with these values; without a value where there are
/// fewer.
fn entries_of<'a>(
    alloc: Global,
    keys: &'a [u8],
    len: usize,
    values: &'a [String],
) -> Result<Vec<Entry<'a>>, AllocError>
    requires { 0 < len }
{
    let mut entries = keys_alone(alloc, keys, len)?;
    for (entry, value) in entries.iter_mut().zip(values) {
        entry.value = value.as_bytes();
    }
    Ok(entries)
}

/// Builds the tree of the row, from keys of this many bytes, with the digits of squares as their values or
/// without values.
fn build_row(
    rt: &impl Abort,
    alloc: Global,
    row: &Row<'_>,
    len: usize,
    valued: bool,
) -> Result<(), Fail>
    requires { 0 < len }
{
    let keys = numbers(alloc, row.entries, len)?;
    let values = squares(alloc, if valued { row.entries } else { 0 })?;
    let entries = entries_of(alloc, keys.as_slice(), len, values.as_slice())?;
    has_top(rt, alloc, entries.as_slice(), row.tree, row.shape, row.top)
}

/// Builds the trees of these rows.
fn build_rows(
    rt: &impl Abort,
    alloc: Global,
    rows: &str,
    len: usize,
    valued: bool,
) -> Result<(), Fail>
    requires { 0 < len }
{
    for line in rows.lines() {
        let Some(row) = row_of(line) else {
            return Err(Fail::from("a row was expected"));
        };
        build_row(rt, alloc, &row, len, valued)?;
    }
    Ok(())
}

#[test]
fn builds_trees_of_single_bytes(rt: HostRuntime) -> Result<(), Fail> {
    build_rows(&rt, rt.alloc(), BYTES, 1, false)
}

#[test]
fn builds_trees_of_numbers(rt: HostRuntime) -> Result<(), Fail> {
    build_rows(&rt, rt.alloc(), NUMBERS, 8, false)
}

#[test]
fn builds_trees_of_entries_with_values(rt: HostRuntime) -> Result<(), Fail> {
    build_rows(&rt, rt.alloc(), VALUES, 8, true)
}

#[test]
fn cuts_the_second_shape_at_marks(rt: HostRuntime) -> Result<(), Fail> {
    let alloc = rt.alloc();
    for (tree, keys, top) in &MARKED {
        let entries = keys_alone(alloc, keys, 1)?;
        has_top(&rt, alloc, entries.as_slice(), *tree, Shape::Two, top)?;
    }
    Ok(())
}

/// The tree of objects in the second shape. Where memory is refused it is built again.
fn built_at_last(alloc: Global, entries: &[Entry<'_>], stock: &mut Stock) -> Result<Digest, Fail> {
    if !has_tree(entries) {
        return Err(Fail::from("the entries have no tree"));
    }
    match build(alloc, entries, Tree::Objects, Shape::Two, stock) {
        Err(BuildFault::Memory) => Ok(build(alloc, entries, Tree::Objects, Shape::Two, stock)?),
        built => Ok(built?),
    }
}

/// Where memory is refused, the next call, with ample memory, gives the full result. Run with each
/// allocation refused in turn.
#[test]
fn stands_after_refused_memory(rt: HostRuntime) -> Result<(), Fail> {
    let alloc = rt.alloc();
    // The second of these keys is marked: in the second shape there are two leaves.
    let entries = keys_alone(alloc, b"\x09\x0a\x0b", 1)?;
    let mut stock = Stock::new(alloc);
    let top = built_at_last(alloc, entries.as_slice(), &mut stock)?;
    assert!(rt;
        is_shown(
            &top,
            "fc4cfbb8206c1c9fc900051898370a35d77951a3ee2009605d817b556281fd3a"
        )
    );
    Ok(())
}
