//! Trees written by hand, and the walks over them that the tests ask for.

ghost use Rattle.std.specs.List.{All};
ghost use Rattle.std.specs.Prelude.{◌^◌, ◌<◌, ◌≤◌, IfOk, IsTrue, length};
ghost use Rattle.tree_node.specs.NodeRefs.{binding_of};
ghost use Rattle.tree_node.specs.Nodes.{FitsEntry};
ghost use Rattle.tree_node.specs.declared.limits.TheConstants.{ITEM_LIMIT};

use std::alloc::{AllocError, Global};
use std::test::Fail;
use tree_node::{Child, Digest, ITEM_LIMIT, Item, Shelf, Stock, Tree, write_inner, write_leaf};
use tree_walk::{KeyRange, Tally, WalkFault, count, range, range_within};

/// The keys from the first to the last, and where `under` holds those that the last begins.
pub(super) fn range_of<'a>(lo: &'a [u8], hi: &'a [u8], under: bool) -> KeyRange<'a> {
    KeyRange { lo, hi, under }
}

/// The whole of a tree.
pub(super) fn all<'a>() -> KeyRange<'a> {
    range_of(b"", b"", true)
}

/// How many entries a walk or a count gave, or its fault, and its tally.
pub(super) type Answer = (Result<u64, WalkFault>, Tally);

/// What a walk gave.
pub(super) fn walked<'a, S: Shelf<'a>>(
    alloc: Global,
    shelf: &mut S,
    top: &Digest,
    keys: &KeyRange<'_>,
) -> Result<Answer, Fail> {
    if !keys.contains(keys.lo) {
        return Err(Fail::from("the range is empty"));
    }
    let mut tally = Tally::default();
    match range(alloc, shelf, top, Tree::Tags, keys, &mut tally) {
        Ok(items) => Ok((Ok(items.len() as u64), tally)),
        Err(fault) => Ok((Err(fault), tally)),
    }
}

/// What a walk over all gave that may give so many entries.
pub(super) fn walked_within<'a, S: Shelf<'a>>(
    alloc: Global,
    shelf: &mut S,
    top: &Digest,
    most: usize,
) -> Result<Answer, Fail> {
    let keys = all();
    if !keys.contains(keys.lo) {
        return Err(Fail::from("the range is empty"));
    }
    let mut tally = Tally::default();
    match range_within(alloc, shelf, top, Tree::Tags, &keys, most, &mut tally) {
        Ok(items) => Ok((Ok(items.len() as u64), tally)),
        Err(fault) => Ok((Err(fault), tally)),
    }
}

/// What a count gave.
pub(super) fn counted<'a, S: Shelf<'a>>(
    alloc: Global,
    shelf: &mut S,
    top: &Digest,
    keys: &KeyRange<'_>,
) -> Result<Answer, Fail> {
    if !keys.contains(keys.lo) {
        return Err(Fail::from("the range is empty"));
    }
    let mut tally = Tally::default();
    let number = count(alloc, shelf, top, Tree::Tags, keys, &mut tally);
    Ok((number, tally))
}

/// The keys of the front and one byte more, from the first to the last, one after the other.
pub(super) fn keys(
    alloc: Global,
    front: &[u8],
    first: u8,
    last: u8,
) -> Result<Vec<u8>, AllocError> {
    let mut bytes = Vec::new(alloc);
    for byte in first..=last {
        bytes.extend_from_slice(front)?;
        bytes.push(byte)?;
    }
    Ok(bytes)
}

/// The entry of this key, of which at most 65,535 bytes are taken, with itself as its value.
fn entry_of(key: &[u8]) -> Item<'_>
    ensures { FitsEntry (binding_of result) }
{
    let key = &key[..key.len().min(65_535)];
    Item { key, value: key }
}

/// The entries of these keys, which are cut into keys of this many bytes.
fn entries_of(alloc: Global, keys: &[u8], len: usize) -> Result<Vec<Item<'_>>, AllocError>
    requires { 0 < len }
    ensures { IfOk result (λ items. All (λ item. FitsEntry (binding_of item)) items.items) }
{
    let mut items = Vec::new(alloc);
    for key in keys.chunks(len) {
        items.push(entry_of(key))?;
    }
    Ok(items)
}

/// The bytes of the leaf of these keys, cut into keys of this many bytes.
fn leaf_of(alloc: Global, tree: Tree, keys: &[u8], len: usize) -> Result<Vec<u8>, AllocError>
    requires { 0 < len }
{
    let items = entries_of(alloc, keys, len)?;
    let mut bytes = Vec::new(alloc);
    if items.len() <= ITEM_LIMIT {
        write_leaf(tree, items.as_slice(), &mut bytes)?;
    }
    Ok(bytes)
}

/// Puts that leaf.
pub(super) fn put_leaf(
    alloc: Global,
    stock: &mut Stock,
    tree: Tree,
    keys: &[u8],
    len: usize,
) -> Result<Digest, Fail>
    requires { 0 < len }
{
    Ok(stock.put(leaf_of(alloc, tree, keys, len)?)?)
}

/// Whether an inner node with these children can be written.
fn can_be_written(children: &[Child<'_>]) -> bool
    ensures few { IsTrue result → length children.now ≤ ITEM_LIMIT }
    ensures fit { IsTrue result → All (λ child. length child.greatest.now < 2 ^ 16) children.now }
{
    children.len() <= ITEM_LIMIT && children.iter().all(|child| child.greatest.len() < 65_536)
}

/// Puts the inner node of these children.
pub(super) fn put_inner(
    alloc: Global,
    stock: &mut Stock,
    tree: Tree,
    level: u8,
    children: &[Child<'_>],
) -> Result<Digest, Fail> {
    if !can_be_written(children) {
        return Err(Fail::from("the children can't be written"));
    }
    let mut bytes = Vec::new(alloc);
    write_inner(tree, level, children, &mut bytes)?;
    Ok(stock.put(bytes)?)
}

/// What a parent states of a child.
pub(super) fn child<'a>(greatest: &'a [u8], number: u64, digest: Digest) -> Child<'a> {
    Child {
        greatest,
        number,
        digest,
    }
}

/// Puts the leaf of the tree of tags whose keys are the front and one byte more, from the first to the last.
fn put_run(
    alloc: Global,
    stock: &mut Stock,
    front: &[u8],
    first: u8,
    last: u8,
) -> Result<Digest, Fail> {
    let keys = keys(alloc, front, first, last)?;
    let len = front.len().saturating_add(1);
    put_leaf(alloc, stock, Tree::Tags, keys.as_slice(), len)
}

/// Puts the tree of the 65 keys 00 to 40, whose two leaves lie below one top.
pub(super) fn put_65_keys(alloc: Global, stock: &mut Stock) -> Result<Digest, Fail> {
    let first = put_run(alloc, stock, b"", 0, 0x3f)?;
    let last = put_run(alloc, stock, b"", 0x40, 0x40)?;
    let children = [child(b"\x3f", 64, first), child(b"\x40", 1, last)];
    put_inner(alloc, stock, Tree::Tags, 1, &children)
}

/// Puts the tree of the 130 keys 610000 to 610081, whose three leaves lie below one top.
pub(super) fn put_130_keys(alloc: Global, stock: &mut Stock) -> Result<Digest, Fail> {
    let one = put_run(alloc, stock, b"\x61\x00", 0x00, 0x3f)?;
    let two = put_run(alloc, stock, b"\x61\x00", 0x40, 0x7f)?;
    let three = put_run(alloc, stock, b"\x61\x00", 0x80, 0x81)?;
    let children = [
        child(b"\x61\x00\x3f", 64, one),
        child(b"\x61\x00\x7f", 64, two),
        child(b"\x61\x00\x81", 2, three),
    ];
    put_inner(alloc, stock, Tree::Tags, 1, &children)
}
