//! The small pack is written, and other nodes, on devices that fail and shelves that lack nodes.

use super::super::small_pack::{LEN, NODES, PACK, ROOT};
use bumpalo::Bump;
use node_pack::{PackSource, WriteFault, write_pack};
use osm_keys::{Edition, Manifest, write_manifest};
use outside_shelf::OutsideShelf;
use pack_devices::pack_of;
use std::alloc::Global;
use std::io;
use std::io::Write;
use std::test::Fail;
use tree_node::{Digest, Shelf, ShelfFault, Stock};

/// A stock with the nodes of the pack; none where memory is refused.
pub(super) fn small_stock(alloc: Global) -> Option<Stock> {
    let mut stock = Stock::new(alloc);
    for place in &NODES {
        stock.put(place.2.to_vec(alloc).ok()?).ok()?;
    }
    Some(stock)
}

/// The pack is written as it is.
#[test]
fn writes_a_pack(rt: HostRuntime) -> Result<(), Fail> {
    let stock = small_stock(rt.alloc()).ok_or("no memory")?;
    let mut pack = b"before".to_vec(rt.alloc())?;
    let mut shelf = stock.shelf(rt.alloc());
    let len = write_pack(rt.alloc(), &mut shelf, &ROOT, &mut pack)?;
    assert_eq!(rt; len, LEN as u64);
    assert!(rt; pack.as_slice().strip_prefix(b"before") == Some(PACK));
    Ok(())
}

/// It is written from a shelf over a pack too.
#[test]
fn copies_a_pack(rt: HostRuntime) -> Result<(), Fail> {
    let arena = Bump::new(rt.alloc());
    let source = PackSource::open(rt.alloc(), PACK)?;
    let mut shelf = OutsideShelf::new(rt.alloc(), &arena, source, None);
    let mut pack = Vec::new(rt.alloc());
    write_pack(rt.alloc(), &mut shelf, &ROOT, &mut pack)?;
    assert_eq!(rt; pack.as_slice(), PACK);
    Ok(())
}

/// Run with each allocation refused in turn: nothing is written then, and the next time all is.
#[test]
fn writes_a_pack_after_refused_memory(rt: HostRuntime) -> Result<(), Fail> {
    let stock = match small_stock(rt.alloc()) {
        Some(stock) => stock,
        None => small_stock(rt.alloc()).ok_or("no memory")?,
    };
    let mut pack = match Vec::with_capacity(rt.alloc(), LEN) {
        Ok(pack) => pack,
        Err(_) => Vec::with_capacity(rt.alloc(), LEN)?,
    };
    let mut shelf = stock.shelf(rt.alloc());
    if let Err(fault) = write_pack(rt.alloc(), &mut shelf, &ROOT, &mut pack) {
        assert!(rt; fault == WriteFault::Memory);
        assert!(rt; pack.is_empty());
        write_pack(rt.alloc(), &mut shelf, &ROOT, &mut pack)?;
    }
    assert_eq!(rt; pack.as_slice(), PACK);
    Ok(())
}

/// Takes seven bytes a call, and fails or takes nothing at one call.
#[derive(Drop)]
pub(super) struct Narrow {
    pub(super) taken: Vec<u8>,
    pub(super) calls: u32,
    pub(super) stops_at: u32,
    pub(super) fails: bool,
}

impl Write for Narrow {
    fn write(&mut self, buf: &[u8]) -> io::Result<usize> {
        self.calls = self.calls.saturating_add(1);
        if self.calls == self.stops_at {
            return match self.fails {
                true => Err(io::Error::from(io::ErrorKind::Other)),
                false => Ok(0),
            };
        }
        let len = buf.len().min(7);
        self.taken.extend_from_slice(&buf[..len])?;
        Ok(len)
    }

    fn flush(&mut self) -> io::Result<()> {
        Ok(())
    }
}

/// Where a call of the writer fails or takes nothing it is told so, and a beginning of the pack is written.
#[test]
fn tells_a_failed_write(rt: HostRuntime) -> Result<(), Fail> {
    let stock = small_stock(rt.alloc()).ok_or("no memory")?;
    let mut failed = 0_u32;
    for stops_at in 1..200 {
        for fails in [true, false] {
            let mut writer = Narrow {
                taken: Vec::new(rt.alloc()),
                calls: 0,
                stops_at,
                fails,
            };
            let mut shelf = stock.shelf(rt.alloc());
            let written = write_pack(rt.alloc(), &mut shelf, &ROOT, &mut writer);
            assert!(rt; PACK.starts_with(writer.taken.as_slice()), "{stops_at}");
            if writer.calls == stops_at {
                failed = failed.saturating_add(1);
                assert!(rt; written == Err(WriteFault::NotWritten), "{stops_at}");
            } else {
                assert!(rt; written == Ok(LEN as u64), "{stops_at}");
                assert_eq!(rt; writer.taken.len(), LEN);
            }
        }
    }
    assert!(rt; failed > 120);
    Ok(())
}

/// Where any of the nodes isn't held no pack is written.
#[test]
fn tells_a_missing_node(rt: HostRuntime) -> Result<(), Fail> {
    for place in &NODES {
        let mut stock = small_stock(rt.alloc()).ok_or("no memory")?;
        stock.remove(&place.0);
        let mut shelf = stock.shelf(rt.alloc());
        let mut pack = Vec::new(rt.alloc());
        let written = write_pack(rt.alloc(), &mut shelf, &ROOT, &mut pack);
        assert!(rt; written == Err(WriteFault::Missing), "{}", place.1);
        assert!(rt; pack.is_empty());
    }
    Ok(())
}

/// Puts a manifest of the first edition with these tops, and gives its digest.
pub(super) fn put_manifest(
    alloc: Global,
    stock: &mut Stock,
    tops: [Digest; 4],
) -> Result<Digest, Fail> {
    let manifest = Manifest {
        edition: Edition::One,
        tops,
    };
    let mut bytes = Vec::new(alloc);
    write_manifest(&manifest, &mut bytes)?;
    Ok(stock.put(bytes)?)
}

/// Puts an inner node of the tree of tags with two children, and gives its digest.
fn put_inner(
    alloc: Global,
    stock: &mut Stock,
    level: u8,
    children: [Digest; 2],
) -> Result<Digest, Fail> {
    let mut bytes = vec![in alloc; 2, level, 0, 2]?;
    let mut key = b'a';
    for child in children {
        bytes.extend_from_slice(&[0, 1, key, 0, 0, 0, 0, 0, 0, 0, 1])?;
        bytes.extend_from_slice(&child.0)?;
        key = key.saturating_add(1);
    }
    Ok(stock.put(bytes)?)
}

/// What is told of a root, of which nothing is written.
fn told(alloc: Global, stock: &Stock, root: &Digest) -> Option<WriteFault> {
    let mut pack = Vec::new(alloc);
    let mut shelf = stock.shelf(alloc);
    let fault = write_pack(alloc, &mut shelf, root, &mut pack).err();
    match pack.is_empty() {
        true => fault,
        false => None,
    }
}

/// A root that is no manifest's, a top of another tree, and a child of another level or tree are malformed.
#[test]
fn tells_a_malformed_node(rt: HostRuntime) -> Result<(), Fail> {
    let [_, tags, objects, leaf, _, cells, backs] = &NODES;
    let mut stock = small_stock(rt.alloc()).ok_or("no memory")?;
    let malformed = Some(WriteFault::Malformed);
    assert!(rt; told(rt.alloc(), &stock, &tags.0) == malformed);
    let root = put_manifest(
        rt.alloc(),
        &mut stock,
        [tags.0, objects.0, cells.0, backs.0],
    )?;
    assert!(rt; told(rt.alloc(), &stock, &root) == malformed);
    let root = put_manifest(rt.alloc(), &mut stock, [objects.0, ROOT, cells.0, backs.0])?;
    assert!(rt; told(rt.alloc(), &stock, &root) == malformed);
    for top in [
        put_inner(rt.alloc(), &mut stock, 2, [leaf.0, leaf.0])?,
        put_inner(rt.alloc(), &mut stock, 1, [leaf.0, tags.0])?,
        put_inner(rt.alloc(), &mut stock, 1, [leaf.0, objects.0])?,
    ] {
        let root = put_manifest(rt.alloc(), &mut stock, [objects.0, top, cells.0, backs.0])?;
        assert!(rt; told(rt.alloc(), &stock, &root) == malformed);
    }
    Ok(())
}

/// Nodes that several refer to are written once, and those of the upper levels first.
#[test]
fn writes_shared_nodes_once(rt: HostRuntime) -> Result<(), Fail> {
    let [_, tags, objects, leaf, other, cells, backs] = &NODES;
    let mut stock = small_stock(rt.alloc()).ok_or("no memory")?;
    let [root, top, upper, same, lower] = put_shared(rt.alloc(), &mut stock)?;
    let pack = pack_of(rt.alloc(), &stock, &root)?;
    // The header, the records of the manifest, the six nodes with two children each, and five leaves.
    assert_eq!(rt; pack.len(), 60 + 185 + 5 * 118 + 3 * 8 + 2 * 15);
    let records = [
        (root, 4),
        (top, 2),
        (upper, 2),
        (same, 2),
        (tags.0, 2),
        (lower, 2),
        (objects.0, 0),
        (leaf.0, 0),
        (other.0, 0),
        (cells.0, 0),
        (backs.0, 0),
    ];
    assert!(rt; has_records(rt.alloc(), &stock, pack.as_slice(), &records)?);
    assert!(rt; gives_nodes(rt.alloc(), &stock, pack.as_slice(), &records)?);
    Ok(())
}

/// Puts a tree of tags in which both nodes under the top refer to the same two: the digests of the manifest, the top, these
/// two, and the one that is new below them.
fn put_shared(alloc: Global, stock: &mut Stock) -> Result<[Digest; 5], Fail> {
    let [_, tags, objects, leaf, other, cells, backs] = &NODES;
    let lower = put_inner(alloc, stock, 1, [other.0, leaf.0])?;
    let upper = put_inner(alloc, stock, 2, [tags.0, lower])?;
    let same = put_inner(alloc, stock, 2, [lower, tags.0])?;
    let top = put_inner(alloc, stock, 3, [upper, same])?;
    let root = put_manifest(alloc, stock, [objects.0, top, cells.0, backs.0])?;
    Ok([root, top, upper, same, lower])
}

/// Whether a pack has the records of these nodes after its header, each with room for so many children, and nothing else.
fn has_records(
    alloc: Global,
    stock: &Stock,
    pack: &[u8],
    records: &[(Digest, usize)],
) -> Result<bool, ShelfFault> {
    let mut shelf = stock.shelf(alloc);
    let mut rest = after(pack, 60);
    for (key, children) in records {
        let node = shelf.fetch(key)?;
        if !after(rest, 4).starts_with(node) {
            return Ok(false);
        }
        let table = 12_usize.saturating_mul(*children);
        rest = after(rest, table.saturating_add(4).saturating_add(node.len()));
    }
    Ok(rest.is_empty())
}

/// Whether a shelf over the pack gives these nodes, from the root down.
fn gives_nodes(
    alloc: Global,
    stock: &Stock,
    pack: &[u8],
    records: &[(Digest, usize)],
) -> Result<bool, Fail> {
    let arena = Bump::new(alloc);
    let mut own = stock.shelf(alloc);
    let mut given = OutsideShelf::new(alloc, &arena, PackSource::open(alloc, pack)?, None);
    for (key, _) in records {
        if given.fetch(key)? != own.fetch(key)? {
            return Ok(false);
        }
    }
    Ok(true)
}

/// The bytes after so many.
fn after(bytes: &[u8], count: usize) -> &[u8] {
    match bytes.split_at_checked(count) {
        Some((_, rest)) => rest,
        None => b"",
    }
}
