//! A small pack, as it is, with each bit turned, cut, and on devices that fail.

mod ahead;
mod further;
mod writing;

use super::small_pack::{LEN, NODES, PACK, ROOT};
use bumpalo::Bump;
use node_pack::{PackFault, PackSource, Place, ReadAt, ReadFault};
use outside_shelf::{NodeSource, OutsideShelf, Refused, SourceFault};
use std::alloc::Global;
use std::fs::File;
use std::process::Abort;
use std::test::Fail;
use tree_node::{Digest, Shelf, digest_of};

/// Every node is given from the root down, and none before its parent.
#[test]
fn gives_a_pack(rt: HostRuntime) -> Result<(), Fail> {
    let arena = Bump::new(rt.alloc());
    let source = PackSource::open(rt.alloc(), PACK)?;
    assert!(rt; source.root() == ROOT);
    let mut shelf = OutsideShelf::new(rt.alloc(), &arena, source, None);
    for place in &NODES[1..] {
        assert!(rt; shelf.fetch(&place.0).is_err());
        assert_eq!(rt; shelf.refused(), Some(Refused::Absent));
    }
    for place in &NODES {
        assert!(rt; shelf.fetch(&place.0) == Ok(place.2));
    }
    Ok(())
}

/// The byte at a place turned into another.
fn changed(alloc: Global, at: usize, byte: u8) -> Result<Vec<u8>, Fail> {
    let mut pack = PACK.to_vec(alloc)?;
    if let Some(old) = pack.as_mut_slice().get_mut(at) {
        *old = byte;
    }
    Ok(pack)
}

/// What is at fault with a header is told, and of several things the first.
#[test]
fn tells_what_is_at_fault(rt: HostRuntime) -> Result<(), Fail> {
    for (at, byte, fault) in [
        (0, 0x6f, PackFault::NotAPack),
        (3, 0x4c, PackFault::NotAPack),
        (4, 1, PackFault::OtherVersion),
        (5, 2, PackFault::OtherVersion),
        (7, 1, PackFault::OtherVersion),
        (47, 0xa2, PackFault::Cut),
        (40, 0x80, PackFault::Cut),
        (47, 0xa0, PackFault::BytesAfter),
    ] {
        let pack = changed(rt.alloc(), at, byte)?;
        let opened = PackSource::open(rt.alloc(), pack.as_slice());
        assert!(rt; opened.err() == Some(fault), "{at} {byte}");
    }
    Ok(())
}

/// A pack that is cut anywhere isn't opened.
#[test]
fn opens_no_cut_pack(rt: HostRuntime) {
    for len in 0..LEN {
        let fault = match len {
            0..4 => PackFault::NotAPack,
            _ => PackFault::Cut,
        };
        let opened = PackSource::open(rt.alloc(), &PACK[..len]);
        assert!(rt; opened.err() == Some(fault), "{len}");
    }
}

/// How many of the nodes a shelf over these bytes gives. Each node that it gives has its digest.
fn count_given(rt: &(impl Abort + AllocGlobal), pack: &[u8]) -> u32 {
    let arena = Bump::new(rt.alloc());
    let Ok(source) = PackSource::open(rt.alloc(), pack) else {
        return 0;
    };
    let mut shelf = OutsideShelf::new(rt.alloc(), &arena, source, Some(10_000));
    let mut given = 0_u32;
    for place in &NODES {
        if let Ok(node) = shelf.fetch(&place.0) {
            assert!(rt; digest_of(node) == place.0);
            given = given.saturating_add(1);
        }
    }
    given
}

/// Whether the byte at a place is one of a node.
fn is_in_node(at: usize) -> bool {
    NODES
        .iter()
        .any(|place| place.1 <= at && at - place.1 < place.2.len())
}

/// With any bit turned each node that is given has its digest, and not all are given where it is one of a node.
#[test]
fn gives_no_other_node(rt: HostRuntime) -> Result<(), Fail> {
    assert_eq!(rt; count_given(&rt, PACK), 7);
    for at in 0..LEN {
        for bit in [1, 2, 4, 8, 16, 32, 64, 128] {
            let pack = changed(rt.alloc(), at, PACK[at] ^ bit)?;
            let given = count_given(&rt, pack.as_slice());
            assert!(rt; given < 7 || !is_in_node(at), "{at} {bit}");
        }
    }
    Ok(())
}

/// A place in another file is not known.
#[test]
fn knows_no_other_file(rt: HostRuntime) -> Result<(), Fail> {
    let arena = Bump::new(rt.alloc());
    // The number of the file of the first child of the manifest.
    let pack = changed(rt.alloc(), 198, 1)?;
    let source = PackSource::open(rt.alloc(), pack.as_slice())?;
    let mut shelf = OutsideShelf::new(rt.alloc(), &arena, source, None);
    assert!(rt; shelf.fetch(&ROOT).is_ok());
    assert!(rt; shelf.fetch(&NODES[2].0).is_err());
    assert_eq!(rt; shelf.refused(), Some(Refused::Absent));
    Ok(())
}

/// A record that would be longer than the file isn't read, whatever its length is said to be.
#[test]
fn reads_no_longer_record(rt: HostRuntime) -> Result<(), Fail> {
    let mut into = Vec::new(rt.alloc());
    for at in 56..60 {
        let pack = changed(rt.alloc(), at, 0xff)?;
        let mut source = PackSource::open(rt.alloc(), pack.as_slice())?;
        let read = source.read_node(&ROOT, usize::MAX, &mut into);
        assert!(rt; read.is_ok() == (at == 59), "{at}");
    }
    Ok(())
}

/// Of a node that is too long comes one byte more than is wanted, and its children aren't known then.
#[test]
fn gives_a_byte_too_many(rt: HostRuntime) -> Result<(), Fail> {
    let mut source = PackSource::open(rt.alloc(), PACK)?;
    for (at_most, len) in [(0, 1), (3, 4), (132, 133), (133, 133), (usize::MAX, 133)] {
        let mut into = Vec::new(rt.alloc());
        let absent = source.read_node(&NODES[1].0, 1000, &mut into);
        assert_eq!(rt;
            absent == Err(SourceFault::Absent),
            at_most <= 133,
            "{at_most}"
        );
        into.clear();
        source.read_node(&ROOT, at_most, &mut into)?;
        let is_front = NODES[0].2.starts_with(into.as_slice());
        assert!(rt; is_front && into.len() == len, "{at_most}");
    }
    Ok(())
}

/// Has the pack, and fails once after so many calls.
#[derive(Drop)]
struct Failing {
    before: Option<u32>,
}

impl Failing {
    /// Fails if it is the call's turn.
    fn turn(&mut self) -> Result<(), ReadFault> {
        match self.before {
            Some(0) => {
                self.before = None;
                return Err(ReadFault::Device);
            }
            Some(more) => self.before = Some(more.saturating_sub(1)),
            None => {}
        }
        Ok(())
    }
}

impl ReadAt for Failing {
    ghost reads = { λ device bytes. ⊥ };

    fn size(&mut self) -> Result<u64, ReadFault> {
        self.turn()?;
        Ok(LEN as u64)
    }

    fn read_at(&mut self, offset: u64, len: usize, into: &mut Vec<u8>) -> Result<(), ReadFault> {
        self.turn()?;
        let mut pack = PACK;
        pack.read_at(offset, len, into)
    }

    fn is_remote(&self) -> bool {
        false
    }

    fn expect(&mut self, _places: &[Place]) {}
}

/// Where the device fails it is told so, and the next time the node is given.
#[test]
fn goes_on_after_a_failed_read(rt: HostRuntime) -> Result<(), Fail> {
    for before in 0..2 {
        let failing = Failing {
            before: Some(before),
        };
        let opened = PackSource::open(rt.alloc(), failing);
        assert!(rt; opened.err() == Some(PackFault::Device), "{before}");
    }
    for failed in 0..7_u32 {
        let arena = Bump::new(rt.alloc());
        let failing = Failing {
            before: Some(failed.saturating_add(2)),
        };
        let source = PackSource::open(rt.alloc(), failing)?;
        let mut shelf = OutsideShelf::new(rt.alloc(), &arena, source, None);
        let mut turn = 0_u32;
        for place in &NODES {
            if turn == failed {
                assert!(rt; shelf.fetch(&place.0).is_err());
                assert_eq!(rt; shelf.refused(), Some(Refused::Device));
            }
            assert!(rt; shelf.fetch(&place.0) == Ok(place.2));
            turn = turn.saturating_add(1);
        }
    }
    Ok(())
}

/// Run with each allocation refused in turn.
#[test]
fn gives_a_pack_after_refused_memory(rt: HostRuntime) -> Result<(), Fail> {
    let arena = Bump::new(rt.alloc());
    let source = match PackSource::open(rt.alloc(), PACK) {
        Ok(source) => source,
        Err(fault) => {
            assert!(rt; fault == PackFault::Memory);
            PackSource::open(rt.alloc(), PACK)?
        }
    };
    let mut shelf = OutsideShelf::new(rt.alloc(), &arena, source, None);
    for place in &NODES {
        if shelf.fetch(&place.0).is_err() {
            assert_eq!(rt; shelf.refused(), Some(Refused::Memory));
        }
        assert!(rt; shelf.fetch(&place.0) == Ok(place.2));
    }
    Ok(())
}

/// Whether a source over the pack gives each node, from the root down.
fn gives_all(alloc: Global, source: &mut PackSource<&[u8]>) -> Result<bool, SourceFault> {
    let mut node = Vec::new(alloc);
    for place in &NODES {
        node.clear();
        source.read_node(&place.0, 1000, &mut node)?;
        if node.as_slice() != place.2 {
            return Ok(false);
        }
    }
    Ok(true)
}

/// Whether a source over the pack knows no node but the root.
fn knows_the_root_alone(alloc: Global, source: &mut PackSource<&[u8]>) -> bool {
    let mut node = Vec::new(alloc);
    for place in &NODES[1..] {
        if source.read_node(&place.0, 1000, &mut node) != Err(SourceFault::Absent) {
            return false;
        }
    }
    source.root() == ROOT && source.places_len() == 1
}

/// What was learned is forgotten, all but the root's place, and is learned again from the root down. Where memory is refused
/// nothing is forgotten. Run with each allocation refused in turn.
#[test]
fn forgets_what_it_learned_within_memory(rt: HostRuntime) -> Result<(), Fail> {
    let mut source = PackSource::open(rt.alloc(), PACK)?;
    assert!(rt; knows_the_root_alone(rt.alloc(), &mut source));
    assert!(rt; gives_all(rt.alloc(), &mut source)?);
    assert_eq!(rt; source.places_len(), NODES.len());
    if source.forget(rt.alloc()).is_err() {
        assert_eq!(rt; source.places_len(), NODES.len());
        source.forget(rt.alloc())?;
    }
    assert!(rt; knows_the_root_alone(rt.alloc(), &mut source));
    assert!(rt; gives_all(rt.alloc(), &mut source)?);
    assert_eq!(rt; source.places_len(), NODES.len());
    Ok(())
}

/// A file is read at any offset, and not beyond its end. The file is this program.
#[test]
fn reads_a_file(rt: HostRuntime) -> Result<(), Fail> {
    let opened = PackSource::open(rt.alloc(), File::open(&rt, "/proc/self/exe")?);
    assert!(rt; opened.err() == Some(PackFault::NotAPack));
    let mut file = File::open(&rt, "/proc/self/exe")?;
    let mut into = b"before".to_vec(rt.alloc())?;
    file.read_at(1, 3, &mut into)?;
    assert_eq!(rt; into.as_slice(), b"beforeELF".as_slice());
    let size = file.size()?;
    assert!(rt; file.read_at(size, 1, &mut into) == Err(ReadFault::Device));
    assert!(rt; file.read_at(u64::MAX, 1, &mut into) == Err(ReadFault::Device));
    Ok(())
}
