//! Files that fail, are cut or have other bytes, and writers that fail.

use super::published::{Published, SET, SEVENTH, changes_of};
use node_pack::{Place, ReadAt, ReadFault, WriteFault};
use opl_codec::Change;
use outside_shelf::Refused;
use pack_update::{AddFault, Added, Readers, add_changes};
use std::alloc::Global;
use std::test::Fail;
use test_devices::{NarrowWriter, Stop};

/// Changes of each tree.
const CHANGES: &str = "n1 dD\nw10 v2 Thighway=secondary Nn2\nr101 Ttype=site Mw10@\n";

/// A change of a way's tags alone, after which two trees are as before.
const CHANGED_TAGS: &str = "w10 v2 Thighway=secondary Nn1,n2,n1\n";

/// Bytes of which one call fails, from 1; none does where it is 0.
#[derive(Drop)]
pub(super) struct Frail<'a> {
    bytes: &'a [u8],
    fails_at: u32,
    calls: u32,
}

impl<'a> Frail<'a> {
    /// These bytes, of which this call fails.
    pub(super) fn new(bytes: &'a [u8], fails_at: u32) -> Frail<'a> {
        Frail {
            bytes,
            fails_at,
            calls: 0,
        }
    }

    /// One call more.
    fn count(&mut self) -> Result<(), ReadFault> {
        self.calls = self.calls.saturating_add(1);
        if self.calls == self.fails_at {
            return Err(ReadFault::Device);
        }
        Ok(())
    }
}

impl<'a> ReadAt for Frail<'a> {
    ghost reads = { λ device bytes. ⊥ };

    fn size(&mut self) -> Result<u64, ReadFault> {
        self.count()?;
        Ok(self.bytes.len() as u64)
    }

    fn read_at(&mut self, offset: u64, len: usize, into: &mut Vec<u8>) -> Result<(), ReadFault> {
        self.count()?;
        let mut bytes = self.bytes;
        bytes.read_at(offset, len, into)
    }

    fn is_remote(&self) -> bool {
        false
    }

    fn expect(&mut self, _places: &[Place]) {}
}

/// The small set, changes of it, and what is right once they are added.
#[derive(Drop)]
struct Both {
    before: Published,
    changes: Vec<Change>,
    after: Published,
}

/// The set before and after the changes of this text.
fn before_and_after(alloc: Global, changes: &str) -> Result<Both, Fail> {
    let mut after = Published::new(alloc, SET, SEVENTH)?;
    if !after.add(alloc, changes)? {
        return Err(Fail::new("the changes are added"));
    }
    Ok(Both {
        before: Published::new(alloc, SET, SEVENTH)?,
        changes: changes_of(alloc, changes)?,
        after,
    })
}

/// What became of the changes.
#[derive(Clone, Copy, Debug, PartialEq, Eq)]
enum Ended {
    /// The new file is right.
    Right,
    /// The root is right, and the file isn't.
    Astray,
    /// A node wasn't given.
    NotGiven(Refused),
    /// The place of an old node wasn't known.
    NoPlace,
}

/// What becomes of the changes where these readers read the pack. Where they are refused nothing is written.
fn outcome<F: ReadAt + Drop>(alloc: Global, both: &Both, files: Readers<F>) -> Result<Ended, Fail> {
    let mut file = Vec::new(alloc);
    let root = both.before.snapshot.root();
    let place = both.before.manifest;
    let changes = both.changes.as_slice();
    match add_changes(alloc, files, 1, root, place, changes, &mut file) {
        Ok(added) => told(both, &added, file.as_slice()),
        Err(fault) if file.is_empty() => refused(fault),
        Err(_) => Err(Fail::new("something is written")),
    }
}

/// What was added.
fn told(both: &Both, added: &Added, file: &[u8]) -> Result<Ended, Fail> {
    if added.header.root != *both.after.snapshot.root() {
        return Err(Fail::new("another root is told"));
    }
    Ok(match both.after.files.get(1) {
        Some(right) if right.as_slice() == file => Ended::Right,
        _ => Ended::Astray,
    })
}

/// Why nothing was.
fn refused(fault: AddFault) -> Result<Ended, Fail> {
    match fault {
        AddFault::Source(reason) => Ok(Ended::NotGiven(reason)),
        AddFault::Write(WriteFault::Missing) => Ok(Ended::NoPlace),
        _ => Err(Fail::new("another refusal is told")),
    }
}

/// How many of the calls of one reader can fail so that this is told. After them none is made.
fn count_failed(alloc: Global, both: &Both, which: [u32; 3]) -> Result<u32, Fail> {
    let [plan, rebuild, places] = which;
    let pack = both.before.pack();
    for fails_at in 1..100_u32 {
        let files = Readers {
            plan: Frail::new(pack, fails_at.saturating_mul(plan)),
            rebuild: Frail::new(pack, fails_at.saturating_mul(rebuild)),
            places: Frail::new(pack, fails_at.saturating_mul(places)),
        };
        match outcome(alloc, both, files)? {
            Ended::Right => return Ok(fails_at - 1),
            Ended::NotGiven(Refused::Device) => {}
            _ => return Err(Fail::new("the device is told")),
        }
    }
    Err(Fail::new("the calls end"))
}

/// Where a call of a file fails it is told so. Each file is asked once how long it is, and then for the manifest and the four trees,
/// which have one leaf each: for the plan, as the trees are rebuilt, and for the places.
#[test]
fn failed_reads_are_told(rt: HostRuntime) -> Result<(), Fail> {
    let both = before_and_after(rt.alloc(), CHANGES)?;
    for which in [[1, 0, 0], [0, 1, 0], [0, 0, 1]] {
        assert_eq!(rt; count_failed(rt.alloc(), &both, which)?, 6);
    }
    Ok(())
}

/// The pack without its end is refused, or what was cut off isn't needed.
#[test]
fn cut_files_are_told(rt: HostRuntime) -> Result<(), Fail> {
    let both = before_and_after(rt.alloc(), CHANGES)?;
    let pack = both.before.pack();
    let mut refused = 0_usize;
    for len in 0..pack.len() {
        let cut = &pack[..len];
        let files = Readers {
            plan: cut,
            rebuild: cut,
            places: cut,
        };
        match outcome(rt.alloc(), &both, files)? {
            Ended::Right => {}
            Ended::NotGiven(Refused::Device) => refused = refused.saturating_add(1),
            other => assert!(rt; false, "{len} {other:?}"),
        }
    }
    assert!(rt; refused > pack.len() / 2);
    Ok(())
}

/// This byte of the pack as another one.
fn with_turned(alloc: Global, pack: &[u8], at: usize) -> Result<Vec<u8>, Fail> {
    let mut turned = pack.to_vec(alloc)?;
    if let Some(byte) = turned.get_mut(at) {
        *byte = !*byte;
    }
    Ok(turned)
}

/// A byte of the pack is another one for the readers whose nodes are digested. Then a node isn't given, or all is right.
#[test]
fn turned_bytes_are_told(rt: HostRuntime) -> Result<(), Fail> {
    let both = before_and_after(rt.alloc(), CHANGES)?;
    let pack = both.before.pack();
    let mut refused = 0_usize;
    for at in 0..pack.len() {
        let turned = with_turned(rt.alloc(), pack, at)?;
        let files = Readers {
            plan: turned.as_slice(),
            rebuild: turned.as_slice(),
            places: pack,
        };
        match outcome(rt.alloc(), &both, files)? {
            Ended::Right => {}
            Ended::NotGiven(_) => refused = refused.saturating_add(1),
            other => assert!(rt; false, "{at} {other:?}"),
        }
    }
    assert!(rt; refused > pack.len() / 2);
    Ok(())
}

/// A byte of the manifest's record, or of one after it, is another one for the reader of places. The root that is told is right then
/// too, and so is the file, or an old node has no place, or another one.
#[test]
fn turned_places_leave_the_root(rt: HostRuntime) -> Result<(), Fail> {
    let both = before_and_after(rt.alloc(), CHANGED_TAGS)?;
    let pack = both.before.pack();
    let mut astray = 0_usize;
    for at in 60..260 {
        let turned = with_turned(rt.alloc(), pack, at)?;
        let files = Readers {
            plan: pack,
            rebuild: pack,
            places: turned.as_slice(),
        };
        if outcome(rt.alloc(), &both, files)? == Ended::Astray {
            astray = astray.saturating_add(1);
        }
    }
    assert!(rt; astray > 0);
    Ok(())
}

/// Where a call of the writer fails or takes nothing it is told so, and a beginning of the file is written.
#[test]
fn failed_writes_are_told(rt: HostRuntime) -> Result<(), Fail> {
    let both = before_and_after(rt.alloc(), CHANGES)?;
    let whole = both.after.files.last().ok_or("no file")?.as_slice();
    let mut failed = 0_u32;
    for stops_at in 1..150 {
        for stop in [Stop::Fails, Stop::TakesNothing] {
            let mut writer = NarrowWriter {
                taken: Vec::new(rt.alloc()),
                at_once: 7,
                stops_at,
                stop,
                calls: 0,
            };
            let written = both
                .before
                .write(rt.alloc(), both.changes.as_slice(), &mut writer);
            assert!(rt; whole.starts_with(writer.taken.as_slice()), "{stops_at}");
            if writer.calls == stops_at {
                failed = failed.saturating_add(1);
                let fault = AddFault::Write(WriteFault::NotWritten);
                assert!(rt; written.err() == Some(fault), "{stops_at}");
            } else {
                assert!(rt; written.is_ok(), "{stops_at}");
                assert_eq!(rt; writer.taken.len(), whole.len());
            }
        }
    }
    assert!(rt; failed > 100);
    Ok(())
}
