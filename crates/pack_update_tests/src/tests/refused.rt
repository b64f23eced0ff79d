//! Changes that are refused, and files that have something else.

use super::published::{Published, SET, SEVENTH, add_to, changes_of};
use node_pack::{Header, PackSource, Place, write_further};
use opl_codec::Change;
use osm_index::{Edition, Manifest, write_manifest};
use outside_shelf::{NodeSource, Refused};
use pack_update::{AddFault, Readers, add_changes};
use std::alloc::Global;
use std::test::Fail;
use tree_node::{Digest, NewNode};

/// How changes of the small set in this edition are refused, if nothing is written.
fn refusal_of(alloc: Global, changes: &str, edition: Edition) -> Result<Option<AddFault>, Fail> {
    let published = Published::new(alloc, SET, edition)?;
    let changes = changes_of(alloc, changes)?;
    let mut file = Vec::new(alloc);
    let added = published.write(alloc, changes.as_slice(), &mut file);
    Ok(if file.is_empty() { added.err() } else { None })
}

/// The changes are refused as those of a snapshot are. The expected codes are those of docs/FORMATS.md.
#[test]
fn changes_are_refused(rt: HostRuntime) -> Result<(), Fail> {
    let alloc = rt.alloc();
    let last = Edition::Two { sequence: u64::MAX };
    for (changes, edition, code) in [
        ("n99 dD\n", SEVENTH, "I2 n99"),
        ("n1 dD\nr101 dD\nw11 dD\n", SEVENTH, "I2 r101"),
        ("n5 x0 y0\nn5 dD\n", SEVENTH, "I3 n5"),
        ("w99 dD\nn1 dD\nn1 dD\n", SEVENTH, "I3 n1"),
        ("", last, "I5"),
        ("n99 dD\nn99 dD\n", last, "I5"),
        ("", Edition::One, "I5"),
    ] {
        let Some(AddFault::Apply(fault)) = refusal_of(alloc, changes, edition)? else {
            return Err(Fail::new("the changes are refused"));
        };
        let found = format!(in alloc; "{fault}")?;
        assert_eq!(rt; found.as_str(), code);
    }
    Ok(())
}

/// How no changes of what a pack has under this root are refused, if nothing is written. The third reader reads other bytes.
fn refusal(
    alloc: Global,
    pack: &[u8],
    places: &[u8],
    root: &Digest,
    manifest: Place,
) -> Option<AddFault> {
    let mut file = Vec::new(alloc);
    let files = Readers {
        plan: pack,
        rebuild: pack,
        places,
    };
    let none: &[Change] = &[];
    let added = add_changes(alloc, files, 1, root, manifest, none, &mut file);
    if file.is_empty() { added.err() } else { None }
}

/// Where the record of a top stands in the small pack.
pub(super) fn place_of_top(alloc: Global, published: &Published) -> Result<Place, Fail> {
    let mut source = PackSource::open(alloc, published.pack())?;
    source.read_node(published.snapshot.root(), 1000, &mut Vec::new(alloc))?;
    let place = source.place(&published.snapshot.manifest().tops[0]);
    Ok(place.ok_or("no place")?)
}

/// A root that is that of another node, and places that aren't the manifest's.
#[test]
fn another_node_is_told(rt: HostRuntime) -> Result<(), Fail> {
    let alloc = rt.alloc();
    let published = Published::new(alloc, SET, SEVENTH)?;
    let pack = published.pack();
    let root = published.snapshot.root();
    let top = &published.snapshot.manifest().tops[0];
    let at_top = place_of_top(alloc, &published)?;
    let manifest = published.manifest;
    // Without the places after it the manifest leads nowhere.
    let short = Place {
        at: manifest.at,
        len: 145,
    };
    let beyond = Place {
        at: pack.len() as u64,
        len: 193,
    };
    for (root, place, fault) in [
        (top, at_top, AddFault::NoManifest),
        (root, at_top, AddFault::Source(Refused::Other)),
        (top, manifest, AddFault::Source(Refused::Other)),
        (root, short, AddFault::Source(Refused::Absent)),
        (root, beyond, AddFault::Source(Refused::Device)),
    ] {
        assert!(rt;
            refusal(alloc, pack, pack, root, place) == Some(fault),
            "{fault}"
        );
    }
    Ok(())
}

/// Where the third reader reads other files, what is old has no place.
#[test]
fn a_place_is_missing(rt: HostRuntime) -> Result<(), Fail> {
    let alloc = rt.alloc();
    let published = Published::new(alloc, SET, SEVENTH)?;
    let mut zeros = Vec::new(alloc);
    zeros.resize(published.pack().len(), 0)?;
    let root = published.snapshot.root();
    let fault = refusal(
        alloc,
        published.pack(),
        zeros.as_slice(),
        root,
        published.manifest,
    );
    let found = fault.ok_or("it is refused")?;
    let text = format!(in alloc; "{found}")?;
    assert_eq!(rt; text.as_str(), "a node is missing");
    Ok(())
}

/// A manifest in whose tops the first tree stands for the second, and the second for the first.
fn swapped(alloc: Global, manifest: &Manifest) -> Result<NewNode, Fail> {
    let [objects, tags, cells, backs] = manifest.tops;
    let turned = Manifest {
        edition: manifest.edition,
        tops: [tags, objects, cells, backs],
    };
    let mut bytes = Vec::new(alloc);
    write_manifest(&turned, &mut bytes)?;
    Ok(NewNode::new(bytes))
}

/// A further file, and its header.
#[derive(Drop)]
pub(super) struct Further {
    pub(super) file: Vec<u8>,
    pub(super) header: Header,
}

/// The further file beside the small pack whose only node is that manifest.
pub(super) fn swapped_file(alloc: Global, published: &Published) -> Result<Further, Fail> {
    let nodes = vec![in alloc; swapped(alloc, published.snapshot.manifest())?]?;
    let root = nodes.first().ok_or("no node")?.digest;
    let mut known = PackSource::open(alloc, published.pack())?;
    known.read_node(published.snapshot.root(), 1000, &mut Vec::new(alloc))?;
    let mut file = Vec::new(alloc);
    let header = write_further(alloc, 1, &root, nodes.as_slice(), &known, &mut file)?;
    Ok(Further { file, header })
}

/// Under a manifest that names other trees there are none.
#[test]
fn other_trees_are_told(rt: HostRuntime) -> Result<(), Fail> {
    let alloc = rt.alloc();
    let mut published = Published::new(alloc, SET, SEVENTH)?;
    let Further {
        file: further,
        header,
    } = swapped_file(alloc, &published)?;
    published.files.push(further)?;
    let changes = changes_of(alloc, "n1 dD\n")?;
    let mut file = Vec::new(alloc);
    let added = add_to(
        alloc,
        published.files.as_slice(),
        &header.root,
        header.manifest,
        changes.as_slice(),
        &mut file,
    );
    assert!(rt; added.err() == Some(AddFault::NoTree));
    assert!(rt; file.is_empty());
    Ok(())
}
