//! Manifests, opened on a shelf.

use osm_index::{Edition, Manifest, write_manifest};
use ql_eval::{ManifestFault, open_manifest};
use std::alloc::Global;
use std::test::Fail;
use tree_node::{Digest, Stock};

/// A stock with a manifest of the second edition and with a text that is no manifest; and their digests.
fn stocked(alloc: Global, manifest: &Manifest) -> Result<(Stock, Digest, Digest), Fail> {
    let mut stock = Stock::new(alloc);
    let mut bytes = Vec::new(alloc);
    write_manifest(manifest, &mut bytes)?;
    let root = stock.put(bytes)?;
    let other = stock.put(Vec::from_slice(alloc, b"OSMM\x03")?)?;
    Ok((stock, root, other))
}

fn manifest() -> Manifest {
    Manifest {
        edition: Edition::Two { sequence: 7 },
        tops: [
            Digest([1; 32]),
            Digest([2; 32]),
            Digest([3; 32]),
            Digest([4; 32]),
        ],
    }
}

#[test]
fn opens_what_is_held(rt: HostRuntime) -> Result<(), Fail> {
    let alloc = rt.alloc();
    let (stock, root, other) = stocked(alloc, &manifest())?;
    let mut shelf = stock.shelf(alloc);
    assert_eq!(rt; open_manifest(&root, &mut shelf), Ok(manifest()));
    assert_eq!(rt;
        open_manifest(&other, &mut shelf),
        Err(ManifestFault::Malformed)
    );
    assert_eq!(rt;
        open_manifest(&Digest([0; 32]), &mut shelf),
        Err(ManifestFault::Missing)
    );
    Ok(())
}

/// Under refused allocations: the manifest, or out of memory and then the manifest.
#[test]
fn memory_refused_opens_later(rt: HostRuntime) -> Result<(), Fail> {
    let alloc = rt.alloc();
    let (stock, root, _) = stocked(alloc, &manifest())?;
    let mut shelf = stock.shelf(alloc);
    if let Err(fault) = open_manifest(&root, &mut shelf) {
        assert_eq!(rt; fault, ManifestFault::Memory);
    }
    assert_eq!(rt; open_manifest(&root, &mut shelf)?, manifest());
    Ok(())
}
