//! Sets of objects that are read from OPL, published and changed, and the keys and values of edition 3.

mod light;
mod snapshots;
mod texts_of_sets;

use opl_codec::read_set;
use osm_index::{Edition, Snapshot};
use std::alloc::Global;
use std::test::Fail;

/// The snapshot of the set of this text.
fn snapshot_of(alloc: Global, set: &str, edition: Edition) -> Result<Snapshot, Fail> {
    let set = read_set(alloc, &mut set.as_bytes())?;
    Ok(Snapshot::build(alloc, set, edition)?)
}
