//! Sets of objects that are read from OPL, published, queried and checked.

mod connections;
mod evaluations;
mod plain_answers;
mod proofs;
mod query_rows;
mod texts_of_sets;
mod verdicts;
mod work_rows;

use opl_codec::read_set;
use osm_index::{Edition, Snapshot};
use std::alloc::Global;
use std::test::Fail;

/// The snapshot of the set of this text.
fn snapshot_of(alloc: Global, set: &str, edition: Edition) -> Result<Snapshot, Fail> {
    let set = read_set(alloc, &mut set.as_bytes())?;
    Ok(Snapshot::build(alloc, set, edition)?)
}
