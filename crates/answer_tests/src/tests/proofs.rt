//! Proofs over small sets, and what is no proof.

mod budgets;
mod larger_rows;
mod memory;
mod proofs;
mod refusals;
mod rows;

use crate::tests::snapshot_of;
use osm_index::Edition;
use osm_prove::{Proved, prove};
use std::alloc::Global;
use std::test::Fail;

/// The answer to a query over the set of this text in the first edition, with its proof.
fn proved_over(alloc: Global, set: &str, query: &str) -> Result<Proved, Fail> {
    let snapshot = snapshot_of(alloc, set, Edition::One)?;
    Ok(prove(alloc, &snapshot, query.as_bytes())?)
}
