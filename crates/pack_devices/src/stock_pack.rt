//! Packs in memory.

use node_pack::{WriteFault, write_pack};
use std::alloc::Global;
use tree_node::{Digest, Stock};

/// The pack of the nodes of a stock under a root.
///
/// # Errors
///
/// As `write_pack`.
pub fn pack_of(alloc: Global, stock: &Stock, root: &Digest) -> Result<Vec<u8>, WriteFault> {
    let mut pack = Vec::new(alloc);
    let mut shelf = stock.shelf(alloc);
    write_pack(alloc, &mut shelf, root, &mut pack)?;
    Ok(pack)
}
