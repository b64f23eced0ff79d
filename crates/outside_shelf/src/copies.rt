//! Owned copies of nodes.

ghost use Rattle.std.specs.Prelude.{◌≡◌, IfOk, map};
ghost use Rattle.tree_node.specs.Parts.{node_of};
ghost use Rattle.outside_shelf.specs.Copies.{bytes_of};

use std::alloc::{AllocError, Global};
use tree_node::{NewNode, Part};

/// Owned copies of these nodes, in their order, in memory from `alloc`. No digest is computed again.
pub(crate) fn copies(alloc: Global, parts: &[Part<'_>]) -> Result<Vec<NewNode>, AllocError>
    ensures { IfOk result (λ nodes. map bytes_of nodes.items ≡ map node_of parts.now) }
{
    let mut nodes = Vec::with_capacity(alloc, parts.len())?;
    for part in parts {
        nodes.push(copy(alloc, part)?)?;
    }
    Ok(nodes)
}

/// An owned copy of this node.
fn copy(alloc: Global, part: &Part<'_>) -> Result<NewNode, AllocError>
    ensures { IfOk result (λ node. bytes_of node ≡ node_of part.now) }
{
    let bytes = Vec::from_slice(alloc, part.bytes())?;
    Ok(NewNode {
        digest: part.digest(),
        bytes,
    })
}
