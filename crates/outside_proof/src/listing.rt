//! Proofs of nodes of which nothing is known.

ghost use Rattle.std.specs.Prelude.{◌≡◌, ◌⊎◌, ◌↔◌, ◌<◌, ◌^◌, IfErr, IfOk, IsTrue, OnOk};
ghost use Rattle.osm_prove.specs.Proofs.{FitsProof, listing, nodes_of};

use crate::fault::OutsideFault;
use osm_prove::write_proof;
use std::alloc::Global;
use tree_node::Part;

/// The proof that lists these nodes. Refused with `TooLong` where they don't fit one, and else only where memory runs out.
pub(crate) fn list_parts(alloc: Global, parts: &[Part<'_>]) -> Result<Vec<u8>, OutsideFault>
    ensures listed { IfOk result (λ proof. proof.items ≡ listing (nodes_of parts.now)) }
    ensures fits { OnOk result (FitsProof (nodes_of parts.now)) }
    ensures only { FitsProof (nodes_of parts.now)
        → IfErr result (λ fault. fault ≡ OutsideFault.Memory) }
    ensures alone { IfErr result
        (λ fault. (fault ≡ OutsideFault.Memory) ⊎ (fault ≡ OutsideFault.TooLong)) }
{
    if !fit_proof(parts) {
        return Err(OutsideFault::TooLong);
    }
    Ok(write_proof(alloc, parts)?)
}

/// Whether the number of these nodes and each of their lengths fit four bytes.
fn fit_proof(parts: &[Part<'_>]) -> bool
    ensures { IsTrue result ↔ FitsProof (nodes_of parts.now) }
{
    if !fits_number(parts.len()) {
        return false;
    }
    for part in parts {
        if !fits_number(part.bytes().len()) {
            return false;
        }
    }
    true
}

/// Whether a length fits four bytes.
fn fits_number(len: usize) -> bool
    ensures { IsTrue result ↔ (len < 2 ^ 32) }
{
    len <= u32::MAX as usize
}
