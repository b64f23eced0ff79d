//! Proofs as they are written.

ghost use Rattle.std.specs.Int.{to_be_bytes, w32};
ghost use Rattle.std.specs.Prelude.{◌≡◌, ◌^◌, ◌<◌, ◌++◌, IfOk, OnOk, length};
ghost use Rattle.osm_prove.specs.Proofs.{FitsProof, listing, with_length, nodes_of};

use std::alloc::{AllocError, Global};
use tree_node::Part;

/// What a proof begins with: its name, and the number of this form of proofs.
pub(crate) const FRONT: &[u8] = b"OSMP\x01";

/// The proof that lists these nodes (this project's proofs, docs/FORMATS.md). It is one that
/// [`read_proof`](crate::read_proof) takes where the digests strictly rise, which isn't asked here. All of it
/// is allocated at once.
///
/// Refused only where memory runs out.
pub fn write_proof(alloc: Global, parts: &[Part<'_>]) -> Result<Vec<u8>, AllocError>
    // Fewer than 2^32 nodes, each of fewer than 2^32 bytes.
    requires { FitsProof (nodes_of parts.now) }
    ensures { IfOk result (λ proof. proof.items ≡ listing (nodes_of parts.now)) }
{
    let mut proof = Vec::with_capacity(alloc, proof_len(parts))?;
    proof.extend_from_slice(FRONT)?;
    proof.extend_from_slice(&(parts.len() as u32).to_be_bytes())?;
    for part in parts {
        append_node(part.bytes(), &mut proof)?;
    }
    Ok(proof)
}

/// Appends a node after its length; out of memory it leaves what it wrote.
fn append_node(node: &[u8], out: &mut Vec<u8>) -> Result<(), AllocError>
    requires { length node.now < 2 ^ 32 }
    ensures { OnOk result (out.new.items ≡ out.old.items ++ with_length node.now) }
{
    out.extend_from_slice(&(node.len() as u32).to_be_bytes())?;
    out.extend_from_slice(node)
}

/// The number of bytes of the proof that lists these nodes, or the greatest `usize` where it is more: only
/// the memory that is asked for at first hangs on it.
fn proof_len(parts: &[Part<'_>]) -> usize {
    let mut len = FRONT.len() + 4;
    for part in parts {
        len = len.saturating_add(4).saturating_add(part.bytes().len());
    }
    len
}
