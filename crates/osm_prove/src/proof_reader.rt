//! Proofs as they are read.

ghost use Rattle.std.specs.Int.{to_be_bytes, w32};
ghost use Rattle.std.specs.Prelude.{◌≡◌, ◌≢◌, ◌↔◌, ◌++◌, ◌^◌, ◌<◌, ℕ, Err, IfOk, IfSome, IsNone, IsTrue, List, length};
ghost use Rattle.tree_node.specs.Parts.{HaveRisingDigests};
ghost use Rattle.osm_prove.specs.Proofs.{AreRising, IsProof, Lists, front, with_length, nodes_of};

use crate::proof_fault::ProofFault;
use crate::proof_writer::FRONT;
use std::alloc::Global;
use tree_node::{Part, is_below};

/// The nodes that a proof lists, each beside its digest (this project's proofs, docs/FORMATS.md). The nodes
/// are slices of the proof; no bytes are copied. Linear in the bytes. The memory that it takes grows with the
/// nodes that are there, and not with the number that the proof states.
///
/// Refused with `Malformed` (P1) where the bytes don't have the form of a proof, else with `NotRising` (P2)
/// where the digests of its nodes don't strictly rise; `Memory` may come in place of any answer.
pub fn read_proof<'a>(alloc: Global, bytes: &'a [u8]) -> Result<Vec<Part<'a>>, ProofFault>
    // What is read are the nodes that the bytes list,
    ensures read { IfOk result (λ parts. Lists bytes.now (nodes_of parts.items)) }
    // by rising digest.
    ensures rising { IfOk result (λ parts. HaveRisingDigests parts.items) }
    // P1 comes where the bytes list no nodes at all,
    ensures malformed { result ≡ Err ProofFault.Malformed → ¬ IsProof bytes.now }
    // and P2 where they list nodes that don't rise.
    ensures not_rising { result ≡ Err ProofFault.NotRising → (nodes : List (List ℕ))
        × Lists bytes.now nodes × ¬ AreRising nodes }
{
    let parts = read_parts(alloc, bytes)?;
    if !are_rising(&parts) {
        return Err(ProofFault::NotRising);
    }
    Ok(parts)
}

/// The nodes that a proof lists, whether or not their digests rise.
fn read_parts<'a>(alloc: Global, bytes: &'a [u8]) -> Result<Vec<Part<'a>>, ProofFault>
    ensures read { IfOk result (λ parts. Lists bytes.now (nodes_of parts.items)) }
    ensures malformed { result ≡ Err ProofFault.Malformed → ¬ IsProof bytes.now }
    ensures no_other { result ≢ Err ProofFault.NotRising }
{
    let Some((count, nodes)) = read_head(bytes) else {
        return Err(ProofFault::Malformed);
    };
    let mut parts = Vec::new(alloc);
    let mut rest = nodes;
    for _ in 0..count {
        let Some((node, after)) = read_node(rest) else {
            return Err(ProofFault::Malformed);
        };
        parts.push(Part::new(node))?;
        rest = after;
    }
    if !rest.is_empty() {
        return Err(ProofFault::Malformed);
    }
    Ok(parts)
}

/// The number of nodes that a proof states, and what follows it.
fn read_head(bytes: &[u8]) -> Option<(u32, &[u8])>
    ensures few { IfSome result (λ found. found.0 < 2 ^ 32) }
    ensures some { IfSome result (λ found. bytes.now ≡ front
        ++ (to_be_bytes w32 found.0 ++ found.1.now)) }
    ensures none { IsNone result → (count : ℕ) (rest : List ℕ)
        → bytes.now ≢ front ++ (to_be_bytes w32 count ++ rest) }
{
    read_number(bytes.strip_prefix(FRONT)?)
}

/// The node after its length at the front of these bytes, and what follows it.
fn read_node(bytes: &[u8]) -> Option<(&[u8], &[u8])>
    ensures short { IfSome result (λ found. length found.0.now < 2 ^ 32) }
    ensures some { IfSome result (λ found. bytes.now ≡ with_length found.0.now ++ found.1.now) }
    ensures none { IsNone result → (node rest : List ℕ) → length node < 2 ^ 32
        → bytes.now ≢ with_length node ++ rest }
{
    let (len, rest) = read_number(bytes)?;
    rest.split_at_checked(len as usize)
}

/// The number of four bytes at the front of these, and what follows it.
fn read_number(bytes: &[u8]) -> Option<(u32, &[u8])>
    ensures some { IfSome result (λ found. bytes.now ≡ to_be_bytes w32 found.0 ++ found.1.now) }
    ensures none { IsNone result → (number : ℕ) (rest : List ℕ)
        → bytes.now ≢ to_be_bytes w32 number ++ rest }
{
    let (number, rest) = bytes.split_first_chunk()?;
    Some((u32::from_be_bytes(*number), rest))
}

/// Whether the digests strictly rise. No digest is computed again.
fn are_rising(parts: &[Part<'_>]) -> bool
    ensures { IsTrue result ↔ HaveRisingDigests parts.now }
{
    for i in 1..parts.len() {
        if !is_below(&parts[i - 1].digest().0, &parts[i].digest().0) {
            return false;
        }
    }
    true
}
