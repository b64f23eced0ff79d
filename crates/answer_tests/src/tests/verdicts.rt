//! Verdicts on answers and proofs: right, spoiled, and made by hand.

mod budgets;
mod by_hand;
mod memory;
mod spoiled;
mod verdicts;

use osm_check::check;
use std::alloc::Global;
use std::process::Abort;
use std::test::Fail;
use tree_node::{Digest, Part};

/// The text of the verdict.
fn told(
    alloc: Global,
    query: &[u8],
    root: &Digest,
    answer: &[u8],
    proof: &[u8],
) -> Result<String, Fail> {
    let verdict = check(alloc, query, root, answer, proof)?;
    Ok(format!(in alloc; "{verdict}")?)
}

/// Whether this is the text of the verdict.
fn check_told(
    rt: &(impl Abort + AllocGlobal),
    query: &[u8],
    root: &Digest,
    answer: &[u8],
    proof: &[u8],
    wanted: &str,
) -> Result<(), Fail> {
    let verdict = told(rt.alloc(), query, root, answer, proof)?;
    assert_eq!(rt; verdict.as_str(), wanted);
    Ok(())
}

/// A proof's form around these nodes, in whatever order they are.
fn proof_of(alloc: Global, nodes: &[&[u8]]) -> Result<Vec<u8>, Fail> {
    let mut proof = b"OSMP\x01".to_vec(alloc)?;
    proof.extend_from_slice(&u32::try_from(nodes.len())?.to_be_bytes())?;
    for node in nodes {
        proof.extend_from_slice(&u32::try_from(node.len())?.to_be_bytes())?;
        proof.extend_from_slice(node)?;
    }
    Ok(proof)
}

/// The nodes of these parts.
fn nodes_of<'a>(alloc: Global, parts: &[Part<'a>]) -> Result<Vec<&'a [u8]>, Fail> {
    let mut nodes = Vec::new(alloc);
    for part in parts {
        nodes.push(part.bytes())?;
    }
    Ok(nodes)
}

/// Changes one bit of a text.
fn flip(text: &mut [u8], bit: usize) {
    if let Some(byte) = text.get_mut(bit / 8) {
        *byte ^= [1, 2, 4, 8, 16, 32, 64, 128][bit % 8];
    }
}
