//! Responses in chunks. Run with each allocation refused in turn, too: what was refused is asked for once more.

use crate::tests::snapshot_of;
use crate::tests::texts_of_sets::ALL_KINDS;
use osm_gate::{Chunks, Gate, Unsent};
use osm_index::Edition;
use std::alloc::Global;
use std::process::Abort;
use std::test::Fail;

/// The chunks that [`made`] makes, and an end.
const CHUNKS: [&[u8]; 5] = [b"head, ", b"answer, ", b"proof, ", b"small, head", b""];

const WHOLE: &[u8] = b"head, answer, proof, small, head";

fn push(chunks: &mut Chunks, bytes: &[u8]) -> Result<(), Fail> {
    if chunks.push(bytes).is_err() {
        chunks.push(bytes)?;
    }
    Ok(())
}

fn push_owned(alloc: Global, chunks: &mut Chunks, bytes: &[u8]) -> Result<(), Fail> {
    let owned = bytes.to_vec(alloc)?;
    if chunks.push_owned(owned).is_err() {
        chunks.push_owned(bytes.to_vec(alloc)?)?;
    }
    Ok(())
}

fn push_chunk(alloc: Global, chunks: &mut Chunks, bytes: &[u8]) -> Result<(), Fail> {
    let owned = bytes.to_vec(alloc)?;
    if chunks.push_chunk(owned).is_err() {
        chunks.push_chunk(bytes.to_vec(alloc)?)?;
    }
    Ok(())
}

/// Chunks of each kind.
fn made(alloc: Global) -> Result<Chunks, Fail> {
    let mut chunks = Chunks::new(alloc);
    push(&mut chunks, b"head, ")?;
    push_chunk(alloc, &mut chunks, b"answer, ")?;
    push_chunk(alloc, &mut chunks, b"")?;
    push_chunk(alloc, &mut chunks, b"proof, ")?;
    push_owned(alloc, &mut chunks, b"small, ")?;
    push(&mut chunks, b"head")?;
    Ok(chunks)
}

#[test]
fn chunks_are_made_within_memory(rt: HostRuntime) -> Result<(), Fail> {
    let alloc = rt.alloc();
    let mut chunks = made(alloc)?;
    for chunk in CHUNKS.iter() {
        assert!(&rt; chunks.take_first().as_slice() == *chunk);
    }
    assert!(&rt; made(alloc)?.into_vec()?.as_slice() == WHOLE);
    Ok(())
}

/// What is written where so many bytes are taken at once at most.
fn written(alloc: Global, at_once: usize) -> Result<Vec<u8>, Fail> {
    let mut unsent = Unsent::new(made(alloc)?);
    let mut got = Vec::new(alloc);
    for _ in 0..WHOLE.len() {
        let bytes = unsent.bytes();
        let count = at_once.min(bytes.len());
        got.extend_from_slice(&bytes[..count])?;
        unsent.advance(count);
    }
    Ok(got)
}

#[test]
fn chunks_are_written_in_parts(rt: HostRuntime) -> Result<(), Fail> {
    let alloc = rt.alloc();
    for at_once in 1..12_usize {
        assert!(&rt; written(alloc, at_once)?.as_slice() == WHOLE);
    }
    Ok(())
}

/// A request that is answered alone and with its proof.
const SENT: &[u8] = b"\
GET /api/interpreter?data=node%281%29%3Bout%3B HTTP/1.1\r\n\r\n\
GET /api/checked?data=node%281%29%3Bout%3B HTTP/1.1\r\n\r\n\
GET /api/root HTTP/1.1\r\n\r\n";

#[test]
fn chunks_are_the_responses(rt: HostRuntime) -> Result<(), Fail> {
    let alloc = rt.alloc();
    let snapshot = snapshot_of(alloc, ALL_KINDS, Edition::One)?;
    let whole = Gate::new(alloc)?.feed(SENT, &snapshot)?;
    let chunks = Gate::new(alloc)?.feed_within(SENT, &snapshot, None)?;
    assert!(&rt; chunks.into_vec()? == whole);
    Ok(())
}
