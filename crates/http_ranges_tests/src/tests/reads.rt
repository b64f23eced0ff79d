//! Reads of a file, of what came before and of what takes a request.

use crate::tests::files::{ADDRESS, append_response, file};
use crate::tests::script::Script;
use http_ranges::{HttpFile, NotGiven};
use node_pack::{Place, ReadAt};
use std::alloc::{AllocError, Global};
use std::cell::Cell;
use std::test::Fail;

/// How many bytes the file has.
const SIZE: u32 = 70_000;

/// What two connections give: the front of the file and a range after it, and another such range.
fn given(alloc: Global, file: &[u8]) -> Result<Vec<Vec<Vec<u8>>>, AllocError> {
    let mut one = Vec::new(alloc);
    push_response(alloc, &mut one, file, 0, 65_536)?;
    push_response(alloc, &mut one, file, 65_600, 65_620)?;
    let mut other = Vec::new(alloc);
    push_response(alloc, &mut other, file, 69_990, 70_000)?;
    let mut all = Vec::new(alloc);
    all.push(one)?;
    all.push(other)?;
    Ok(all)
}

fn push_response(
    alloc: Global,
    texts: &mut Vec<Vec<u8>>,
    file: &[u8],
    first: usize,
    end: usize,
) -> Result<(), AllocError> {
    let mut text = Vec::new(alloc);
    append_response(alloc, &mut text, file, first, end)?;
    texts.push(text)?;
    Ok(())
}

/// Reads that size and these bytes.
fn read(
    alloc: Global,
    script: Script<'_>,
    is_hinted: bool,
    reason: &Cell<Option<NotGiven>>,
) -> Option<(u64, Vec<u8>)> {
    let mut file = HttpFile::new(alloc, script, ADDRESS, 1_000_000, reason);
    let Ok(size) = file.size() else {
        return None;
    };
    if is_hinted {
        file.expect(&[
            Place {
                at: 69_990,
                len: 10,
            },
            Place { at: 65_600, len: 5 },
            Place {
                at: 65_610,
                len: 10,
            },
        ]);
    }
    let mut bytes = Vec::new(alloc);
    if file.read_at(65_530, 6, &mut bytes).is_err()
        || file.read_at(65_600, 20, &mut bytes).is_err()
        || file.read_at(69_990, 10, &mut bytes).is_err()
    {
        return None;
    }
    Some((size, bytes))
}

/// What is read, where nothing fails.
fn right(alloc: Global, file: &[u8]) -> Result<Vec<u8>, AllocError> {
    let mut bytes = Vec::new(alloc);
    for (first, end) in [(65_530, 65_536), (65_600, 65_620), (69_990, 70_000)] {
        if end <= file.len() && first <= end {
            bytes.extend_from_slice(&file[first..end])?;
        }
    }
    Ok(bytes)
}

/// The first connection closes after its second answer, so that the third read goes over another one.
#[test]
fn reads(rt: HostRuntime) -> Result<(), Fail> {
    let file = file(rt.alloc(), SIZE)?;
    let given = given(rt.alloc(), &file)?;
    let reason = Cell::new(None);
    let opened = Cell::new(0);
    let right = right(rt.alloc(), &file)?;
    let script = Script::new(&given, 100_000, 1000, &opened);
    let found = read(rt.alloc(), script, false, &reason);
    assert!(rt; found.is_some());
    let (size, bytes) = found.ok_or("none")?;
    assert_eq!(rt; size, 70_000);
    assert_eq!(rt; bytes.as_slice(), right.as_slice());
    assert_eq!(rt; opened.get(), 2);
    Ok(())
}

/// What a hint brings over two connections isn't asked for again. Each piece may be of any length.
#[test]
fn brings_ahead(rt: HostRuntime) -> Result<(), Fail> {
    let file = file(rt.alloc(), SIZE)?;
    let given = given(rt.alloc(), &file)?;
    let right = right(rt.alloc(), &file)?;
    for step in [1usize, 2, 3, 50, 100, 65_536] {
        let reason = Cell::new(None);
        let opened = Cell::new(0);
        let script = Script::new(&given, step, 1_000_000, &opened);
        let (size, bytes) = read(rt.alloc(), script, true, &reason).ok_or("none")?;
        assert_eq!(rt; size, 70_000);
        assert_eq!(rt; bytes.as_slice(), right.as_slice());
        assert_eq!(rt; opened.get(), 2);
    }
    Ok(())
}

/// Each call fails in turn: there is the whole or nothing, and why.
#[test]
fn each_call_fails(rt: HostRuntime) -> Result<(), Fail> {
    let file = file(rt.alloc(), SIZE)?;
    let given = given(rt.alloc(), &file)?;
    let right = right(rt.alloc(), &file)?;
    let mut answered = 0u32;
    for calls in 0..40 {
        let reason = Cell::new(None);
        let opened = Cell::new(0);
        let script = Script::new(&given, 50_000, calls, &opened);
        match read(rt.alloc(), script, true, &reason) {
            Some((_, bytes)) => {
                assert_eq!(rt; bytes.as_slice(), right.as_slice());
                answered = answered.saturating_add(1);
            }
            None => assert!(rt;
                matches!(reason.get(), Some(NotGiven::Unreached | NotGiven::Silent))
            ),
        }
    }
    assert!(rt; answered > 20);
    Ok(())
}

/// Where memory is refused, there is the whole or nothing, and then the whole.
#[test]
fn memory_is_refused(rt: HostRuntime) -> Result<(), Fail> {
    for _ in 0..2 {
        let outcome = read_in_memory(rt.alloc());
        if let Ok(Some((size, is_right))) = outcome {
            assert_eq!(rt; size, 70_000);
            assert!(rt; is_right);
        }
    }
    Ok(())
}

/// The size, and whether the bytes are right; `None` where they aren't read.
fn read_in_memory(alloc: Global) -> Result<Option<(u64, bool)>, AllocError> {
    let file = file(alloc, SIZE)?;
    let given = given(alloc, &file)?;
    let right = right(alloc, &file)?;
    let reason = Cell::new(None);
    let opened = Cell::new(0);
    let script = Script::new(&given, 100_000, 1000, &opened);
    match read(alloc, script, true, &reason) {
        Some((size, bytes)) => Ok(Some((size, bytes.as_slice() == right.as_slice()))),
        None => Ok(None),
    }
}

/// How many places a long hint has, and how far apart they are.
const PLACES: u32 = 14;

const STRIDE: u32 = 6000;

/// What six connections give for a long hint: the front of the file on the first one, and on each the answers to its share of
/// three requests, in one text.
fn given_in_shares(alloc: Global, file: &[u8]) -> Result<Vec<Vec<Vec<u8>>>, AllocError> {
    let mut all = Vec::new(alloc);
    for wire in 0..5usize {
        let mut texts = Vec::new(alloc);
        if wire == 0 {
            push_response(alloc, &mut texts, file, 0, 65_536)?;
        }
        let mut text = Vec::new(alloc);
        for place in 3 * wire..(3 * wire + 3).min(PLACES as usize) {
            let first = 70_000 + place * STRIDE as usize;
            append_response(alloc, &mut text, file, first, first + 10)?;
        }
        texts.push(text)?;
        all.push(texts)?;
    }
    Ok(all)
}

/// The bytes at the places of a long hint, read after it.
fn read_in_shares(
    alloc: Global,
    script: Script<'_>,
    reason: &Cell<Option<NotGiven>>,
) -> Result<Option<Vec<u8>>, AllocError> {
    let mut file = HttpFile::new(alloc, script, ADDRESS, 1_000_000, reason);
    let mut places = Vec::new(alloc);
    for number in 0..PLACES {
        places.push(Place {
            at: u64::from(70_000 + number * STRIDE),
            len: 10,
        })?;
    }
    file.expect(&places);
    let mut bytes = Vec::new(alloc);
    for place in &places {
        if file.read_at(place.at, 10, &mut bytes).is_err() {
            return Ok(None);
        }
    }
    Ok(Some(bytes))
}

/// The answers to requests that were sent together are told apart, wherever their pieces are cut.
#[test]
fn pipelines(rt: HostRuntime) -> Result<(), Fail> {
    let file = file(rt.alloc(), 160_000)?;
    let given = given_in_shares(rt.alloc(), &file)?;
    let mut right = Vec::new(rt.alloc());
    for number in 0..PLACES {
        let first = (70_000 + number * STRIDE) as usize;
        if first + 10 <= file.len() {
            right.extend_from_slice(&file[first..first + 10])?;
        }
    }
    for step in [
        1usize, 2, 3, 5, 7, 11, 13, 50, 89, 99, 100, 101, 150, 65_536,
    ] {
        let reason = Cell::new(None);
        let opened = Cell::new(0);
        let script = Script::new(&given, step, 1_000_000, &opened);
        let bytes = read_in_shares(rt.alloc(), script, &reason)?.ok_or("none")?;
        assert_eq!(rt; bytes.as_slice(), right.as_slice());
        assert_eq!(rt; opened.get(), 5);
    }
    Ok(())
}
