//! Records sorted through a store in memory, which may refuse each call in turn.

use external_sort::{SortFault, Sorter};
use pack_devices::KeptRuns;
use std::alloc::{AllocError, Global};
use std::process::Abort;
use std::test::Fail;

/// The key of a record, one of fifty, and its value: its number.
fn record_of(number: u32) -> ([u8; 4], [u8; 4]) {
    let key = number.wrapping_mul(2_654_435_761) / 65_536 % 50;
    (key.to_be_bytes(), number.to_be_bytes())
}

/// The bytes as one number.
fn number_of(bytes: &[u8]) -> u64 {
    let mut number: u64 = 0;
    for byte in bytes {
        number = number.wrapping_mul(256).wrapping_add(u64::from(*byte));
    }
    number
}

/// So many records after they were sorted, key and value as one number.
fn sort(alloc: Global, count: u32, memory: usize, calls: u64) -> Result<Vec<u64>, SortFault> {
    let mut sorter = Sorter::new(alloc, KeptRuns::new(alloc, calls), memory);
    for number in 0..count {
        let (key, value) = record_of(number);
        sorter.push(&key, &value)?;
    }
    let mut sorted = sorter.finish()?;
    let mut given = Vec::new(alloc);
    for _ in 0..u64::MAX {
        if !sorted.next()? {
            break;
        }
        if let Some(record) = sorted.record() {
            let key = number_of(record.key).wrapping_mul(4_294_967_296);
            given.push(key.wrapping_add(number_of(record.value)))?;
        }
    }
    Ok(given)
}

/// The same, made in memory.
fn expected(alloc: Global, count: u32) -> Result<Vec<u64>, AllocError> {
    let mut all = Vec::new(alloc);
    for number in 0..count {
        let (key, value) = record_of(number);
        let key = number_of(&key).wrapping_mul(4_294_967_296);
        all.push(key.wrapping_add(number_of(&value)))?;
    }
    all.sort_unstable();
    Ok(all)
}

/// Whether the keys rise and the records are the expected ones.
fn is_whole(mut given: Vec<u64>, expected: &[u64]) -> bool {
    let rises = given.is_sorted_by_key(|number| *number / 4_294_967_296);
    given.sort_unstable();
    rises && given.as_slice() == expected
}

/// With memory for one record, for three, for fifty and for all. A record takes 14 bytes, and its place 24.
#[test]
fn sorts_as_in_memory(rt: HostRuntime) -> Result<(), Fail> {
    let all = expected(rt.alloc(), 400)?;
    for memory in [1, 38 * 3, 38 * 50, 1_000_000] {
        let given = sort(rt.alloc(), 400, memory, 100_000)?;
        assert!(rt; is_whole(given, &all));
    }
    Ok(())
}

/// No record is given, and one is given whole.
#[test]
fn sorts_none_and_one(rt: HostRuntime) -> Result<(), Fail> {
    let mut sorted = Sorter::new(rt.alloc(), KeptRuns::new(rt.alloc(), 0), 0).finish()?;
    assert!(rt; sorted.record().is_none());
    assert!(rt; !sorted.next()?);
    let mut sorter = Sorter::new(rt.alloc(), KeptRuns::new(rt.alloc(), 0), 0);
    sorter.push(b"key", b"value")?;
    let mut sorted = sorter.finish()?;
    assert!(rt; sorted.next()?);
    match sorted.record() {
        Some(record) => assert!(rt;
            record.key == b"key".as_slice() && record.value == b"value".as_slice()
        ),
        None => assert!(rt; false),
    }
    Ok(())
}

/// Records longer than the memory and than a buffer come through, and one that is too long doesn't.
#[test]
fn sorts_long_records(rt: HostRuntime) -> Result<(), Fail> {
    let mut sorter = Sorter::new(rt.alloc(), KeptRuns::new(rt.alloc(), 1000), 1);
    let too_long = vec![in rt.alloc(); 7; 65_536]?;
    assert!(rt; sorter.push(&too_long, b"") == Err(SortFault::TooLong));
    let key = vec![in rt.alloc(); 7; 65_535]?;
    let value = vec![in rt.alloc(); 7; 200_000]?;
    sorter.push(b"b", &value)?;
    sorter.push(&key, b"")?;
    sorter.push(b"a", &value)?;
    let mut sorted = sorter.finish()?;
    for (key, value) in [(65_535, 0), (1, 200_000), (1, 200_000)] {
        assert!(rt; sorted.next()?);
        match sorted.record() {
            Some(record) => assert!(rt; record.key.len() == key && record.value.len() == value),
            None => assert!(rt; false),
        }
    }
    assert!(rt; !sorted.next()?);
    Ok(())
}

/// Whichever call the store refuses, the fault comes, and never a part of the records.
#[test]
fn tells_refused_calls(rt: HostRuntime) -> Result<(), Fail> {
    let all = expected(rt.alloc(), 20)?;
    let mut done = false;
    for calls in 0..200 {
        match sort(rt.alloc(), 20, 100, calls) {
            Ok(given) => {
                assert!(rt; is_whole(given, &all));
                done = true;
            }
            Err(fault) => assert!(rt; !done && fault == SortFault::Device),
        }
    }
    assert!(rt; done);
    Ok(())
}

/// Out of memory, in the store too, or the whole result: also where an allocation is refused (tests/system).
#[test]
fn sorts_within_memory(rt: HostRuntime) {
    let Ok(all) = expected(rt.alloc(), 20) else {
        return;
    };
    match sort(rt.alloc(), 20, 100, 1000) {
        Ok(given) => assert!(rt; is_whole(given, &all)),
        Err(fault) => assert!(rt; fault != SortFault::TooLong),
    }
}
