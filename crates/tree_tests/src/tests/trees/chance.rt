//! Lists and changes of them, made by chance.

use std::alloc::{AllocError, Global};
use tree_build::{Entry, EntryChange};
use tree_node::digest_of;

/// Keys of four bytes, in order; the marked ones alone, so that a leaf has two entries, or all.
pub(super) fn keys(alloc: Global, count: usize, marked: bool) -> Result<Vec<[u8; 4]>, AllocError> {
    let mut keys = Vec::new(alloc);
    for number in 0..u32::MAX {
        if keys.len() >= count {
            break;
        }
        let key = number.to_be_bytes();
        if !marked || digest_of(&key).0[0] < 8 {
            keys.push(key)?;
        }
    }
    Ok(keys)
}

/// A list and changes of it by chance, the same in each run: the bytes of digests decide.
#[derive(Clone, Copy)]
pub(super) struct Case {
    /// The case's own number; those of its keys come after it.
    number: u64,
    /// A key stands in the list where its byte isn't above this one.
    held: u8,
    /// A key changes where its number of two bytes isn't above this one.
    changed: u16,
    /// A change takes its key away where its byte isn't above this one.
    taken: u8,
    /// The keys in these places alone change, or all others.
    low: usize,
    high: usize,
    outside: bool,
}

/// This many 256ths of the count.
fn share_of(count: usize, share: u8) -> usize {
    count.saturating_mul(usize::from(share)) / 256
}

/// The case of this number over so many keys.
pub(super) fn case_of(number: u64, count: usize) -> Case {
    let number = number.wrapping_shl(32);
    let by = digest_of(&number.to_be_bytes()).0;
    let low = share_of(count, by[0]);
    let rest = share_of(count.saturating_sub(low), by[1]);
    Case {
        number: number.wrapping_add(1),
        held: match by[2] % 4 {
            0 => 2,
            1 => 255,
            _ => by[3],
        },
        changed: match by[4] % 5 {
            0 => 65_535,
            1 => 65,
            2 => 655,
            3 => 20,
            _ => 20_000,
        },
        taken: match by[5] % 4 {
            0 => 0,
            1 => 128,
            _ => 255,
        },
        low,
        high: low.saturating_add(rest),
        outside: by[6] < 128,
    }
}

/// A value, one of three.
fn value(byte: u8) -> &'static [u8] {
    match byte % 3 {
        0 => b"a",
        1 => b"b",
        _ => b"",
    }
}

/// What stands under a key before the changes and after them, and whether there is a change.
#[derive(Clone, Copy)]
struct Fate {
    old: Option<&'static [u8]>,
    new: Option<&'static [u8]>,
    changed: bool,
}

/// What the case does with the key in this place.
fn fate_of(case: &Case, place: usize) -> Fate {
    let by = digest_of(&case.number.wrapping_add(place as u64).to_be_bytes()).0;
    let inside = place >= case.low && place <= case.high;
    let changed = inside != case.outside && u16::from_be_bytes([by[0], by[1]]) <= case.changed;
    let old = (by[2] <= case.held).then_some(value(by[3]));
    let put = (by[4] > case.taken).then_some(value(by[5]));
    Fate {
        old,
        new: if changed { put } else { old },
        changed,
    }
}

/// The list of the case, before the changes or after them.
pub(super) fn entries_of<'a>(
    alloc: Global,
    keys: &'a [[u8; 4]],
    case: &Case,
    after: bool,
) -> Result<Vec<Entry<'a>>, AllocError> {
    let mut entries = Vec::new(alloc);
    for (place, key) in keys.iter().enumerate() {
        let fate = fate_of(case, place);
        if let Some(value) = if after { fate.new } else { fate.old } {
            entries.push(Entry { key, value })?;
        }
    }
    Ok(entries)
}

/// The change that puts this value under the key, or takes the key away.
pub(super) fn entry_change(
    alloc: Global,
    key: &[u8],
    value: Option<&[u8]>,
) -> Result<EntryChange, AllocError> {
    let mut change = EntryChange {
        key: key.to_vec(alloc)?,
        value: None,
    };
    if let Some(value) = value {
        change.value = Some(value.to_vec(alloc)?);
    }
    Ok(change)
}

/// The changes of the case.
pub(super) fn entry_changes(
    alloc: Global,
    keys: &[[u8; 4]],
    case: &Case,
) -> Result<Vec<EntryChange>, AllocError> {
    let mut changes = Vec::new(alloc);
    for (place, key) in keys.iter().enumerate() {
        let fate = fate_of(case, place);
        if fate.changed {
            changes.push(entry_change(alloc, key, fate.new)?)?;
        }
    }
    Ok(changes)
}
