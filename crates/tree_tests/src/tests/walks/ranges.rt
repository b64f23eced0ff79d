//! Ends of ranges, told by hand: the rows of docs/FORMATS.md.

use super::super::by_hand::range_of;
use std::process::Abort;
use std::test::Fail;
use tree_node::is_above;
use tree_walk::KeyRange;

/// How many nodes, side by side, that have these greatest keys meet the range, and how many of them it
/// covers.
fn count_told(range: &KeyRange<'_>, greatest: &[&[u8]]) -> Result<(usize, usize), Fail> {
    let mut left = None;
    let mut met = 0usize;
    let mut covered = 0usize;
    for key in greatest {
        if !range.contains(range.lo) || !is_above(left, key) {
            return Err(Fail::from("the range is empty, or nothing lies between the bounds"));
        }
        met = met.saturating_add(usize::from(range.meets(left, key)));
        covered = covered.saturating_add(usize::from(range.covers(left, key)));
        left = Some(*key);
    }
    Ok((met, covered))
}

/// The ends of a range, and whether it holds what its last key begins; how many of the leaves a walk opens, and
/// how many it covers.
type Row = (&'static [u8], &'static [u8], bool, usize, usize);

/// Over the leaves of the 65 keys from 00 to 40.
const OVER_65: [Row; 6] = [
    (b"\x3f", b"\x3f", false, 1, 0),
    (b"\x40", b"\x40", false, 1, 0),
    (b"\x41", b"\x41", false, 0, 0),
    (b"\x3f\x00", b"\x3f\x00", false, 1, 0),
    (b"\x3f", b"\x40", false, 2, 1),
    (b"", b"", true, 2, 1),
];

/// Over those of the 130 keys from 610000 to 610081.
const OVER_130: [Row; 1] = [(b"\x61\x00", b"\x61\x00", true, 3, 2)];

/// Over leaves with these greatest keys it is told what the rows say.
fn are_told(rt: &impl Abort, greatest: &[&[u8]], rows: &[Row]) -> Result<(), Fail> {
    for (lo, hi, under, met, covered) in rows {
        let told = count_told(&range_of(lo, hi, *under), greatest)?;
        assert!(rt; told == (*met, *covered), "{lo:?}");
    }
    Ok(())
}

#[test]
fn tells_which_leaves_a_walk_opens(rt: HostRuntime) -> Result<(), Fail> {
    are_told(&rt, &[b"\x3f", b"\x40"], &OVER_65)?;
    are_told(
        &rt,
        &[b"\x61\x00\x3f", b"\x61\x00\x7f", b"\x61\x00\x81"],
        &OVER_130,
    )
}

/// Ranges whose `lo` is above `hi`, each with a key and whether it is in them: all that is left is what `hi`
/// begins from `lo` on.
const BELOW_START: [(&[u8], &[u8], &[u8], bool); 4] = [
    (b"\x40", b"\x3f", b"\x40", false),
    (b"\x3f\x01", b"\x3f", b"\x3f\x01", true),
    (b"\x3f\x01", b"\x3f", b"\x3f\xff", true),
    (b"\x3f\x01", b"\x3f", b"\x3f\x00\xff", false),
];

#[test]
fn tells_what_lies_below_its_start(rt: HostRuntime) {
    for (lo, hi, key, contained) in &BELOW_START {
        assert!(rt;
            range_of(lo, hi, true).contains(key) == *contained,
            "{key:?}"
        );
    }
}
