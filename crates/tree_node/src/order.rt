//! The order of keys.

ghost use Rattle.std.specs.Int.{from_be_bytes, w64};
ghost use Rattle.std.specs.Option.{option_copied};
ghost use Rattle.std.specs.Prelude.{◌≡◌, ◌↔◌, ◌≤◌, IfSome, IsTrue, length};
ghost use Rattle.tree_node.specs.Order.{IsBelow, order};

use crate::digest::Digest;
use std::cmp::Ordering;

/// How many bytes at the front of two keys are compared as one number.
const FRONT: usize = 8;

/// Whether a key is above this one, where there is one: above the key before it, or above a left bound.
#[inline(always)]
pub fn is_above(low: Option<&[u8]>, key: &[u8]) -> bool
    ensures { IsTrue result ↔ IfSome (option_copied low.entry) (λ bound. IsBelow bound key.now) }
{
    match low {
        Some(low) => is_below(low, key),
        None => true,
    }
}

/// Whether the low key is below the high one: the first byte that differs decides, else the shorter is
/// below. It takes no memory and is linear in the bytes of the shorter.
///
/// The first eight bytes of each are compared as one number, since the keys of a tree mostly differ
/// after some equal bytes: std's order of slices, which ends byte by byte, took more than four times the
/// instructions at keys of nine bytes. Keys that differ there, and those of objects, are compared without
/// a call.
#[inline(always)]
pub fn is_below(low: &[u8], high: &[u8]) -> bool
    ensures { IsTrue result ↔ IsBelow low.now high.now }
{
    if low.len() >= FRONT && high.len() >= FRONT {
        return is_long_below(low, high);
    }
    is_other_below(low, high)
}

/// Whether the low key is below the high one, of keys of any length: eight bytes at once as long as both have them.
#[inline(never)]
fn is_other_below(low: &[u8], high: &[u8]) -> bool
    ensures { IsTrue result ↔ IsBelow low.now high.now }
{
    let mut low_left = low;
    let mut high_left = high;
    while low_left.len() >= FRONT && high_left.len() >= FRONT {
        let (low_front, low_rest) = low_left.split_at(FRONT);
        let (high_front, high_rest) = high_left.split_at(FRONT);
        let low_number = number(low_front);
        let high_number = number(high_front);
        if low_number != high_number {
            return low_number < high_number;
        }
        low_left = low_rest;
        high_left = high_rest;
    }
    is_rest_below(low_left, high_left)
}

/// Whether the low key is below the high one, of keys that have a front.
#[inline(always)]
fn is_long_below(low: &[u8], high: &[u8]) -> bool
    requires low { 8 ≤ length low.now }
    requires high { 8 ≤ length high.now }
    ensures { IsTrue result ↔ IsBelow low.now high.now }
{
    let (low_front, low_rest) = low.split_at(FRONT);
    let (high_front, high_rest) = high.split_at(FRONT);
    let low_number = number(low_front);
    let high_number = number(high_front);
    if low_number != high_number {
        return low_number < high_number;
    }
    is_tail_below(low_rest, high_rest)
}

/// Whether what follows the front of the low key is below what follows that of the high one. One byte of each is compared
/// without a call: that is all that is left of the keys of objects.
#[inline(always)]
fn is_tail_below(low: &[u8], high: &[u8]) -> bool
    ensures { IsTrue result ↔ IsBelow low.now high.now }
{
    match (low, high) {
        ([low], [high]) => low < high,
        _ => is_other_below(low, high),
    }
}

/// The order of two digests, which their fronts mostly decide.
pub(crate) fn order_of(left: &Digest, right: &Digest) -> Ordering
    ensures { result ≡ order left.now.0 right.now.0 }
{
    if is_long_below(&left.0, &right.0) {
        return Ordering::Less;
    }
    if is_long_below(&right.0, &left.0) {
        return Ordering::Greater;
    }
    Ordering::Equal
}

/// Whether the low bytes are below the high ones. One byte of each is compared without a call.
#[inline(always)]
fn is_rest_below(low: &[u8], high: &[u8]) -> bool
    ensures { IsTrue result ↔ IsBelow low.now high.now }
{
    match (low, high) {
        ([low], [high]) => low < high,
        _ => matches!(low.cmp(high), Ordering::Less),
    }
}

/// Eight bytes as one number, the first byte the highest.
fn number(bytes: &[u8]) -> u64
    requires { length bytes.now ≡ 8 }
    ensures { result ≡ from_be_bytes w64 bytes.now }
{
    u64::from_be_bytes([
        bytes[0], bytes[1], bytes[2], bytes[3], bytes[4], bytes[5], bytes[6], bytes[7],
    ])
}
