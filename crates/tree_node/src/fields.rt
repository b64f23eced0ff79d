//! Fields at the front of bytes that are long enough, each with the bytes after it.

ghost use Rattle.std.specs.Int.{from_be_bytes, w16, w32, w64};
ghost use Rattle.std.specs.Prelude.{◌≡◌, ◌≤◌, drop, length, take};

use crate::digest::Digest;

/// A number of two bytes.
#[inline(always)]
pub(crate) fn u16_at(bytes: &[u8]) -> (u16, &[u8])
    requires { 2 ≤ length bytes.now }
    ensures number { result.0 ≡ from_be_bytes w16 (take 2 bytes.now) }
    ensures rest { result.1.now ≡ drop 2 bytes.now }
{
    let (front, rest) = bytes.split_at(2);
    (u16::from_be_bytes([front[0], front[1]]), rest)
}

/// A number of four bytes.
#[inline(always)]
pub(crate) fn u32_at(bytes: &[u8]) -> (u32, &[u8])
    requires { 4 ≤ length bytes.now }
    ensures number { result.0 ≡ from_be_bytes w32 (take 4 bytes.now) }
    ensures rest { result.1.now ≡ drop 4 bytes.now }
{
    let (front, rest) = bytes.split_at(4);
    (
        u32::from_be_bytes([front[0], front[1], front[2], front[3]]),
        rest,
    )
}

/// A number of eight bytes.
#[inline(always)]
pub(crate) fn u64_at(bytes: &[u8]) -> (u64, &[u8])
    requires { 8 ≤ length bytes.now }
    ensures number { result.0 ≡ from_be_bytes w64 (take 8 bytes.now) }
    ensures rest { result.1.now ≡ drop 8 bytes.now }
{
    let (front, rest) = bytes.split_at(8);
    let number = u64::from_be_bytes([
        front[0], front[1], front[2], front[3], front[4], front[5], front[6], front[7],
    ]);
    (number, rest)
}

/// A digest.
#[inline(always)]
pub(crate) fn digest_at(bytes: &[u8]) -> (Digest, &[u8])
    requires { 32 ≤ length bytes.now }
    ensures digest { result.0.0 ≡ take 32 bytes.now }
    ensures rest { result.1.now ≡ drop 32 bytes.now }
{
    let (front, rest) = bytes.split_at(32);
    let mut digest = [0; 32];
    digest.copy_from_slice(front);
    (Digest(digest), rest)
}
