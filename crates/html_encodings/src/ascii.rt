//! ASCII bytes in front, found sixteen at a time.
ghost use Rattle.std.specs.Prelude.{◌≡◌, ◌≤◌, ◌<◌, ◌+◌, IfSome, IsAscii, IsNone, drop, length, map, slice_index, take};
ghost use Rattle.std.specs.Simd.Lanes.{mask_l};
ghost use Rattle.html_encodings.specs.Scanning.{is_not_ascii, AreAscii};

use std::simd::prelude::*;

/// A bit for each of sixteen bytes from a place on, set where the byte is not ASCII.
#[inline(always)]
fn marks(bytes: &[u8], at: usize) -> u64
    requires { at + 16 ≤ length bytes.now }
    ensures { result ≡ mask_l (map is_not_ascii (take 16 (drop at bytes.now))) }
{
    let seen = u8x16::from_slice(&bytes[at..]);
    seen.simd_ge(u8x16::splat(0x80)).to_bitmask()
}

/// How many of sixteen bytes from a place on are ASCII, before the first that is not; `None` if all are.
#[inline(always)]
fn ascii_count(bytes: &[u8], at: usize) -> Option<usize>
    requires { at + 16 ≤ length bytes.now }
    ensures all { IsNone result → AreAscii bytes.now at (at + 16) }
    ensures within { IfSome result (λ count. count ≤ 16) }
    ensures before { IfSome result (λ count. AreAscii bytes.now at (at + count)) }
{
    let marks = marks(bytes, at);
    if marks == 0 {
        return None;
    }
    Some(marks.trailing_zeros() as usize)
}

/// How many ASCII bytes stand in front, but for those after the last whole sixteen.
fn ascii_blocks_len(bytes: &[u8]) -> usize
    ensures within { result ≤ length bytes.now }
    ensures ascii { AreAscii bytes.now 0 result }
{
    let mut at = 0;
    while bytes.len() - at >= 16 {
        if let Some(count) = ascii_count(bytes, at) {
            return at + count;
        }
        at += 16;
    }
    at
}

/// How many ASCII bytes stand in front.
pub(crate) fn ascii_prefix_len(bytes: &[u8]) -> usize
    ensures within { result ≤ length bytes.now }
    ensures ascii { IsAscii (take result bytes.now) }
    ensures longest { result < length bytes.now → 128 ≤ slice_index bytes.now result }
{
    let mut at = ascii_blocks_len(bytes);
    while at < bytes.len() && bytes[at] < 128 {
        at += 1;
    }
    at
}
