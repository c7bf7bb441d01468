//! Whether a text has a byte that is read as another, looked for in sixteen bytes at a time.
ghost use Rattle.std.specs.Prelude.{◌≡◌, ◌+◌, ◌<◌, ◌≤◌, IsTrue, ℕ, drop, false, length, map, slice_index, take};
ghost use Rattle.std.specs.Simd.Lanes.{mask_l};
ghost use Rattle.html_faithful_judge.specs.Bytes.{is_odd};

use std::simd::prelude::*;

/// Of sixteen bytes from a place on, those that are U+0000 or U+000D.
#[inline(always)]
fn marks(bytes: &[u8], at: usize) -> u64
    requires { at + 16 ≤ length bytes.now }
    ensures { result ≡ mask_l (map is_odd (take 16 (drop at bytes.now))) }
{
    let zero = u8x16::splat(0);
    let seen = u8x16::from_slice(&bytes[at..]);
    let least = seen.simd_eq(u8x16::splat(b'\r')).select(zero, seen);
    least.simd_eq(zero).to_bitmask()
}

/// Whether none of sixteen bytes from a place on is U+0000 or U+000D.
#[inline(always)]
fn is_none_ahead(bytes: &[u8], at: usize) -> bool
    requires { at + 16 ≤ length bytes.now }
    ensures { IsTrue result → (k : ℕ) → at ≤ k → k < at + 16 → is_odd (slice_index bytes.now k) ≡ false }
{
    marks(bytes, at) == 0
}

/// Whether none of fewer than sixteen bytes is.
#[inline(always)]
fn is_none_of_few(bytes: &[u8]) -> bool
    requires { length bytes.now < 16 }
    ensures { IsTrue result → (k : ℕ) → k < length bytes.now → is_odd (slice_index bytes.now k) ≡ false }
{
    let mut room = [b' '; 16];
    room[..bytes.len()].copy_from_slice(bytes);
    is_none_ahead(&room, 0)
}

/// Whether no byte is known to be U+0000 or U+000D.
pub(crate) fn is_none(bytes: &[u8]) -> bool
    ensures { IsTrue result → (k : ℕ) → k < length bytes.now → is_odd (slice_index bytes.now k) ≡ false }
{
    if bytes.len() < 16 {
        return is_none_of_few(bytes);
    }
    let last = bytes.len() - 16;
    let mut at = 0;
    while at < last {
        if !is_none_ahead(bytes, at) {
            return false;
        }
        at += 16;
    }
    is_none_ahead(bytes, last)
}
