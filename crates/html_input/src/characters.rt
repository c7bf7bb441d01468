//! Characters of UTF-8, checked one after the other. Text in other alphabets than the Latin one has few characters of one byte in a
//! row, and is checked faster so than in blocks of bytes.
ghost use Rattle.std.specs.Prelude.{◌≡◌, ◌≤◌, ◌<◌, ◌+◌, ◌-◌, ℕ, [], ◌∷◌, IsTrue, IsUtf8, drop, length, map, slice_index, take};
ghost use Rattle.std.specs.Simd.Lanes.{mask_l};
ghost use Rattle.html_input.specs.Wide.{IsContinuation, IsSecond, is_wide};

use std::simd::prelude::*;

/// A bit for each of sixteen bytes from a place on, set where the byte is not ASCII.
#[inline(always)]
fn wide_marks(bytes: &[u8], at: usize) -> u64
    requires { at + 16 ≤ length bytes.now }
    ensures { result ≡ mask_l (map is_wide (take 16 (drop at bytes.now))) }
{
    let seen = u8x16::from_slice(&bytes[at..]);
    seen.simd_ge(u8x16::splat(0x80)).to_bitmask()
}

/// How many of sixteen bytes from a place on are ASCII, before the first that is not.
#[inline(always)]
fn ascii_count(bytes: &[u8], at: usize) -> usize
    requires { at + 16 ≤ length bytes.now }
    ensures within { result ≤ 16 }
    ensures before { (k : ℕ) → at ≤ k → k < at + result → slice_index bytes.now k < 128 }
{
    let marks = wide_marks(bytes, at);
    if marks == 0 {
        return 16;
    }
    marks.trailing_zeros() as usize
}

/// Whether a byte may be the third or the fourth of a character.
#[inline(always)]
fn is_continuation(byte: u8) -> bool
    ensures { IsTrue result → IsContinuation byte }
{
    byte >= 0x80 && byte < 0xC0
}

/// Whether a byte may follow this first byte of a character of three bytes.
#[inline(always)]
fn is_second_of_three(first: u8, second: u8) -> bool
    requires low { 224 ≤ first }
    requires high { first < 240 }
    ensures { IsTrue result → IsSecond first second }
{
    if first == 0xE0 && second < 0xA0 || first == 0xED && second >= 0xA0 {
        return false;
    }
    is_continuation(second)
}

/// Whether a byte may follow this first byte of a character of four bytes.
#[inline(always)]
fn is_second_of_four(first: u8, second: u8) -> bool
    requires low { 240 ≤ first }
    requires high { first < 245 }
    ensures { IsTrue result → IsSecond first second }
{
    if first == 0xF0 && second < 0x90 || first == 0xF4 && second >= 0x90 {
        return false;
    }
    is_continuation(second)
}

/// How many bytes the character has that four bytes begin with, of two to four; 0 where they begin with no such character.
#[inline(always)]
fn width_of(first: u8, second: u8, third: u8, fourth: u8) -> usize
    ensures within { result ≤ 4 }
    ensures text { IsUtf8 (take result (first ∷ second ∷ third ∷ fourth ∷ [])) }
{
    if first < 0xE0 {
        return if first >= 0xC2 && is_continuation(second) {
            2
        } else {
            0
        };
    }
    if !is_continuation(third) {
        return 0;
    }
    if first < 0xF0 {
        return if is_second_of_three(first, second) {
            3
        } else {
            0
        };
    }
    if first < 0xF5 && is_second_of_four(first, second) && is_continuation(fourth) {
        4
    } else {
        0
    }
}

/// The end of the characters of two to four bytes that stand one after the other from a place on, or a place before it near the end.
#[inline(always)]
fn wide_end(bytes: &[u8], from: usize) -> usize
    requires { from ≤ length bytes.now }
    ensures low { from ≤ result }
    ensures within { result ≤ length bytes.now }
    ensures text { IsUtf8 (take (result - from) (drop from bytes.now)) }
{
    let mut at = from;
    while bytes.len() - at >= 4 {
        let width = width_of(bytes[at], bytes[at + 1], bytes[at + 2], bytes[at + 3]);
        if width == 0 {
            return at;
        }
        at += width;
    }
    at
}

/// The length of a front that is text. It ends where a character is broken off or is none, or less than sixteen bytes before the end.
pub(crate) fn whole_front(bytes: &[u8]) -> usize
    ensures within { result ≤ length bytes.now }
    ensures text { IsUtf8 (take result bytes.now) }
{
    let mut at = 0;
    while bytes.len() - at >= 16 {
        let count = ascii_count(bytes, at);
        at += count;
        if count < 16 {
            let next = wide_end(bytes, at);
            if next == at {
                return at;
            }
            at = next;
        }
    }
    at
}
