ghost use Rattle.std.specs.Prelude.{◌≡◌, ◌<◌, ◌≤◌, ◌+◌, ◌++◌, ℕ, true, false, All, IfSome, length, map, take, drop, slice_get, slice_index};
ghost use Rattle.std.specs.Str.{IsUtf8, chars};
ghost use Rattle.std.specs.Simd.Lanes.{mask_l};
ghost use Rattle.html_queue.specs.Set.{has, is_marked};

use markup::Text;
use std::simd::prelude::*;

/// Of sixteen bytes from a place on, those that are below 14 or one of two.
#[inline(always)]
fn marks(bytes: &[u8], at: usize, first: u8, second: u8) -> u64
    requires { at + 16 ≤ length bytes.now }
    ensures { result ≡ mask_l (map (is_marked first second) (take 16 (drop at bytes.now))) }
{
    let zero = u8x16::splat(0);
    let seen = u8x16::from_slice(&bytes[at..]);
    let less = seen.simd_eq(u8x16::splat(first)).select(zero, seen);
    let least = less.simd_eq(u8x16::splat(second)).select(zero, less);
    least.simd_lt(u8x16::splat(14)).to_bitmask()
}

/// How many of sixteen bytes from a place on stand before the first that is below 14 or one of two.
#[inline(always)]
fn unmarked(bytes: &[u8], at: usize, first: u8, second: u8) -> usize
    requires { at + 16 ≤ length bytes.now }
    ensures within { result ≤ 16 }
    ensures before { (k : ℕ) → at ≤ k → k < at + result → is_marked first second (slice_index bytes.now k) ≡ false }
{
    let marked = marks(bytes, at, first, second);
    if marked == 0 {
        return 16;
    }
    marked.trailing_zeros() as usize
}

/// A set of characters below 64: bit n stands for the character n.
#[derive(Clone, Copy, Debug)]
pub struct SmallCharSet {
    pub bits: u64,
}

impl SmallCharSet {
    #[inline(always)]
    fn contains(&self, byte: u8) -> bool
        ensures { result ≡ has self.now.bits byte }
    {
        self.bits >> (byte & 63) & 1 == 1 && byte < 64
    }

    /// Two characters, of which one is each character of the set that is not below 14. `None` where those are more.
    #[inline(always)]
    fn two_above(&self) -> Option<(u8, u8)>
        ensures { IfSome result (λ two. (c : ℕ) → has self.now.bits c ≡ true → is_marked two.0 two.1 c ≡ true) }
    {
        let above = self.bits & !0x3FFF;
        let first = (above.trailing_zeros() & 63) as u8;
        let more = above & !(1 << first);
        let second = (more.trailing_zeros() & 63) as u8;
        if more & !(1 << second) != 0 {
            return None;
        }
        Some((first, second))
    }

    /// A place before which no byte is in the set, looked for in sixteen bytes at a time.
    #[inline(always)]
    fn place_ahead(&self, bytes: &[u8]) -> usize
        ensures within { result ≤ length bytes.now }
        ensures before { (k : ℕ) → k < result → has self.now.bits (slice_index bytes.now k) ≡ false }
    {
        let Some((first, second)) = self.two_above() else {
            return 0;
        };
        let mut at = 0;
        while bytes.len() - at >= 16 {
            let passed = unmarked(bytes, at, first, second);
            at += passed;
            if passed < 16 {
                if self.contains(bytes[at]) {
                    return at;
                }
                at += 1;
            }
        }
        at
    }

    /// The number of bytes before the first that is in the set.
    #[inline(always)]
    pub(crate) fn nonmember_prefix_len(&self, text: &str) -> usize
        ensures within { result ≤ length text.now }
        ensures before { (k : ℕ) → k < result → has self.now.bits (slice_index text.now k) ≡ false }
        ensures at { result < length text.now → has self.now.bits (slice_index text.now result) ≡ true }
    {
        let bytes = text.as_bytes();
        for i in self.place_ahead(bytes)..bytes.len() {
            if self.contains(bytes[i]) {
                return i;
            }
        }
        bytes.len()
    }

    /// The characters of a text before the first that is in the set, and what follows them.
    #[inline(always)]
    pub fn split<'a>(&self, text: &'a str) -> (&'a str, &'a str)
        ensures whole { text.now ≡ result.0.now ++ result.1.now }
        ensures cut { IsUtf8 result.0.now }
        ensures lacking { All (λ c. has self.now.bits c ≡ false) (chars result.0.now) }
        ensures longest { IfSome (slice_get (chars result.1.now) 0) (λ c. has self.now.bits c ≡ true) }
    {
        let width = self.nonmember_prefix_len(text);
        text.split_at(width)
    }
}

/// What [`BufferQueue::pop_except_from`](crate::BufferQueue::pop_except_from) took.
#[derive(Debug, PartialEq, Eq, Drop)]
pub enum SetResult {
    /// The first character, which is in the set.
    FromSet(char),
    /// All characters before the first that is in the set.
    NotFromSet(Text),
}
