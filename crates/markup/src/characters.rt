//! Texts that are lent, compared by their characters.
ghost use Rattle.std.specs.Prelude.{◌≡◌, nat_eq, encode_utf8_all};
ghost use Rattle.std.specs.Cmp.Lexicographic.{pointwise, slice_cmp};
ghost use Rattle.std.specs.Hash as fed;
ghost use Rattle.std.specs.List.{fold};
ghost use Rattle.std.specs.Ordering.{nat_cmp};
ghost use Rattle.std.specs.Str.{chars};

use std::cmp::Ordering;
use std::hash::{Hash, Hasher};

/// Whether two texts are the same.
pub(crate) fn are_same(a: &str, b: &str) -> bool
    ensures { result ≡ pointwise nat_eq (chars a.now) (chars b.now) }
{
    a == b
}

/// Which of two texts comes first: that of the lower character where they differ first, or the one that ends first.
pub(crate) fn compared(a: &str, b: &str) -> Ordering
    ensures { result ≡ slice_cmp nat_cmp (chars a.now) (chars b.now) }
{
    a.chars().cmp(b.chars())
}

/// Feeds a text to a hash function.
pub(crate) fn feed<H: Hasher>(text: &str, state: &mut H)
    ensures { state.new ≡ fold H.write state.old (fed.str (encode_utf8_all (chars text.now))) }
{
    text.hash(state);
}
