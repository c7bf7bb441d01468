//! The indexes (Encoding Standard, section 5).
ghost use Rattle.std.specs.Prelude.{◌≡◌, ◌+◌, ◌-◌, ◌<◌, ◌++◌, slice_index};
ghost use Rattle.html_encodings_multibyte.specs.Indexes.{gb18030_low, gb18030_high, big5_low, big5_high, euc_kr_low, euc_kr_high};
ghost use Rattle.html_encodings_multibyte.specs.Indexes.{gb18030_index, big5_index, euc_kr_index, jis0208_index, jis0212_index};
ghost use Rattle.html_encodings_multibyte.specs.Indexes.{gb18030_ranges, item_at, in_range, ranges_item};

use crate::big5_high::BIG5_HIGH;
use crate::big5_low::BIG5_LOW;
use crate::euc_kr_high::EUC_KR_HIGH;
use crate::euc_kr_low::EUC_KR_LOW;
use crate::gb18030_high::GB18030_HIGH;
use crate::gb18030_low::GB18030_LOW;
use crate::jis0208_index::JIS0208;
use crate::jis0212_index::JIS0212;
use crate::ranges_index::RANGES;
use html_encodings::{code_point, entry_at, entry_item};

#[tactic(auto, unfolding(crate::specs::Indexes::gb18030_low))]
fn gb18030_low() -> &'static [u16]
    ensures { result.now ≡ gb18030_low }
{
    &GB18030_LOW
}

#[tactic(auto, unfolding(crate::specs::Indexes::gb18030_high))]
fn gb18030_high() -> &'static [u16]
    ensures { result.now ≡ gb18030_high }
{
    &GB18030_HIGH
}

#[tactic(auto, unfolding(crate::specs::Indexes::big5_low))]
fn big5_low() -> &'static [u32]
    ensures { result.now ≡ big5_low }
{
    &BIG5_LOW
}

#[tactic(auto, unfolding(crate::specs::Indexes::big5_high))]
fn big5_high() -> &'static [u32]
    ensures { result.now ≡ big5_high }
{
    &BIG5_HIGH
}

#[tactic(auto, unfolding(crate::specs::Indexes::euc_kr_low))]
fn euc_kr_low() -> &'static [u16]
    ensures { result.now ≡ euc_kr_low }
{
    &EUC_KR_LOW
}

#[tactic(auto, unfolding(crate::specs::Indexes::euc_kr_high))]
fn euc_kr_high() -> &'static [u16]
    ensures { result.now ≡ euc_kr_high }
{
    &EUC_KR_HIGH
}

#[tactic(auto, unfolding(crate::specs::Indexes::jis0208_index))]
fn jis0208_index() -> &'static [u16]
    ensures { result.now ≡ jis0208_index }
{
    &JIS0208
}

#[tactic(auto, unfolding(crate::specs::Indexes::jis0212_index))]
fn jis0212_index() -> &'static [u16]
    ensures { result.now ≡ jis0212_index }
{
    &JIS0212
}

#[tactic(auto, unfolding(crate::specs::Indexes::gb18030_ranges))]
fn gb18030_ranges() -> &'static [(u32, u32)]
    ensures { result.now ≡ gb18030_ranges }
{
    &RANGES
}

/// The entry at a place of an index that lies in two parts, or 0 where it has none.
fn entry_of(low: &[u16], high: &[u16], at: usize) -> u16
    ensures { result ≡ slice_index (low.now ++ high.now) at }
{
    if at < low.len() {
        low[at]
    } else {
        entry_at(high, at - low.len())
    }
}

/// The same of an index of code points beyond 16 bits.
fn code_of(low: &[u32], high: &[u32], at: usize) -> u32
    ensures { result ≡ slice_index (low.now ++ high.now) at }
{
    if at < low.len() {
        return low[at];
    }
    let rest = at - low.len();
    if rest < high.len() { high[rest] } else { 0 }
}

/// The character at a pointer of gb18030.
#[tactic(auto, unfolding(crate::specs::Indexes::gb18030_index))]
pub(crate) fn gb18030_item(pointer: u32) -> Option<char>
    ensures { result ≡ item_at gb18030_index pointer }
{
    entry_item(entry_of(gb18030_low(), gb18030_high(), pointer as usize))
}

/// The character at a pointer of Big5.
#[tactic(auto, unfolding(crate::specs::Indexes::big5_index))]
pub(crate) fn big5_item(pointer: u32) -> Option<char>
    ensures { result ≡ item_at big5_index pointer }
{
    let code = code_of(big5_low(), big5_high(), pointer as usize);
    if code == 0 {
        return None;
    }
    code_point(code)
}

/// The character at a pointer of EUC-KR.
#[tactic(auto, unfolding(crate::specs::Indexes::euc_kr_index))]
pub(crate) fn euc_kr_item(pointer: u32) -> Option<char>
    ensures { result ≡ item_at euc_kr_index pointer }
{
    entry_item(entry_of(euc_kr_low(), euc_kr_high(), pointer as usize))
}

/// The character at a pointer of jis0208.
pub(crate) fn jis0208_item(pointer: u32) -> Option<char>
    ensures { result ≡ item_at jis0208_index pointer }
{
    entry_item(entry_at(jis0208_index(), pointer as usize))
}

/// The character at a pointer of jis0212.
pub(crate) fn jis0212_item(pointer: u32) -> Option<char>
    ensures { result ≡ item_at jis0212_index pointer }
{
    entry_item(entry_at(jis0212_index(), pointer as usize))
}

/// The code point at a pointer by the ranges.
fn in_range(ranges: &[(u32, u32)], pointer: u32) -> u32
    ensures { result ≡ in_range ranges.now pointer 0 }
{
    let mut code = 0;
    for (first, value) in ranges {
        if *first > pointer {
            return code;
        }
        code = value.wrapping_add(pointer - *first);
    }
    code
}

/// The character of four bytes at a pointer of gb18030.
pub(crate) fn ranges_item(pointer: u32) -> Option<char>
    ensures { result ≡ ranges_item pointer }
{
    if pointer > 39419 && pointer < 189000 || pointer > 1237575 {
        return None;
    }
    if pointer == 7457 {
        return Some('\u{E7C7}');
    }
    code_point(in_range(gb18030_ranges(), pointer))
}
