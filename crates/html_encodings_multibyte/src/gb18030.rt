//! gb18030, whose decoder is that of GBK too (Encoding Standard, section 10.2).
ghost use Rattle.std.specs.Prelude.{◌≡◌, ◌≤◌, length};
ghost use Rattle.html_encodings.specs.Emitted.{items, Does};
ghost use Rattle.html_encodings_multibyte.specs.Chinese.{gb18030_pair_item, gb18030_four_item};

use crate::indexes::{gb18030_item, ranges_item};
use crate::pairs::second;
use html_encodings::{Emitted, Handler};

/// The gb18030 decoder.
#[derive(Clone, Copy, Debug)]
pub struct Gb18030 {
    /// The first byte of two or four, or 0.
    pub first: u8,
    /// The second byte of four, or 0.
    pub second: u8,
    /// The third byte of four, or 0.
    pub third: u8,
}

fn pair_item(first: u8, byte: u8) -> Option<char>
    ensures { result ≡ gb18030_pair_item first byte }
{
    if byte < 0x40 || byte == 0x7F || byte == 0xFF {
        return None;
    }
    let offset = if byte < 0x7F { 0x40 } else { 0x41 };
    gb18030_item(
        u32::from(first).saturating_sub(0x81) * 190 + u32::from(byte).saturating_sub(offset),
    )
}

fn four_item(first: u8, second: u8, third: u8, byte: u8) -> Option<char>
    ensures { result ≡ gb18030_four_item first second third byte }
{
    let first = u32::from(first).saturating_sub(0x81);
    let second = u32::from(second).saturating_sub(0x30);
    let third = u32::from(third).saturating_sub(0x81);
    ranges_item(((first * 10 + second) * 126 + third) * 10 + u32::from(byte).saturating_sub(0x30))
}

impl Gb18030 {
    ghost use Rattle.html_encodings_multibyte.specs.Chinese.{gb18030_state, gb18030_lead, gb18030_second, gb18030_third, gb18030_fourth};

    fn holding(first: u8, second: u8, third: u8) -> Gb18030
        ensures { result ≡ gb18030_state first second third }
    {
        Gb18030 {
            first,
            second,
            third,
        }
    }

    /// A byte where none is held.
    fn lead(&mut self, byte: u8) -> Emitted
        ensures step { Does (gb18030_lead byte) result self.new }
        ensures one { length (items result) ≤ 1 }
    {
        *self = Gb18030::holding(0, 0, 0);
        if byte < 128 {
            return Emitted::One(Some(char::from(byte)));
        }
        if byte == 0x80 {
            return Emitted::One(Some('\u{20AC}'));
        }
        if byte == 0xFF {
            return Emitted::One(None);
        }
        *self = Gb18030::holding(byte, 0, 0);
        Emitted::Nothing
    }

    /// The second byte.
    fn second(&mut self, first: u8, byte: u8) -> Emitted
        ensures step { Does (gb18030_second first byte) result self.new }
        ensures two { length (items result) ≤ 2 }
    {
        if byte >= 0x30 && byte <= 0x39 {
            *self = Gb18030::holding(first, byte, 0);
            return Emitted::Nothing;
        }
        *self = Gb18030::holding(0, 0, 0);
        second(pair_item(first, byte), byte)
    }

    /// The third byte. The second one, which is a digit, is put back with a third that goes on with nothing.
    #[tactic(auto, unfolding(crate::specs::Chinese::gb18030_third))]
    fn third(&mut self, first: u8, second: u8, byte: u8) -> Emitted
        ensures { Does (gb18030_third first second byte) result self.new }
    {
        if byte >= 0x81 && byte <= 0xFE {
            *self = Gb18030::holding(first, second, byte);
            return Emitted::Nothing;
        }
        self.lead(byte).after(Some(char::from(second))).after(None)
    }

    /// The fourth byte. The second one, which is a digit, and the third are put back with a fourth that is no digit.
    #[tactic(auto, unfolding(crate::specs::Chinese::gb18030_fourth))]
    fn fourth(&mut self, first: u8, second: u8, third: u8, byte: u8) -> Emitted
        ensures { Does (gb18030_fourth first second third byte) result self.new }
    {
        if byte >= 0x30 && byte <= 0x39 {
            *self = Gb18030::holding(0, 0, 0);
            return Emitted::One(four_item(first, second, third, byte));
        }
        self.second(third, byte)
            .after(Some(char::from(second)))
            .after(None)
    }
}

impl Handler for Gb18030 {
    ghost use Rattle.html_encodings_multibyte.specs.Chinese.{gb18030_step, gb18030_end};

    ghost step = { gb18030_step };

    ghost end = { gb18030_end };

    fn read(&mut self, byte: u8) -> Emitted {
        let first = self.first;
        let second = self.second;
        let third = self.third;
        if third != 0 {
            return self.fourth(first, second, third, byte);
        }
        if second != 0 {
            return self.third(first, second, byte);
        }
        if first != 0 {
            return self.second(first, byte);
        }
        self.lead(byte)
    }

    fn finish(&self) -> Emitted {
        if self.first == 0 && self.second == 0 && self.third == 0 {
            return Emitted::Nothing;
        }
        Emitted::One(None)
    }

    fn copies_ascii(&self) -> bool {
        self.first == 0 && self.second == 0 && self.third == 0
    }
}
