//! Big5 (Encoding Standard, section 11.1).
ghost use Rattle.std.specs.Prelude.{◌≡◌};
ghost use Rattle.html_encodings.specs.Emitted.{items};
ghost use Rattle.html_encodings_multibyte.specs.Chinese.{big5_pointer, big5_items_at, big5_items};

use crate::indexes::big5_item;
use crate::pairs::{held_end, second};
use html_encodings::{Emitted, Handler};

/// The Big5 decoder.
#[derive(Clone, Copy, Debug)]
pub struct Big5 {
    /// The first byte of two, or 0.
    pub lead: u8,
}

fn big5_pointer(lead: u8, byte: u8) -> u32
    ensures { result ≡ big5_pointer lead byte }
{
    let offset = if byte < 0x7F { 0x40 } else { 0x62 };
    u32::from(lead).saturating_sub(0x81) * 157 + u32::from(byte).saturating_sub(offset)
}

/// What stands at a pointer, where four stand for two characters each.
fn big5_items_at(pointer: u32, byte: u8) -> Emitted
    ensures { items result ≡ big5_items_at pointer byte }
{
    match pointer {
        1133 => Emitted::Two(Some('\u{CA}'), Some('\u{304}')),
        1135 => Emitted::Two(Some('\u{CA}'), Some('\u{30C}')),
        1164 => Emitted::Two(Some('\u{EA}'), Some('\u{304}')),
        1166 => Emitted::Two(Some('\u{EA}'), Some('\u{30C}')),
        _ => second(big5_item(pointer), byte),
    }
}

fn big5_items(lead: u8, byte: u8) -> Emitted
    ensures { items result ≡ big5_items lead byte }
{
    if byte >= 0x40 && byte <= 0x7E || byte >= 0xA1 && byte <= 0xFE {
        return big5_items_at(big5_pointer(lead, byte), byte);
    }
    second(None, byte)
}

impl Handler for Big5 {
    ghost use Rattle.html_encodings_multibyte.specs.Chinese.{big5_step};
    ghost use Rattle.html_encodings_multibyte.specs.Pairs.{held_end};

    ghost step = { big5_step };

    ghost end = { λ state. held_end state.lead };

    fn read(&mut self, byte: u8) -> Emitted {
        if self.lead != 0 {
            let lead = self.lead;
            self.lead = 0;
            return big5_items(lead, byte);
        }
        if byte < 128 {
            return Emitted::One(Some(char::from(byte)));
        }
        if byte >= 0x81 && byte <= 0xFE {
            self.lead = byte;
            return Emitted::Nothing;
        }
        Emitted::One(None)
    }

    fn finish(&self) -> Emitted {
        held_end(self.lead)
    }

    fn copies_ascii(&self) -> bool {
        self.lead == 0
    }
}
