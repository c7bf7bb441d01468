//! Shift_JIS (Encoding Standard, section 12.3).
ghost use Rattle.std.specs.Prelude.{◌≡◌};
ghost use Rattle.html_encodings_multibyte.specs.Japanese.{shift_jis_pointer, shift_jis_item_at, shift_jis_item};

use crate::euc_jp::katakana;
use crate::indexes::jis0208_item;
use crate::pairs::{held_end, second};
use html_encodings::{Emitted, Handler, code_point};

/// The Shift_JIS decoder.
#[derive(Clone, Copy, Debug)]
pub struct ShiftJis {
    /// The first byte of two, or 0.
    pub lead: u8,
}

fn shift_jis_pointer(lead: u8, byte: u8) -> u32
    ensures { result ≡ shift_jis_pointer lead byte }
{
    let lead_offset = if lead < 0xA0 { 0x81 } else { 0xC1 };
    let offset = if byte < 0x7F { 0x40 } else { 0x41 };
    u32::from(lead).saturating_sub(lead_offset) * 188 + u32::from(byte).saturating_sub(offset)
}

/// What stands at a pointer. Between the rows of jis0208 it is in the private use area.
fn shift_jis_item_at(pointer: u32) -> Option<char>
    ensures { result ≡ shift_jis_item_at pointer }
{
    if pointer >= 8836 && pointer <= 10715 {
        return code_point(0xE000 + (pointer - 8836));
    }
    jis0208_item(pointer)
}

fn shift_jis_item(lead: u8, byte: u8) -> Option<char>
    ensures { result ≡ shift_jis_item lead byte }
{
    if byte < 0x40 || byte == 0x7F || byte > 0xFC {
        return None;
    }
    shift_jis_item_at(shift_jis_pointer(lead, byte))
}

impl Handler for ShiftJis {
    ghost use Rattle.html_encodings_multibyte.specs.Japanese.{shift_jis_step};
    ghost use Rattle.html_encodings_multibyte.specs.Pairs.{held_end};

    ghost step = { shift_jis_step };

    ghost end = { λ state. held_end state.lead };

    fn read(&mut self, byte: u8) -> Emitted {
        if self.lead != 0 {
            let lead = self.lead;
            self.lead = 0;
            return second(shift_jis_item(lead, byte), byte);
        }
        if byte <= 128 {
            return Emitted::One(Some(char::from(byte)));
        }
        if byte >= 0xA1 && byte <= 0xDF {
            return Emitted::One(Some(katakana(byte)));
        }
        if byte >= 0x81 && byte <= 0x9F || byte >= 0xE0 && byte <= 0xFC {
            self.lead = byte;
            return Emitted::Nothing;
        }
        Emitted::One(None)
    }

    fn finish(&self) -> Emitted {
        held_end(self.lead)
    }

    fn copies_ascii(&self) -> bool {
        self.lead == 0
    }
}
