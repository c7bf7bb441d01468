//! EUC-JP (Encoding Standard, section 12.1).
ghost use Rattle.std.specs.Prelude.{◌≡◌, ◌≤◌, ◌+◌, ◌-◌};
ghost use Rattle.html_encodings.specs.Emitted.{Does};
ghost use Rattle.html_encodings_multibyte.specs.Japanese.{row_pointer, euc_jp_item};

use crate::indexes::{jis0208_item, jis0212_item};
use crate::pairs::{held_end, second};
use html_encodings::{Emitted, Handler};

/// The EUC-JP decoder.
#[derive(Clone, Copy, Debug)]
pub struct EucJp {
    /// The byte that is held, or 0.
    pub lead: u8,
    /// Whether it is the second of three.
    pub is_jis0212: bool,
}

fn row_pointer(lead: u8, byte: u8) -> u32
    ensures { result ≡ row_pointer lead byte }
{
    u32::from(lead).saturating_sub(0xA1) * 94 + u32::from(byte).saturating_sub(0xA1)
}

fn euc_jp_item(is_jis0212: bool, lead: u8, byte: u8) -> Option<char>
    ensures { result ≡ euc_jp_item is_jis0212 lead byte }
{
    if lead < 0xA1 || lead > 0xFE || byte < 0xA1 || byte > 0xFE {
        return None;
    }
    let pointer = row_pointer(lead, byte);
    if is_jis0212 {
        jis0212_item(pointer)
    } else {
        jis0208_item(pointer)
    }
}

/// A half-width katakana, of a byte from 0xA1 to 0xDF.
pub(crate) fn katakana(byte: u8) -> char
    requires low { 0xA1 ≤ byte }
    requires high { byte ≤ 0xDF }
    ensures { result ≡ 0xFF61 + (byte - 0xA1) }
{
    char::from_u32(0xFF61 + (u32::from(byte) - 0xA1)).unwrap_or('\u{FFFD}')
}

impl EucJp {
    ghost use Rattle.html_encodings_multibyte.specs.Japanese.{euc_jp_state, euc_jp_second};

    fn holding(lead: u8, is_jis0212: bool) -> EucJp
        ensures { result ≡ euc_jp_state lead is_jis0212 }
    {
        EucJp { lead, is_jis0212 }
    }

    /// A byte behind one that is held.
    fn second(&mut self, lead: u8, byte: u8) -> Emitted
        ensures { Does (euc_jp_second self.old.is_jis0212 lead byte) result self.new }
    {
        if lead == 0x8E && byte >= 0xA1 && byte <= 0xDF {
            self.lead = 0;
            return Emitted::One(Some(katakana(byte)));
        }
        if lead == 0x8F && byte >= 0xA1 && byte <= 0xFE {
            *self = EucJp::holding(byte, true);
            return Emitted::Nothing;
        }
        let item = euc_jp_item(self.is_jis0212, lead, byte);
        *self = EucJp::holding(0, false);
        second(item, byte)
    }
}

impl Handler for EucJp {
    ghost use Rattle.html_encodings_multibyte.specs.Japanese.{euc_jp_step};
    ghost use Rattle.html_encodings_multibyte.specs.Pairs.{held_end};

    ghost step = { euc_jp_step };

    ghost end = { λ state. held_end state.lead };

    fn read(&mut self, byte: u8) -> Emitted {
        let lead = self.lead;
        if lead != 0 {
            return self.second(lead, byte);
        }
        if byte < 128 {
            return Emitted::One(Some(char::from(byte)));
        }
        if byte == 0x8E || byte == 0x8F || byte >= 0xA1 && byte <= 0xFE {
            self.lead = byte;
            return Emitted::Nothing;
        }
        Emitted::One(None)
    }

    fn finish(&self) -> Emitted {
        held_end(self.lead)
    }

    fn copies_ascii(&self) -> bool {
        self.lead == 0
    }
}
