//! EUC-KR (Encoding Standard, section 13.1).
ghost use Rattle.std.specs.Prelude.{◌≡◌};
ghost use Rattle.html_encodings_multibyte.specs.Chinese.{euc_kr_item};

use crate::indexes;
use crate::pairs::{held_end, second};
use html_encodings::{Emitted, Handler};

/// The EUC-KR decoder.
#[derive(Clone, Copy, Debug)]
pub struct EucKr {
    /// The first byte of two, or 0.
    pub lead: u8,
}

fn euc_kr_item(lead: u8, byte: u8) -> Option<char>
    ensures { result ≡ euc_kr_item lead byte }
{
    if byte < 0x41 || byte > 0xFE {
        return None;
    }
    indexes::euc_kr_item(u32::from(lead).saturating_sub(0x81) * 190 + (u32::from(byte) - 0x41))
}

impl Handler for EucKr {
    ghost use Rattle.html_encodings_multibyte.specs.Chinese.{euc_kr_step};
    ghost use Rattle.html_encodings_multibyte.specs.Pairs.{held_end};

    ghost step = { euc_kr_step };

    ghost end = { λ state. held_end state.lead };

    fn read(&mut self, byte: u8) -> Emitted {
        if self.lead != 0 {
            let lead = self.lead;
            self.lead = 0;
            return second(euc_kr_item(lead, byte), byte);
        }
        if byte < 128 {
            return Emitted::One(Some(char::from(byte)));
        }
        if byte >= 0x81 && byte <= 0xFE {
            self.lead = byte;
            return Emitted::Nothing;
        }
        Emitted::One(None)
    }

    fn finish(&self) -> Emitted {
        held_end(self.lead)
    }

    fn copies_ascii(&self) -> bool {
        self.lead == 0
    }
}
