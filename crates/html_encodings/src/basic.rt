//! The decoders that need no large index.
ghost use Rattle.std.specs.Prelude.{◌≡◌};

use crate::emitted::Emitted;
use crate::handler::Handler;
use crate::names::Encoding;
use crate::single_byte::{single_byte_item, user_defined_item};
use crate::utf_8::Utf8;
use crate::utf_16::Utf16;

/// A decoder that needs no large index, in a state.
#[derive(Clone, Copy, Debug)]
pub enum Basic {
    /// Of a single-byte encoding (Encoding Standard, section 9).
    SingleByte(Encoding),
    /// Of x-user-defined (section 14.5).
    XUserDefined,
    /// The replacement decoder (section 14.1), and whether its error was reported.
    Replacement(bool),
    /// Of UTF-8.
    Utf8(Utf8),
    /// Of UTF-16LE and UTF-16BE.
    Utf16(Utf16),
}

impl Basic {
    ghost use Rattle.html_encodings.specs.Basic.{basic_start};

    /// The decoder of an encoding at the start of its input. `None` for the encodings of several bytes whose indexes are
    /// large: Big5, EUC-JP, EUC-KR, gb18030, GBK, ISO-2022-JP and Shift_JIS.
    pub fn new(encoding: Encoding) -> Option<Basic>
        ensures { result ≡ basic_start encoding }
    {
        match encoding {
            Encoding::Big5
            | Encoding::EucJp
            | Encoding::EucKr
            | Encoding::Gb18030
            | Encoding::Gbk
            | Encoding::Iso2022Jp
            | Encoding::ShiftJis => None,
            Encoding::Replacement => Some(Basic::Replacement(false)),
            Encoding::Utf8 => Some(Basic::Utf8(Utf8::new())),
            Encoding::Utf16be => Some(Basic::Utf16(Utf16::new(true))),
            Encoding::Utf16le => Some(Basic::Utf16(Utf16::new(false))),
            Encoding::XUserDefined => Some(Basic::XUserDefined),
            _ => Some(Basic::SingleByte(encoding)),
        }
    }
}

impl Handler for Basic {
    ghost use Rattle.html_encodings.specs.Basic.{basic_step, basic_end};

    ghost step = { basic_step };

    ghost end = { basic_end };

    fn read(&mut self, byte: u8) -> Emitted {
        match self {
            Basic::SingleByte(encoding) => Emitted::One(single_byte_item(*encoding, byte)),
            Basic::XUserDefined => Emitted::One(user_defined_item(byte)),
            Basic::Replacement(told) => {
                if *told {
                    return Emitted::Nothing;
                }
                *told = true;
                Emitted::One(None)
            }
            Basic::Utf8(utf_8) => utf_8.read(byte),
            Basic::Utf16(utf_16) => utf_16.read(byte),
        }
    }

    fn finish(&self) -> Emitted {
        match self {
            Basic::Utf8(utf_8) => utf_8.finish(),
            Basic::Utf16(utf_16) => utf_16.finish(),
            _ => Emitted::Nothing,
        }
    }

    fn copies_ascii(&self) -> bool {
        match self {
            Basic::SingleByte(_) | Basic::XUserDefined => true,
            Basic::Replacement(_) => false,
            Basic::Utf8(utf_8) => utf_8.copies_ascii(),
            Basic::Utf16(utf_16) => utf_16.copies_ascii(),
        }
    }
}
