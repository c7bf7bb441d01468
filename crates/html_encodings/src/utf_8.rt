//! UTF-8 (Encoding Standard, section 8.1.1).
ghost use Rattle.std.specs.Prelude.{◌≡◌, ◌<◌, ◌≤◌, [], length};

use crate::emitted::{Emitted, code_point};
use crate::handler::Handler;

/// The UTF-8 decoder.
#[derive(Clone, Copy, Debug)]
pub struct Utf8 {
    /// The code point so far.
    pub code: u32,
    /// How many bytes are needed.
    pub needed: u8,
    /// The least that the next one may be.
    pub lower: u8,
    /// The greatest that the next one may be.
    pub upper: u8,
}

impl Utf8 {
    ghost use Rattle.html_encodings.specs.Utf8.{ready, lead_step};
    ghost use Rattle.html_encodings.specs.Emitted.{Does, items};

    /// A decoder at the start of its input.
    pub fn new() -> Utf8
        ensures { result ≡ ready }
    {
        Utf8 {
            code: 0,
            needed: 0,
            lower: 0x80,
            upper: 0xBF,
        }
    }

    /// The state after the first byte of several.
    fn after_lead(byte: u8) -> Utf8
        requires low { 0xC1 < byte }
        requires high { byte ≤ 0xF4 }
        ensures { record { written = []; state = result } ≡ lead_step ready byte }
    {
        if byte <= 0xDF {
            return Utf8 {
                code: u32::from(byte - 0xC0),
                needed: 1,
                lower: 0x80,
                upper: 0xBF,
            };
        }
        if byte <= 0xEF {
            return Utf8 {
                code: u32::from(byte - 0xE0),
                needed: 2,
                lower: if byte == 0xE0 { 0xA0 } else { 0x80 },
                upper: if byte == 0xED { 0x9F } else { 0xBF },
            };
        }
        Utf8 {
            code: u32::from(byte - 0xF0),
            needed: 3,
            lower: if byte == 0xF0 { 0x90 } else { 0x80 },
            upper: if byte == 0xF4 { 0x8F } else { 0xBF },
        }
    }

    /// A byte where none is needed.
    fn lead(&mut self, byte: u8) -> Emitted
        ensures step { Does (lead_step self.old byte) result self.new }
        ensures one { length (items result) ≤ 1 }
    {
        if byte <= 0x7F {
            return Emitted::One(Some(char::from(byte)));
        }
        if byte <= 0xC1 || byte > 0xF4 {
            return Emitted::One(None);
        }
        *self = Utf8::after_lead(byte);
        Emitted::Nothing
    }
}

impl Handler for Utf8 {
    ghost use Rattle.html_encodings.specs.Utf8.{utf_8_step, utf_8_end};

    ghost step = { utf_8_step };

    ghost end = { utf_8_end };

    fn read(&mut self, byte: u8) -> Emitted {
        if self.needed == 0 {
            return self.lead(byte);
        }
        if byte < self.lower || byte > self.upper {
            *self = Utf8::new();
            return self.lead(byte).after(None);
        }
        let code = self
            .code
            .wrapping_mul(64)
            .wrapping_add(u32::from(byte % 64));
        if self.needed == 1 {
            *self = Utf8::new();
            return Emitted::One(code_point(code));
        }
        *self = Utf8 {
            code,
            needed: self.needed - 1,
            lower: 0x80,
            upper: 0xBF,
        };
        Emitted::Nothing
    }

    fn finish(&self) -> Emitted {
        if self.needed == 0 {
            Emitted::Nothing
        } else {
            Emitted::One(None)
        }
    }

    fn copies_ascii(&self) -> bool {
        self.needed == 0
    }
}
