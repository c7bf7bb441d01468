//! UTF-16 (Encoding Standard, section 14.2).
ghost use Rattle.std.specs.Prelude.{◌≡◌};
ghost use Rattle.html_encodings.specs.Emitted.{Does};
ghost use Rattle.html_encodings.specs.Utf16.{pair_item, unit_of};

use crate::emitted::{Emitted, code_point};
use crate::handler::Handler;

/// The code unit that two bytes are.
fn unit_of(is_big: bool, one: u8, two: u8) -> u16
    ensures { result ≡ unit_of is_big one two }
{
    if is_big {
        u16::from(one) * 256 + u16::from(two)
    } else {
        u16::from(two) * 256 + u16::from(one)
    }
}

/// The code point that two surrogates are.
fn pair_item(lead: u16, trail: u16) -> Option<char>
    ensures { result ≡ pair_item lead trail }
{
    let high = u32::from(lead).saturating_sub(0xD800);
    let low = u32::from(trail).saturating_sub(0xDC00);
    code_point(0x10000 + high * 0x400 + low)
}

/// The shared UTF-16 decoder.
#[derive(Clone, Copy, Debug)]
pub struct Utf16 {
    /// Whether the first of two bytes is the greater one.
    pub is_big: bool,
    /// The first byte of a code unit.
    pub lead_byte: Option<u8>,
    /// A lead surrogate.
    pub lead_surrogate: Option<u16>,
}

impl Utf16 {
    ghost use Rattle.html_encodings.specs.Utf16.{lone_unit, unit_step};

    /// A decoder at the start of its input.
    pub fn new(is_big: bool) -> Utf16
        ensures { result ≡ record { is_big = is_big; lead_byte = None; lead_surrogate = None } }
    {
        Utf16 {
            is_big,
            lead_byte: None,
            lead_surrogate: None,
        }
    }

    fn lone_unit(&mut self, unit: u16) -> Emitted
        ensures { Does (lone_unit self.old.is_big unit) result self.new }
    {
        self.lead_byte = None;
        if unit >= 0xD800 && unit <= 0xDBFF {
            self.lead_surrogate = Some(unit);
            return Emitted::Nothing;
        }
        self.lead_surrogate = None;
        Emitted::One(code_point(u32::from(unit)))
    }

    fn unit(&mut self, unit: u16) -> Emitted
        ensures { Does (unit_step self.old.is_big self.old.lead_surrogate unit) result self.new }
    {
        let Some(lead) = self.lead_surrogate else {
            return self.lone_unit(unit);
        };
        if unit >= 0xDC00 && unit <= 0xDFFF {
            self.lead_byte = None;
            self.lead_surrogate = None;
            return Emitted::One(pair_item(lead, unit));
        }
        self.lone_unit(unit).after(None)
    }
}

impl Handler for Utf16 {
    ghost use Rattle.html_encodings.specs.Utf16.{utf_16_step, utf_16_end};

    ghost step = { utf_16_step };

    ghost end = { utf_16_end };

    fn read(&mut self, byte: u8) -> Emitted {
        let Some(one) = self.lead_byte else {
            self.lead_byte = Some(byte);
            return Emitted::Nothing;
        };
        self.unit(unit_of(self.is_big, one, byte))
    }

    fn finish(&self) -> Emitted {
        if self.lead_byte.is_some() || self.lead_surrogate.is_some() {
            return Emitted::One(None);
        }
        Emitted::Nothing
    }

    fn copies_ascii(&self) -> bool {
        false
    }
}
