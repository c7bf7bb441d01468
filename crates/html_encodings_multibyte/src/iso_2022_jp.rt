//! ISO-2022-JP (Encoding Standard, section 12.2).
ghost use Rattle.std.specs.Prelude.{◌≡◌, ◌≤◌, length};
ghost use Rattle.html_encodings.specs.Emitted.{items, Does};

use crate::modes::{escaped, held_items};
use crate::shown::{ascii_item, katakana_item, roman_item, trail_item};
use html_encodings::{Emitted, Handler};

/// A state of the ISO-2022-JP decoder.
#[derive(Clone, Copy, Debug, PartialEq, Eq)]
pub enum Mode {
    Ascii,
    Roman,
    Katakana,
    LeadByte,
    TrailByte,
    EscapeStart,
    Escape,
}

/// The ISO-2022-JP decoder.
#[derive(Clone, Copy, Debug)]
pub struct Iso2022Jp {
    pub state: Mode,
    /// The state that the last escape turned to.
    pub output_state: Mode,
    /// The byte that is held.
    pub lead: u8,
    /// Whether an escape stands directly before.
    pub has_output: bool,
}

impl Iso2022Jp {
    ghost use Rattle.html_encodings_multibyte.specs.Iso2022Jp.{iso_2022_jp_ready, outputs, lead_step, shown_step, plain_step, start_step};
    ghost use Rattle.html_encodings_multibyte.specs.Iso2022Jp.{escape_to, two_steps, held_items};

    /// A decoder at the start of its input.
    pub fn new() -> Iso2022Jp
        ensures { result ≡ iso_2022_jp_ready }
    {
        Iso2022Jp {
            state: Mode::Ascii,
            output_state: Mode::Ascii,
            lead: 0,
            has_output: false,
        }
    }

    fn output(&mut self, item: Option<char>) -> Emitted
        ensures step { Does (outputs item self.old) result self.new }
        ensures one { length (items result) ≤ 1 }
    {
        self.has_output = false;
        Emitted::One(item)
    }

    fn lead(&mut self, byte: u8) -> Emitted
        ensures step { Does (lead_step self.old byte) result self.new }
        ensures one { length (items result) ≤ 1 }
    {
        if byte < 0x21 || byte > 0x7E {
            return self.output(None);
        }
        self.has_output = false;
        self.lead = byte;
        self.state = Mode::TrailByte;
        Emitted::Nothing
    }

    /// A byte that begins no escape, outside of escapes.
    fn shown(&mut self, byte: u8) -> Emitted
        ensures step { Does (shown_step self.old.state self.old byte) result self.new }
        ensures one { length (items result) ≤ 1 }
    {
        match self.state {
            Mode::Ascii => self.output(ascii_item(byte)),
            Mode::Roman => self.output(roman_item(byte)),
            Mode::Katakana => self.output(katakana_item(byte)),
            Mode::LeadByte => self.lead(byte),
            Mode::TrailByte => {
                self.state = Mode::LeadByte;
                Emitted::One(trail_item(self.lead, byte))
            }
            Mode::EscapeStart | Mode::Escape => Emitted::Nothing,
        }
    }

    /// A byte outside of escapes.
    fn plain(&mut self, byte: u8) -> Emitted
        ensures step { Does (plain_step self.old byte) result self.new }
        ensures one { length (items result) ≤ 1 }
    {
        if byte != 0x1B {
            return self.shown(byte);
        }
        let is_within = self.state == Mode::TrailByte;
        self.state = Mode::EscapeStart;
        if is_within {
            Emitted::One(None)
        } else {
            Emitted::Nothing
        }
    }

    /// The first byte of an escape. What is none is put back.
    fn start(&mut self, byte: u8) -> Emitted
        ensures { Does (start_step self.old byte) result self.new }
    {
        if byte == 0x24 || byte == 0x28 {
            self.lead = byte;
            self.state = Mode::Escape;
            return Emitted::Nothing;
        }
        self.has_output = false;
        self.state = self.output_state;
        self.plain(byte).after(None)
    }

    /// Two bytes outside of escapes.
    fn two(&mut self, lead: u8, byte: u8) -> Emitted
        ensures step { Does (two_steps self.old lead byte) result self.new }
        ensures two { length (items result) ≤ 2 }
    {
        let first = self.plain(lead);
        let second = self.plain(byte);
        match first {
            Emitted::One(item) => second.after(item),
            _ => second,
        }
    }

    /// An escape turns to another state; what is none is put back.
    fn escape(&mut self, mode: Option<Mode>, byte: u8) -> Emitted
        ensures { Does (escape_to mode self.old byte) result self.new }
    {
        let lead = self.lead;
        self.lead = 0;
        let Some(mode) = mode else {
            self.has_output = false;
            self.state = self.output_state;
            return self.two(lead, byte).after(None);
        };
        let had_output = self.has_output;
        self.state = mode;
        self.output_state = mode;
        self.has_output = true;
        if had_output {
            Emitted::One(None)
        } else {
            Emitted::Nothing
        }
    }
}

impl Handler for Iso2022Jp {
    ghost use Rattle.html_encodings_multibyte.specs.Iso2022Jp.{iso_2022_jp_step, iso_2022_jp_end};

    ghost step = { iso_2022_jp_step };

    ghost end = { iso_2022_jp_end };

    fn read(&mut self, byte: u8) -> Emitted {
        match self.state {
            Mode::EscapeStart => self.start(byte),
            Mode::Escape => self.escape(escaped(self.lead, byte), byte),
            _ => self.plain(byte),
        }
    }

    fn finish(&self) -> Emitted {
        match self.state {
            Mode::EscapeStart => Emitted::One(None),
            Mode::Escape => {
                let mut back = *self;
                let lead = back.lead;
                back.lead = 0;
                back.has_output = false;
                back.state = back.output_state;
                let first = back.plain(lead);
                let held = held_items(back.state);
                match first {
                    Emitted::One(item) => held.after(item).after(None),
                    _ => held.after(None),
                }
            }
            _ => held_items(self.state),
        }
    }

    fn copies_ascii(&self) -> bool {
        false
    }
}
