//! What a tokenizer knows of its input wherever it stands.
ghost use Rattle.std.specs.Prelude.{◌≡◌};
ghost use Rattle.html_tokenizer_parts.specs.Input.{counted};
ghost use Rattle.html_tokenizer_parts.specs.Refusals.{refusal, Refuses};

use html_references::References;
use markup::ParseFault;
use std::alloc::Global;

/// What a tokenizer knows of its input wherever it stands.
#[derive(Drop)]
pub struct Stream {
    pub alloc: Global,
    /// The named references.
    pub table: References,
    /// Whether control characters and noncharacters are told as errors.
    pub exact_errors: bool,
    /// Whether a byte order mark may still come, which is dropped.
    pub discard_bom: bool,
    /// Whether a line feed is dropped, since it stands after a carriage return.
    pub ignore_lf: bool,
    /// How many line breaks were read. At u64::MAX the number stays.
    pub breaks: u64,
    /// Whether the end of the input was told.
    pub has_ended: bool,
    /// Whether a fault ended the tokenizing.
    pub has_failed: bool,
}

impl Stream {
    /// Counts a line break, if the character is one.
    pub fn count_break(&mut self, c: char)
        ensures { self.new ≡ record self.old { breaks = counted self.old.breaks c } }
    {
        if c == '\n' {
            self.breaks = self.breaks.saturating_add(1);
        }
    }

    /// Refuses where a fault or the end of the input stands before.
    pub fn refuses(&self) -> Result<(), ParseFault>
        ensures { Refuses (refusal self.now) result }
    {
        if self.has_failed {
            return Err(ParseFault::Failed);
        }
        if self.has_ended {
            return Err(ParseFault::Ended);
        }
        Ok(())
    }
}
