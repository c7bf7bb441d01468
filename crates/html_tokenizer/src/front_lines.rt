//! Lines of data at the front of the input, which are told as one text (HTML Standard, section 13.2.5.1).
ghost use Rattle.std.specs.Prelude.{◌≡◌, ◌<◌, length};
ghost use Rattle.html_tokens.specs.declared.states.State.TheVariants as state;
ghost use Rattle.html_tokenizer.specs.Fronts.{AreLines, HasLines, KeepsLines, counted_all};
ghost use Rattle.html_tokenizer.specs.Steps.{IsAt};

use crate::front_tags::after_byte;
use crate::text_runs::data_stops;
use crate::tokenizer::Tokenizer;
use html_tokens::Token;
use html_tokens::sink::TokenSink;
use markup::{ParseFault, Text};

/// What follows the lines at the front of a text, and how many line breaks were read after them, where so many were read before.
pub(crate) fn after_lines(text: &str, breaks: u64) -> (&str, u64)
    ensures { HasLines text.now result.0.now breaks result.1 }
{
    let stops = data_stops();
    let (_line, mut rest) = stops.split(text);
    let mut breaks_after = breaks;
    while let Some(after) = after_byte(rest, b'\n') {
        let (_line, more) = stops.split(after);
        breaks_after = breaks_after.saturating_add(1);
        rest = more;
    }
    (rest, breaks_after)
}

impl<Sink: TokenSink> Tokenizer<Sink> {
    /// Tells lines of data as one text, after which so many line breaks were read.
    #[inline(always)]
    pub(crate) fn emit_lines(&mut self, lines: Text, breaks: u64) -> Result<(), ParseFault>
        requires at { IsAt self.old state.Data }
        requires filled { 0 < length lines }
        requires lines { AreLines lines }
        requires breaks { breaks ≡ counted_all self.old.stream.breaks lines }
        requires sound { Sink.is_sound (Sink.view self.old.sink) }
        ensures { KeepsLines Sink.TokenSink self.old self.new lines result }
    {
        self.emit(Token::CharacterTokens(lines))?;
        self.stream.breaks = breaks;
        Ok(())
    }
}
