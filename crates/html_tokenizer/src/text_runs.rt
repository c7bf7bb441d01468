//! Runs of text, which are taken at once.
ghost use Rattle.std.specs.Prelude.{◌≡◌, IfSome};
ghost use Rattle.html_tokenizer.specs.Stops as stops;
ghost use Rattle.html_tokenizer.specs.Stops.{HasBreaks, IsRunAt};
ghost use Rattle.html_tokenizer.specs.Calls.{KeepsRun};

use crate::char_bits::{
    AMPERSAND, APOSTROPHE, BREAKS, EQUALS, FORM_FEED, GREATER_THAN, HYPHEN, LESS_THAN, QUOTE,
    SOLIDUS, SPACE, TAB,
};
use crate::tokenizer::Tokenizer;
use html_queue::SmallCharSet;
use html_tokenizer_parts::characters::push_lowered;
use html_tokens::Token;
use html_tokens::sink::TokenSink;
use html_tokens::states::{AttrValueKind, RawKind, State};
use markup::{ParseFault, Text};

/// The characters of data that are no plain text.
pub(crate) fn data_stops() -> SmallCharSet
    ensures { result ≡ stops.data_stops }
{
    SmallCharSet {
        bits: BREAKS | AMPERSAND | LESS_THAN,
    }
}

/// The characters of raw text of this kind that are no plain text.
fn raw_stops(kind: RawKind) -> SmallCharSet
    ensures { result ≡ stops.raw_stops kind }
{
    match kind {
        RawKind::Rcdata => SmallCharSet {
            bits: BREAKS | AMPERSAND | LESS_THAN,
        },
        RawKind::Rawtext | RawKind::ScriptData => SmallCharSet {
            bits: BREAKS | LESS_THAN,
        },
        RawKind::ScriptDataEscaped(_) => SmallCharSet {
            bits: BREAKS | HYPHEN | LESS_THAN,
        },
    }
}

/// What ends an attribute's name, and what is an error in it.
pub(crate) fn attribute_stops() -> SmallCharSet
    ensures { result ≡ stops.attribute_stops }
{
    SmallCharSet {
        bits: BREAKS
            | TAB
            | FORM_FEED
            | SPACE
            | QUOTE
            | APOSTROPHE
            | SOLIDUS
            | LESS_THAN
            | EQUALS
            | GREATER_THAN,
    }
}

/// The characters of a value that end it or do not stand for themselves.
pub(crate) fn value_stops(kind: AttrValueKind) -> SmallCharSet
    ensures { result ≡ stops.value_stops kind }
{
    match kind {
        AttrValueKind::Unquoted => SmallCharSet {
            bits: BREAKS | TAB | FORM_FEED | SPACE | AMPERSAND | GREATER_THAN,
        },
        AttrValueKind::SingleQuoted => SmallCharSet {
            bits: BREAKS | AMPERSAND | APOSTROPHE,
        },
        AttrValueKind::DoubleQuoted => SmallCharSet {
            bits: BREAKS | QUOTE | AMPERSAND,
        },
    }
}

impl<Sink: TokenSink> Tokenizer<Sink> {
    /// The characters at which a run of plain text ends, where such runs are read.
    #[inline(always)]
    pub(crate) fn stops(&self) -> Option<SmallCharSet>
        ensures exact { result ≡ stops.stops_of self.now.stream.exact_errors self.now.char_ref self.now.state }
        ensures breaks { IfSome result HasBreaks }
    {
        if self.stream.exact_errors || self.char_ref.is_some() {
            return None;
        }
        match self.state {
            State::Data => Some(data_stops()),
            State::Plaintext => Some(SmallCharSet { bits: BREAKS }),
            State::RawData(kind) => Some(raw_stops(kind)),
            State::AttributeName => Some(attribute_stops()),
            State::AttributeValue(kind) => Some(value_stops(kind)),
            State::BogusComment => Some(SmallCharSet {
                bits: BREAKS | GREATER_THAN,
            }),
            State::Comment => Some(SmallCharSet {
                bits: BREAKS | HYPHEN,
            }),
            _ => None,
        }
    }

    /// Takes a run of characters of which none is a stop.
    #[inline(always)]
    pub(crate) fn consume_run(&mut self, run: Text) -> Result<(), ParseFault>
        requires run { IsRunAt self.old run }
        requires sound { Sink.is_sound (Sink.view self.old.sink) }
        ensures { KeepsRun Sink.TokenSink self.old self.new run result }
    {
        match self.state {
            State::AttributeName => push_lowered(&mut self.attribute_name, run.as_str()),
            State::AttributeValue(kind) => self.consume_value_run(kind, &run),
            State::BogusComment | State::Comment => self.comment.append(&run),
            _ => self.emit(Token::CharacterTokens(run)),
        }
    }
}
