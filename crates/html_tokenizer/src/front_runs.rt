//! Runs of text that no set of stops bounds, taken from the front of the input at once: letters and digits after an unknown name
//! (HTML Standard, section 13.2.5.74), the text of a CDATA section, and `]` after `]]` in one (sections 13.2.5.69 and 13.2.5.71).
ghost use Rattle.std.specs.Prelude.{◌≡◌, ◌<◌, ◌≤◌, ◌++◌, ℕ, false, true, All, IfSome, length, slice_index};
ghost use Rattle.std.specs.Str.{IsUtf8, chars};
ghost use Rattle.html_tokenizer_parts.specs.CharRefs.{fits_in};
ghost use Rattle.html_tokenizer.specs.AheadRuns.{IsAheadRun, IsFrontOf, ReadsRun, ends_run};
ghost use Rattle.html_tokenizer.specs.Calls.{KeepsRun};
ghost use Rattle.html_tokenizer.specs.Rest.{rows_of};

use crate::tokenizer::Tokenizer;
use html_tokenizer_parts::held_reference::Ampersand;
use html_tokens::Token;
use html_tokens::sink::TokenSink;
use html_tokens::states::State;
use markup::{ParseFault, Text};

/// Characters of which as many as stand next are taken at once.
#[derive(Clone, Copy)]
pub(crate) enum RunKind {
    /// Letters and digits of an unknown name.
    Named,
    /// Text of a CDATA section, to the first `]`, NUL or line end.
    CdataText,
    /// `]` after `]]`, of which the last two may end a CDATA section.
    Brackets,
}

impl RunKind {
    /// Whether a run ends before this byte.
    fn ends(self, byte: u8) -> bool
        ensures { result ≡ ends_run self byte }
    {
        match self {
            RunKind::Named => !byte.is_ascii_alphanumeric(),
            RunKind::CdataText => byte == 0 || byte == b'\n' || byte == b'\r' || byte == b']',
            RunKind::Brackets => byte != b']',
        }
    }

    /// How many bytes stand before the first at which a run ends.
    fn width(self, text: &str) -> usize
        ensures within { result ≤ length text.now }
        ensures before { (k : ℕ) → k < result → ends_run self (slice_index text.now k) ≡ false }
        ensures at { result < length text.now → ends_run self (slice_index text.now result) ≡ true }
    {
        let bytes = text.as_bytes();
        for i in 0..bytes.len() {
            if self.ends(bytes[i]) {
                return i;
            }
        }
        bytes.len()
    }

    /// The run at the front of a text, and what follows it.
    fn split(self, text: &str) -> (&str, &str)
        ensures whole { text.now ≡ result.0.now ++ result.1.now }
        ensures cut { IsUtf8 result.0.now }
        ensures lacking { All (λ c. ends_run self c ≡ false) (chars result.0.now) }
    {
        let width = self.width(text);
        text.split_at(width)
    }
}

impl<Sink: TokenSink> Tokenizer<Sink> {
    /// The kind of the run that may be taken where the machine stands.
    fn run_kind(&self) -> Option<RunKind>
        ensures { IfSome result (ReadsRun self.now) }
    {
        if self.stream.exact_errors || self.stream.discard_bom {
            return None;
        }
        match (&self.char_ref, self.state) {
            (Some(Ampersand::Unknown), _) => Some(RunKind::Named),
            (None, State::CdataSection) => Some(RunKind::CdataText),
            (None, State::CdataSectionEnd) => Some(RunKind::Brackets),
            _ => None,
        }
    }

    /// The run at the front of a text, if one may be taken at once, and its kind.
    pub(crate) fn run_ahead<'a>(&self, text: &'a str) -> Option<(RunKind, &'a str)>
        ensures reads { IfSome result (λ r. ReadsRun self.now r.0) }
        ensures filled { IfSome result (λ r. 0 < length r.1.now) }
        ensures utf8 { IfSome result (λ r. IsUtf8 r.1.now) }
        ensures front { IfSome result (λ r. IsFrontOf r.1.now text.now) }
        ensures lacking { IfSome result (λ r. All (λ c. ends_run r.0 c ≡ false) (chars r.1.now)) }
    {
        let kind = self.run_kind()?;
        let (run, _rest) = kind.split(text);
        if run.is_empty() {
            return None;
        }
        Some((kind, run))
    }

    /// Takes such a run.
    pub(crate) fn consume_ahead(&mut self, kind: RunKind, run: Text) -> Result<(), ParseFault>
        requires run { IsAheadRun self.old kind run }
        requires fits { fits_in (rows_of self.old) self.old.char_ref self.old.state ≡ true }
        requires sound { Sink.is_sound (Sink.view self.old.sink) }
        ensures { KeepsRun Sink.TokenSink self.old self.new run result }
    {
        let _kind = kind;
        match self.state {
            State::AttributeValue(_) => self.attribute_value.append(&run),
            _ => self.emit(Token::CharacterTokens(run)),
        }
    }
}
