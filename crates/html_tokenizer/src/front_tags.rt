//! Tags at the front of the input, of which a beginning is taken at once (HTML Standard, sections 13.2.5.6 to 13.2.5.8): the
//! name, and then its attributes.
ghost use Rattle.std.specs.Prelude.{◌≡◌, ◌<◌, ◌∷◌, ◌++◌, length, true, IfErr, IfOk, IfSome, OnOk};
ghost use Rattle.std.specs.Str.{IsUtf8, chars};
ghost use Rattle.html_tokens.specs.declared.states.State.TheVariants as state;
ghost use Rattle.markup.specs.declared.fault.ParseFault.TheVariants.{Memory};
ghost use Rattle.html_tokenizer.specs.Fronts;
ghost use Rattle.html_tokenizer.specs.Fronts.{BeginsWithLetter, IsNamed, IsOpening, IsTagName, ReadsTags, TakesFront, mark, opened_tag};
ghost use Rattle.html_tokenizer.specs.Steps.{IsAt};

use crate::char_bits::{BREAKS, FORM_FEED, GREATER_THAN, SOLIDUS, SPACE, TAB};
use crate::tokenizer::Tokenizer;
use html_queue::SmallCharSet;
use html_tokens::TagKind;
use html_tokens::sink::TokenSink;
use html_tokens::states::State;
use markup::{Attributes, LocalName, ParseFault};

/// NUL, what ends a tag's name, and a carriage return.
fn name_stops() -> SmallCharSet
    ensures { result ≡ Fronts.name_stops }
{
    SmallCharSet {
        bits: BREAKS | TAB | FORM_FEED | SPACE | SOLIDUS | GREATER_THAN,
    }
}

/// What follows an ASCII character at the front of a text, if it stands there.
pub(crate) fn after_byte(text: &str, byte: u8) -> Option<&str>
    requires ascii { byte < 128 }
    ensures whole { IfSome result (λ rest. text.now ≡ byte ∷ rest.now) }
    ensures utf8 { IfSome result (λ rest. IsUtf8 rest.now) }
{
    let bytes = text.as_bytes();
    if bytes.is_empty() || bytes[0] != byte {
        return None;
    }
    Some(&text[1..])
}

/// Whether a letter stands at the front.
fn begins_with_letter(text: &str) -> bool
    ensures { result ≡ true → BeginsWithLetter (chars text.now) }
{
    let bytes = text.as_bytes();
    !bytes.is_empty() && bytes[0].is_ascii_alphabetic()
}

/// How a tag begins.
#[derive(Clone, Copy)]
pub(crate) struct Opening<'a> {
    pub(crate) kind: TagKind,
    /// The name, as it is written.
    pub(crate) name: &'a str,
    /// What follows the name.
    pub(crate) rest: &'a str,
}

/// The beginning of a tag whose name stands at the front of a text, if one does.
fn named_opening(kind: TagKind, text: &str) -> Option<Opening<'_>>
    ensures kind { IfSome result (λ o. o.kind ≡ kind) }
    ensures named { IfSome result (λ o. IsNamed o.name.now o.rest.now text.now) }
{
    let (name, rest) = name_stops().split(text);
    if !begins_with_letter(name) {
        return None;
    }
    Some(Opening { kind, name, rest })
}

/// The beginning of the tag at the front of a text, if one stands there.
pub(crate) fn opening_of(text: &str) -> Option<Opening<'_>>
    ensures { IfSome result (λ o. IsOpening o.kind o.name.now o.rest.now text.now) }
{
    let Some(inner) = after_byte(text, b'<') else {
        return None;
    };
    match after_byte(inner, b'/') {
        Some(inner) => named_opening(TagKind::EndTag, inner),
        None => named_opening(TagKind::StartTag, inner),
    }
}

impl<Sink: TokenSink> Tokenizer<Sink> {
    /// Whether a tag at the front of the input may be taken at once: in data, where errors of single characters are not told.
    pub(crate) fn reads_tags(&self) -> bool
        ensures { result ≡ true → ReadsTags self.now }
    {
        matches!(self.state, State::Data)
            && self.char_ref.is_none()
            && !self.stream.exact_errors
            && !self.stream.discard_bom
    }

    /// Begins a tag with this name.
    fn open_tag(&mut self, kind: TagKind, name: &str) -> Result<(), ParseFault>
        ensures ok { OnOk result (self.new ≡ opened_tag self.old kind (chars name.now)) }
        ensures fault { IfErr result (λ fault. fault ≡ Memory) }
        ensures sink { self.new.sink ≡ self.old.sink }
    {
        let name = LocalName::from_str_lowered(self.stream.alloc, name)?;
        self.tag.kind = kind;
        self.tag.name = name;
        self.tag.self_closing = false;
        self.tag.had_duplicate_attributes = false;
        if !self.tag.attrs.is_empty() {
            self.tag.attrs = Attributes::new(self.stream.alloc);
        }
        self.state = State::TagName;
        Ok(())
    }

    /// Takes the beginning of a tag and the attributes after it: what is left of the text.
    pub(crate) fn consume_opening<'a>(
        &mut self,
        opening: Opening<'a>,
    ) -> Result<&'a str, ParseFault>
        requires at { IsAt self.old state.Data }
        requires sound { Sink.is_sound (Sink.view self.old.sink) }
        requires text { IsUtf8 opening.name.now }
        requires name { IsTagName (chars opening.name.now) }
        ensures ok { IfOk result (λ rest. TakesFront Sink.TokenSink self.old self.new
            (mark opening.entry.kind ++ (opening.entry.name.now ++ opening.entry.rest.now)) rest.now) }
        ensures shorter { IfOk result
            (λ rest. length rest.now < length (mark opening.entry.kind ++ (opening.entry.name.now ++ opening.entry.rest.now))) }
        ensures fault { IfErr result (λ fault. fault ≡ Memory) }
        ensures sink { self.new.sink ≡ self.old.sink }
    {
        self.open_tag(opening.kind, opening.name)?;
        self.consume_attributes(opening.rest)
    }
}
