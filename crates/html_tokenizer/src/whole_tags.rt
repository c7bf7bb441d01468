//! Attributes and ends of tags that stand whole at the front of the input (HTML Standard, sections 13.2.5.32 to 13.2.5.40).
//!
//! Nearly all tags of a page stand whole in the piece of input that is read, and nearly all of their attributes are a space, a
//! name, `=` and a value in quotes. The states of the Standard read such an attribute character by character into a name and a
//! value, which join the tag when the last quote comes. `front_attributes` reads the name and the value at once, but still into
//! the place of the attribute that is read, from where they are moved into the tag. Two steps more are made at once here.
//!
//! **A whole attribute.** Where the value and its last quote are in the text, and each character of the value stands for itself,
//! `consume_attribute` makes name and value where they are to stay, in the tag. The machine is then after a value in quotes, as
//! the states would have brought it, but that the place of the attribute that is read is as it was: nothing reads it there
//! (`forgotten` in `proofs/Fronts/Whole.antt`). Any other attribute goes the way of `front_attributes`, from the same state: one
//! without a value, with a value without quotes, with a NUL, a carriage return, a line feed or a reference in its value, or one
//! that the end of the piece cuts. Whether the tag has an attribute of that name already is asked as it is there.
//!
//! **The end of the tag.** Where `>` stands behind the attributes that were taken at once, `move_to_end` ends the tag in the same
//! step of `feed`. That this is one step is `MovesOn` of `specs/Fronts.antt`: whatever step ends where this one begins, both
//! together are a step (`moved-then` in `proofs/Feeds/Pieces.antt`).
//!
//! Both are there for speed alone. Without the `if let` of `consume_attribute` and with `Ok(())` as the body of `move_to_end` the
//! tokenizer emits the same tokens: the whole program then takes some 3 % more instructions on a generated page.
ghost use Rattle.std.specs.Prelude.{◌≡◌, ◌<◌, ◌≤◌, List, ℕ, false, length, IfErr, IfOk, IfSome, OnOk};
ghost use Rattle.std.specs.Str.{IsUtf8, chars};
ghost use Rattle.html_tokens.specs.declared.replies.ProcessResult.TheVariants as flow;
ghost use Rattle.markup.specs.declared.fault.ParseFault.TheVariants.{Memory};
ghost use Rattle.html_tokenizer.specs.Calls.{answered};
ghost use Rattle.html_tokenizer.specs.Fronts.{IsInTag, IsNameAt, IsValueIn, IsWholeValue, MovesOn, TakesFront, attributed, ended};

use crate::front_tags::after_byte;
use crate::text_runs::value_stops;
use crate::tokenizer::Tokenizer;
use html_queue::BufferQueue;
use html_tokens::ProcessResult;
use html_tokens::sink::TokenSink;
use html_tokens::states::{AttrValueKind, State};
use markup::{LocalName, ParseFault, Text};

/// A value in quotes of this kind at the front of a text, if each of its characters stands for itself, and what follows it.
#[inline(always)]
fn value_in(kind: AttrValueKind, quote: u8, text: &str) -> Option<(&str, &str)>
    requires ascii { quote < 128 }
    ensures is { IfSome result (λ r. IsValueIn kind quote r.0.now r.1.now text.now) }
    ensures utf8 { IfSome result (λ r. IsUtf8 r.1.now) }
{
    let Some(inner) = after_byte(text, quote) else {
        return None;
    };
    let (value, after) = value_stops(kind).split(inner);
    let Some(rest) = after_byte(after, quote) else {
        return None;
    };
    Some((value, rest))
}

/// The same after `=`.
#[inline(always)]
fn whole_value(text: &str) -> Option<(&str, &str)>
    ensures is { IfSome result (λ r. IsWholeValue r.0.now r.1.now text.now) }
    ensures utf8 { IfSome result (λ r. IsUtf8 r.1.now) }
{
    let Some(inner) = after_byte(text, b'=') else {
        return None;
    };
    if let Some((value, rest)) = value_in(AttrValueKind::DoubleQuoted, b'"', inner) {
        return Some((value, rest));
    }
    let (value, rest) = value_in(AttrValueKind::SingleQuoted, b'\'', inner)?;
    Some((value, rest))
}

impl<Sink: TokenSink> Tokenizer<Sink> {
    /// Adds an attribute of this name and value to the tag, after the one that is read if one is.
    #[inline(always)]
    fn add_whole_attribute(&mut self, name: &str, value: &str) -> Result<(), ParseFault>
        ensures ok { OnOk result (self.new ≡ attributed (ended self.old) (chars name.now) (chars value.now)) }
        ensures fault { IfErr result (λ fault. fault ≡ Memory) }
        ensures sink { self.new.sink ≡ self.old.sink }
    {
        self.end_attribute()?;
        let alloc = self.stream.alloc;
        let name = LocalName::from_str_lowered(alloc, name)?;
        let value = Text::from_str(alloc, value)?;
        self.add_attribute(name, value)?;
        self.state = State::AfterAttributeValueQuoted;
        Ok(())
    }

    /// Takes an attribute of this name after a space, with its value as far as it can be taken at once: what is left of the text.
    #[inline(never)]
    pub(crate) fn consume_attribute<'a>(
        &mut self,
        name: &str,
        after: &'a str,
    ) -> Result<&'a str, ParseFault>
        requires at { IsInTag self.old }
        requires sound { Sink.is_sound (Sink.view self.old.sink) }
        ensures ok { IfOk result (λ rest. (text : List ℕ) → IsNameAt name.now after.now text
            → TakesFront Sink.TokenSink self.old self.new text rest.now) }
        ensures utf8 { IfOk result (λ rest. IsUtf8 rest.now) }
        ensures no_longer { IfOk result (λ rest. length rest.now ≤ length after.now) }
        ensures fault { IfErr result (λ fault. fault ≡ Memory) }
        ensures sink { self.new.sink ≡ self.old.sink }
    {
        if let Some((value, rest)) = whole_value(after) {
            self.add_whole_attribute(name, value)?;
            return Ok(rest);
        }
        self.begin_attribute(name)?;
        self.consume_equals(after)
    }

    /// Ends the tag where `>` stands next and ends it.
    #[inline(always)]
    pub(crate) fn move_to_end(
        &mut self,
        input: &mut BufferQueue,
        answer: &mut ProcessResult<Sink::Handle>,
    ) -> Result<(), ParseFault>
        requires sound { Sink.is_sound (Sink.view self.old.sink) }
        requires goes_on { answer.old ≡ flow.Continue }
        requires unmarked { self.old.stream.discard_bom ≡ false }
        requires heeds { self.old.stream.ignore_lf ≡ false }
        ensures { MovesOn Sink.TokenSink self.old self.new input.old input.new (answered answer.new result) }
    {
        if !self.is_in_tag() {
            return Ok(());
        }
        let text = input.as_str();
        let Some(_rest) = after_byte(text, b'>') else {
            return Ok(());
        };
        input.skip(1);
        self.close_tag(answer)
    }
}
