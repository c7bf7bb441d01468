//! Where the bytes of a text lie.
ghost use Rattle.std.specs.Prelude.{◌≡◌, ◌++◌, [], IfOk, is_ok, if◌then◌else◌, encode_utf8};
ghost use Rattle.std.specs.Str.{IsUtf8};
ghost use Rattle.std.specs.String.{string_bytes};

use crate::short_text::ShortText;
use std::alloc::{AllocError, Global};
use std::mem;

/// A short text lies within the value, a longer one in memory of its own. A short text has what it would grow in.
#[derive(Drop)]
pub(crate) enum TextForm {
    Short(ShortText, Global),
    Long(String),
}

impl TextForm {
    ghost use Rattle.markup.specs.TextForm.{form_bytes};

    /// No bytes, which take no memory.
    pub(crate) fn empty(alloc: Global) -> TextForm
        ensures { form_bytes result ≡ [] }
    {
        TextForm::Short(ShortText::new(), alloc)
    }

    /// The bytes of characters that are lent.
    pub(crate) fn from_str(alloc: Global, text: &str) -> Result<TextForm, AllocError>
        ensures { IfOk result (λ form. form_bytes form ≡ text.now) }
    {
        let mut short = ShortText::new();
        if !short.has_room(text.len()) {
            return Ok(TextForm::Long(String::from_str(alloc, text)?));
        }
        short.push_str(text);
        Ok(TextForm::Short(short, alloc))
    }

    /// The same bytes, short where they fit.
    pub(crate) fn copy(&self, alloc: Global) -> Result<TextForm, AllocError>
        ensures { IfOk result (λ form. form_bytes form ≡ form_bytes self.now) }
    {
        match self {
            TextForm::Short(short, _) => Ok(TextForm::Short(short.copy(), alloc)),
            TextForm::Long(text) => TextForm::from_str(alloc, text.as_str()),
        }
    }

    /// What the text grows in.
    pub(crate) fn allocator(&self) -> Global {
        match self {
            TextForm::Short(_, alloc) => *alloc,
            TextForm::Long(text) => *text.allocator(),
        }
    }

    /// Moves the bytes out, and leaves none.
    pub(crate) fn take(&mut self) -> TextForm
        ensures taken { result ≡ self.old }
        ensures left { form_bytes self.new ≡ [] }
    {
        let empty = TextForm::empty(self.allocator());
        mem::replace(self, empty)
    }

    pub(crate) fn as_str(&self) -> &str
        ensures { result.now ≡ form_bytes self.now }
    {
        match self {
            TextForm::Short(short, _) => short.as_str(),
            TextForm::Long(text) => text.as_str(),
        }
    }

    /// A string of the same bytes.
    pub(crate) fn into_string(self) -> Result<String, AllocError>
        ensures { IfOk result (λ text. string_bytes text ≡ form_bytes self) }
    {
        match self {
            TextForm::Short(short, alloc) => String::from_str(alloc, short.as_str()),
            TextForm::Long(text) => Ok(text),
        }
    }

    /// Drops the bytes, and keeps the memory.
    pub(crate) fn clear(&mut self)
        ensures { form_bytes self.new ≡ [] }
    {
        match self {
            TextForm::Short(short, _) => short.clear(),
            TextForm::Long(text) => text.clear(),
        }
    }

    /// Adds a character at the end.
    pub(crate) fn push(&mut self, character: char) -> Result<(), AllocError>
        ensures bytes { form_bytes self.new ≡ (if is_ok result then form_bytes self.old ++ encode_utf8 character else form_bytes self.old) }
        ensures utf8 { IsUtf8 (form_bytes self.old) }
    {
        match self {
            TextForm::Short(short, _) if character.is_ascii() && short.has_room(1) => {
                short.push_ascii(character as u8);
                Ok(())
            }
            _ => {
                let mut bytes = [0; 4];
                self.push_str(character.encode_utf8(&mut bytes))
            }
        }
    }

    /// Adds characters at the end.
    pub(crate) fn push_str(&mut self, more: &str) -> Result<(), AllocError>
        ensures bytes { form_bytes self.new ≡ (if is_ok result then form_bytes self.old ++ more.now else form_bytes self.old) }
        ensures utf8 { IsUtf8 (form_bytes self.old) }
    {
        match self {
            TextForm::Long(text) => text.push_str(more),
            TextForm::Short(short, _) if short.has_room(more.len()) => {
                short.push_str(more);
                Ok(())
            }
            TextForm::Short(short, alloc) => {
                let long = joined(*alloc, short.as_str(), more)?;
                *self = TextForm::Long(long);
                Ok(())
            }
        }
    }
}

/// One string of two texts.
fn joined(alloc: Global, front: &str, back: &str) -> Result<String, AllocError>
    ensures { IfOk result (λ text. string_bytes text ≡ front.now ++ back.now) }
{
    let mut text = String::with_capacity(alloc, front.len() + back.len())?;
    text.push_str(front)?;
    text.push_str(back)?;
    Ok(text)
}
