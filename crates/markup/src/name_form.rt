//! How the name of an element or an attribute is held.
ghost use Rattle.std.specs.Prelude.{◌≡◌, ◌<◌, ◌++◌, ◌∷◌, [], length, false, slice_index_or, IfSome, IfNone, IfOk, OnOk, OnErr};
ghost use Rattle.std.specs.List.{list_any};
ghost use Rattle.std.specs.Str.{bytes_eq, chars};
ghost use Rattle.markup.specs.KnownNames.{names, IsNameAt};
ghost use Rattle.markup.specs.TextForm.{form_bytes};

use crate::known_names::{self, KnownName};
use crate::short_text::ShortText;
use crate::text_form::TextForm;
use std::alloc::{AllocError, Global};
use std::mem;

/// A known name is held as its place in the table, any other as a text is. Each has what it would grow in.
#[derive(Drop)]
pub(crate) enum NameForm {
    Known(KnownName, Global),
    Short(ShortText, Global),
    Long(String),
}

impl NameForm {
    ghost use Rattle.markup.specs.NameForm.{form_characters, IsPlaced};

    /// No characters, which take no memory.
    pub(crate) fn empty(alloc: Global) -> NameForm
        ensures characters { form_characters result ≡ [] }
        ensures placed { IsPlaced result }
    {
        NameForm::Short(ShortText::new(), alloc)
    }

    /// A text that is no known name.
    fn other(text: TextForm) -> NameForm
        requires { list_any (bytes_eq (chars (form_bytes text))) names ≡ false }
        ensures characters { form_characters result ≡ chars (form_bytes text) }
        ensures placed { IsPlaced result }
    {
        match text {
            TextForm::Short(short, alloc) => NameForm::Short(short, alloc),
            TextForm::Long(long) => NameForm::Long(long),
        }
    }

    /// The name that a text is.
    pub(crate) fn of(text: TextForm) -> NameForm
        ensures characters { form_characters result ≡ chars (form_bytes text) }
        ensures placed { IsPlaced result }
    {
        match known_names::known_name(text.as_str()) {
            Some(known) => NameForm::Known(known, text.allocator()),
            None => NameForm::other(text),
        }
    }

    /// The name of characters that are lent.
    pub(crate) fn from_str(alloc: Global, text: &str) -> Result<NameForm, AllocError>
        ensures characters { IfOk result (λ form. form_characters form ≡ chars text.now) }
        ensures placed { IfOk result (λ form. IsPlaced form) }
    {
        match known_names::known_name(text) {
            Some(known) => Ok(NameForm::Known(known, alloc)),
            None => Ok(NameForm::other(TextForm::from_str(alloc, text)?)),
        }
    }

    /// The known name that this is, if it is one.
    pub(crate) fn known(&self) -> Option<KnownName>
        requires { IsPlaced self.now }
        ensures found { IfSome result (λ known. IsNameAt known.place (form_characters self.now)) }
        ensures missing { IfNone result (list_any (bytes_eq (form_characters self.now)) names ≡ false) }
    {
        match self {
            NameForm::Known(known, _) => Some(*known),
            NameForm::Short(_, _) => None,
            NameForm::Long(_) => None,
        }
    }

    /// The characters, lent.
    pub(crate) fn as_str(&self) -> &str
        ensures { chars result.now ≡ form_characters self.now }
    {
        match self {
            NameForm::Known(known, _) => known.as_str(),
            NameForm::Short(short, _) => short.as_str(),
            NameForm::Long(long) => long.as_str(),
        }
    }

    /// What the name grows in.
    fn allocator(&self) -> Global {
        match self {
            NameForm::Known(_, alloc) => *alloc,
            NameForm::Short(_, alloc) => *alloc,
            NameForm::Long(long) => *long.allocator(),
        }
    }

    /// Moves the characters out, and leaves none.
    pub(crate) fn take(&mut self) -> NameForm
        ensures taken { result ≡ self.old }
        ensures left { form_characters self.new ≡ [] }
        ensures placed { IsPlaced self.new }
    {
        let empty = NameForm::empty(self.allocator());
        mem::replace(self, empty)
    }

    /// The same characters.
    pub(crate) fn copy(&self, alloc: Global) -> Result<NameForm, AllocError>
        requires { IsPlaced self.now }
        ensures characters { IfOk result (λ form. form_characters form ≡ form_characters self.now) }
        ensures placed { IfOk result (λ form. IsPlaced form) }
    {
        match self {
            NameForm::Known(known, _) => Ok(NameForm::Known(*known, alloc)),
            NameForm::Short(short, _) => Ok(NameForm::Short(short.copy(), alloc)),
            NameForm::Long(long) => {
                Ok(NameForm::other(TextForm::from_str(alloc, long.as_str())?))
            }
        }
    }

    /// Moves the characters out as a text, and leaves none.
    fn take_text(&mut self) -> Result<TextForm, AllocError>
        ensures ok { IfOk result (λ text. chars (form_bytes text) ≡ form_characters self.old) }
        ensures err { OnErr result (self.new ≡ self.old) }
    {
        match self.take() {
            NameForm::Known(known, alloc) => {
                match TextForm::from_str(alloc, known.as_str()) {
                    Ok(text) => Ok(text),
                    Err(fault) => {
                        *self = NameForm::Known(known, alloc);
                        Err(fault)
                    }
                }
            }
            NameForm::Short(short, alloc) => Ok(TextForm::Short(short, alloc)),
            NameForm::Long(long) => Ok(TextForm::Long(long)),
        }
    }

    /// Adds a character at the end.
    pub(crate) fn push(&mut self, character: char) -> Result<(), AllocError>
        requires { IsPlaced self.old }
        ensures ok { OnOk result (form_characters self.new ≡ form_characters self.old ++ character ∷ []) }
        ensures err { OnErr result (form_characters self.new ≡ form_characters self.old) }
        ensures placed { IsPlaced self.new }
    {
        let mut text = self.take_text()?;
        let pushed = text.push(character);
        *self = NameForm::of(text);
        pushed
    }
}
