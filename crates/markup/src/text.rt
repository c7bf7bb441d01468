//! Texts that own their characters.
ghost use Rattle.std.specs.Prelude.{◌≡◌, ◌==◌, ◌++◌, ◌∷◌, [], IfOk, IfErr, OnOk, OnErr, length, IsTrue, map};
ghost use Rattle.std.specs.Str.{bytes_eq, chars};
ghost use Rattle.std.specs.Char.{is_ascii_uppercase, to_ascii_lowercase};
ghost use Rattle.std.specs.List.{list_any};
ghost use Rattle.std.specs.String.{string_bytes};
ghost use Rattle.markup.specs.Plain.{is_plain};
ghost use Rattle.markup.specs.declared.fault.ParseFault.TheVariants.{Memory};

use crate::characters;
use crate::fault::ParseFault;
use crate::text_form::TextForm;
use std::alloc::Global;
use std::cmp::Ordering;
use std::fmt::{self, Debug};
use std::hash::{Hash, Hasher};
use std::marker::Model;

/// An owned text. A contract sees the list of its characters. Short texts, of at most 30 bytes, take no memory of their own.
#[derive(Drop)]
pub struct Text {
    form: TextForm,
}

impl Model for Text {
    ghost use Rattle.std.specs.Prelude.{List, ℕ};
    ghost use Rattle.std.specs.Str.{chars};

    ghost Value = { List ℕ };

    ghost use Rattle.markup.specs.TextForm.{form_bytes};

    ghost view = { λ t. chars (form_bytes t.form) };
}

impl Text {
    ghost use Rattle.markup.specs.TextForm.{form_bytes};

    /// The text of a string, which keeps its memory and its allocator.
    pub fn new(text: String) -> Text
        ensures { result ≡ chars (string_bytes text) }
    {
        Text {
            form: TextForm::Long(text),
        }
    }

    /// No characters. The text grows in the memory of `alloc`.
    pub fn empty(alloc: Global) -> Text
        ensures { result ≡ [] }
    {
        Text {
            form: TextForm::empty(alloc),
        }
    }

    /// A text of characters that are lent.
    pub fn from_str(alloc: Global, text: &str) -> Result<Text, ParseFault>
        ensures ok { IfOk result (λ made. made ≡ chars text.now) }
        ensures fault { IfErr result (λ fault. fault ≡ Memory) }
    {
        Ok(Text {
            form: TextForm::from_str(alloc, text)?,
        })
    }

    /// The text, lent.
    pub fn as_str(&self) -> &str
        ensures { chars result.now ≡ self.now }
    {
        self.form.as_str()
    }

    /// A string of the same characters. A text that is not short gives its own memory.
    pub fn into_string(self) -> Result<String, ParseFault>
        ensures ok { IfOk result (λ text. chars (string_bytes text) ≡ self) }
        ensures fault { IfErr result (λ fault. fault ≡ Memory) }
    {
        let Text { form } = self;
        Ok(form.into_string()?)
    }

    /// What the text is held as.
    pub(crate) fn into_form(self) -> TextForm
        ensures { chars (form_bytes result) ≡ self }
    {
        let Text { form } = self;
        form
    }

    /// Whether there is no character.
    pub fn is_empty(&self) -> bool
        ensures { result ≡ (length self.now == 0) }
    {
        self.as_str().is_empty()
    }

    /// Whether this is the given text, which is of ASCII alone.
    pub fn is(&self, plain: &str) -> bool
        requires { IsTrue (is_plain plain.now) }
        ensures { result ≡ bytes_eq self.now plain.now }
    {
        characters::are_same(self.as_str(), plain)
    }

    /// A text of its own with the same characters.
    pub fn copy(&self, alloc: Global) -> Result<Text, ParseFault>
        ensures ok { IfOk result (λ copied. copied ≡ self.now) }
        ensures fault { IfErr result (λ fault. fault ≡ Memory) }
    {
        Ok(Text {
            form: self.form.copy(alloc)?,
        })
    }

    /// Moves the characters out with their memory, and leaves none.
    pub fn take(&mut self) -> Text
        ensures taken { result ≡ self.old }
        ensures left { self.new ≡ [] }
    {
        Text {
            form: self.form.take(),
        }
    }

    /// Drops all characters, and keeps the memory.
    pub fn clear(&mut self)
        ensures { self.new ≡ [] }
    {
        self.form.clear();
    }

    /// Adds a character at the end.
    pub fn push(&mut self, character: char) -> Result<(), ParseFault>
        ensures ok { OnOk result (self.new ≡ self.old ++ character ∷ []) }
        ensures err { OnErr result (self.new ≡ self.old) }
        ensures fault { IfErr result (λ fault. fault ≡ Memory) }
    {
        self.form.push(character)?;
        Ok(())
    }

    /// Adds characters at the end.
    pub fn push_str(&mut self, more: &str) -> Result<(), ParseFault>
        ensures ok { OnOk result (self.new ≡ self.old ++ chars more.now) }
        ensures err { OnErr result (self.new ≡ self.old) }
        ensures fault { IfErr result (λ fault. fault ≡ Memory) }
    {
        self.form.push_str(more)?;
        Ok(())
    }

    /// Adds characters at the end, with ASCII letters lowered.
    pub fn push_lowered(&mut self, more: &str) -> Result<(), ParseFault>
        ensures ok { OnOk result (self.new ≡ self.old ++ map to_ascii_lowercase (chars more.now)) }
        ensures err { OnErr result (self.new ≡ self.old) }
        ensures fault { IfErr result (λ fault. fault ≡ Memory) }
    {
        if !has_upper(more) {
            return self.push_str(more);
        }
        let lowered = lowered(self.form.allocator(), more)?;
        self.append(&lowered)
    }

    /// Adds another text at the end.
    pub fn append(&mut self, more: &Text) -> Result<(), ParseFault>
        ensures ok { OnOk result (self.new ≡ self.old ++ more.now) }
        ensures err { OnErr result (self.new ≡ self.old) }
        ensures fault { IfErr result (λ fault. fault ≡ Memory) }
    {
        self.push_str(more.as_str())
    }
}

/// Whether a text has an upper-case ASCII letter.
fn has_upper(text: &str) -> bool
    ensures { result ≡ list_any is_ascii_uppercase (chars text.now) }
{
    text.chars().any(|c| c.is_ascii_uppercase())
}

/// The characters with ASCII letters lowered.
fn lowered(alloc: Global, text: &str) -> Result<Text, ParseFault>
    ensures ok { IfOk result (λ made. made ≡ map to_ascii_lowercase (chars text.now)) }
    ensures fault { IfErr result (λ fault. fault ≡ Memory) }
{
    let mut made = Text::empty(alloc);
    for c in text.chars() {
        made.push(c.to_ascii_lowercase())?;
    }
    Ok(made)
}

impl Debug for Text {
    fn fmt<W: fmt::Write>(&self, f: &mut fmt::Formatter<W>) -> fmt::Result {
        Debug::fmt(self.as_str(), f)
    }
}

impl PartialEq for Text {
    ghost use Rattle.std.specs.Prelude.{nat_eq};
    ghost use Rattle.std.specs.Cmp.{partial_equiv_from_equiv};
    ghost use Rattle.std.specs.Cmp.Lexicographic.{pointwise, nat_list_eq_equiv};

    ghost eq = { pointwise nat_eq };

    ghost laws = { partial_equiv_from_equiv nat_list_eq_equiv };

    fn eq(&self, other: &Text) -> bool {
        characters::are_same(self.as_str(), other.as_str())
    }
}

impl Eq for Text {
    ghost use Rattle.std.specs.Cmp.Lexicographic.{nat_list_eq_equiv};

    ghost laws = { nat_list_eq_equiv };
}

// Texts are ordered by their first characters that differ, which is also the order of their bytes.
impl PartialOrd for Text {
    ghost use Rattle.std.specs.Prelude.{Some};
    ghost use Rattle.std.specs.Ordering.{nat_cmp};
    ghost use Rattle.std.specs.Cmp.Lexicographic.{slice_cmp, texts_po};

    ghost partial_cmp = { λ a b. Some (slice_cmp nat_cmp a b) };

    ghost laws = { texts_po };

    fn partial_cmp(&self, other: &Text) -> Option<Ordering> {
        Some(self.cmp(other))
    }
}

impl Ord for Text {
    ghost use Rattle.std.specs.Prelude.{refl};
    ghost use Rattle.std.specs.Ordering.{nat_cmp};
    ghost use Rattle.std.specs.Cmp.Lexicographic.{slice_cmp, nat_list_cmp_total, texts_ties};

    ghost cmp = { slice_cmp nat_cmp };

    ghost total = { nat_list_cmp_total };

    ghost matches_partial_cmp = { λ a b. refl };

    ghost matches_eq = { λ a b. texts_ties a b };

    fn cmp(&self, other: &Text) -> Ordering {
        characters::compared(self.as_str(), other.as_str())
    }
}

impl Hash for Text {
    ghost use Rattle.std.specs.Prelude.{encode_utf8_all};
    ghost use Rattle.std.specs.Hash as fed;
    ghost use Rattle.std.specs.Cmp.Rules.{hashing};
    ghost use Rattle.std.proofs.Common.{rules};

    ghost hash_input = { λ text. fed.str (encode_utf8_all text) };

    ghost respects_eq = { Prim.search (hashing, rules) };

    fn hash<H: Hasher>(&self, state: &mut H) {
        characters::feed(self.as_str(), state);
    }
}
