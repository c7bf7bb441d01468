//! The end tag that ends raw text, as far as it was read (HTML Standard, sections 13.2.5.11, 13.2.5.14, 13.2.5.17 and 13.2.5.25).
ghost use Rattle.std.specs.Prelude.{◌≡◌, ◌∷◌, [], ◌++◌, ℕ, List, true, false, map, IfOk, IfErr, OnOk};
ghost use Rattle.std.specs.Char.{is_ascii_alphabetic, to_ascii_lowercase};
ghost use Rattle.std.specs.List.{list_all};
ghost use Rattle.std.specs.Str.{chars};
ghost use Rattle.markup.specs.declared.fault.ParseFault.TheVariants.{Memory};
ghost use Rattle.html_tokens.specs.RawText.{is_fitting_end};
ghost use Rattle.html_tokens.specs.Tags.{or_last};
ghost use Rattle.html_tokenizer_parts.specs.Words.{BeginsEnd, begins_end, ends_raw_text};

use crate::characters::ends_tag_name;
use crate::letters::Letters;
use markup::{LocalName, ParseFault, Text};
use std::alloc::Global;
use std::marker::Model;

/// The name that the end tag has to have, and the letters of it that were read.
#[derive(Drop)]
pub struct RawEnd {
    /// The name of the last start tag, if one was told.
    name: Option<LocalName>,
    /// Letters that this name begins with, in any case, as they were written.
    letters: Letters,
}

impl Model for RawEnd {
    ghost use Rattle.std.specs.Prelude.{◌≡◌, true};
    ghost use Rattle.html_tokenizer_parts.specs.Words.{FittingEnd, begins_end};

    ghost Value = { FittingEnd };

    ghost view = { λ e. record { name = e.name; letters = e.letters } };

    ghost invariant = { λ e. begins_end e.name e.letters ≡ true };
}

impl RawEnd {
    /// No letters yet of this name.
    pub fn new(alloc: Global, name: Option<Text>) -> RawEnd
        ensures { result ≡ record { name = name; letters = [] } }
    {
        RawEnd {
            name: match name {
                Some(name) => Some(LocalName::from_text(name)),
                None => None,
            },
            letters: Letters::new(alloc),
        }
    }

    /// Keeps a name as that of the last start tag, if there is one.
    #[inline(always)]
    pub fn keep_name(&mut self, alloc: Global, name: Option<LocalName>)
        ensures { self.new.name ≡ or_last name self.old.name }
    {
        if name.is_some() {
            self.letters = Letters::new(alloc);
            self.name = name;
        }
    }

    /// Whether the name goes on by this character, in any case, after such letters.
    fn has_next(&self, letters: &Letters, c: char) -> bool
        ensures letter { result ≡ true → is_ascii_alphabetic c ≡ true }
        ensures front { result ≡ true → begins_end self.now.name letters.now ≡ true → begins_end self.now.name
            (letters.now ++ c ∷ []) ≡ true }
        ensures apart { result ≡ false → ends_raw_text self.now.name letters.now c ≡ false → (t : List ℕ)
            → is_fitting_end self.now.name (47 ∷ (letters.now ++ c ∷ t)) ≡ false }
    {
        let _letters = letters.as_str();
        if !c.is_ascii_alphabetic() {
            return false;
        }
        match &self.name {
            Some(name) => letters.is_next_in(name.as_str(), c),
            None => false,
        }
    }

    /// Whether the name begins with this character, in any case.
    pub fn begins_with(&self, alloc: Global, c: char) -> bool
        ensures letter { result ≡ true → is_ascii_alphabetic c ≡ true }
        ensures front { result ≡ true → begins_end self.now.name (c ∷ []) ≡ true }
        ensures apart { result ≡ false → (t : List ℕ) → is_fitting_end self.now.name (47 ∷ c ∷ t) ≡ false }
    {
        self.has_next(&Letters::new(alloc), c)
    }

    /// Whether the name goes on by this character, in any case, after the letters.
    pub fn goes_on_by(&self, c: char) -> bool
        ensures letter { result ≡ true → is_ascii_alphabetic c ≡ true }
        ensures front { result ≡ true → begins_end self.now.name (self.now.letters ++ c ∷ []) ≡ true }
        ensures apart { result ≡ false → ends_raw_text self.now.name self.now.letters c ≡ false → (t : List ℕ)
            → is_fitting_end self.now.name (47 ∷ (self.now.letters ++ c ∷ t)) ≡ false }
    {
        self.has_next(&self.letters, c)
    }

    /// Holds the name's first letter.
    pub fn begin(&mut self, alloc: Global, letter: char) -> Result<(), ParseFault>
        requires letter { is_ascii_alphabetic letter ≡ true }
        requires front { begins_end self.old.name (letter ∷ []) ≡ true }
        ensures ok { OnOk result (self.new ≡ record self.old { letters = letter ∷ [] }) }
        ensures fault { IfErr result (λ fault. fault ≡ Memory) }
    {
        self.letters = Letters::first(alloc, letter)?;
        Ok(())
    }

    /// Holds one letter more.
    pub fn push(&mut self, letter: char) -> Result<(), ParseFault>
        requires letter { is_ascii_alphabetic letter ≡ true }
        requires front { begins_end self.old.name (self.old.letters ++ letter ∷ []) ≡ true }
        ensures ok { OnOk result (self.new ≡ record self.old { letters = self.old.letters ++ letter ∷ [] }) }
        ensures fault { IfErr result (λ fault. fault ≡ Memory) }
    {
        self.letters.push(letter)
    }

    /// The letters, as they were written, which begin the name.
    pub fn as_str(&self) -> &str
        ensures is { chars result.now ≡ self.now.letters }
        ensures letters { list_all is_ascii_alphabetic self.now.letters ≡ true }
        ensures begins { BeginsEnd self.now.name self.now.letters }
    {
        self.letters.as_str()
    }

    /// Whether the letters are the whole name, and this character ends it.
    pub fn ends_before(&self, c: char) -> bool
        ensures { result ≡ ends_raw_text self.now.name self.now.letters c }
    {
        match &self.name {
            Some(name) => {
                !self.letters.is_empty()
                    && self.letters.is_any_case(name.as_str())
                    && ends_tag_name(c)
            }
            None => false,
        }
    }

    /// The letters lowered.
    pub fn lowered(&self, alloc: Global) -> Result<Text, ParseFault>
        ensures ok { IfOk result (λ name. name ≡ map to_ascii_lowercase self.now.letters) }
        ensures letters { list_all is_ascii_alphabetic self.now.letters ≡ true }
        ensures fault { IfErr result (λ fault. fault ≡ Memory) }
    {
        self.letters.lowered(alloc)
    }

    /// The letters, copied.
    pub fn copied(&self, alloc: Global) -> Result<Letters, ParseFault>
        ensures ok { IfOk result (λ word. word ≡ self.now.letters) }
        ensures fault { IfErr result (λ fault. fault ≡ Memory) }
    {
        self.letters.copied(alloc)
    }
}
