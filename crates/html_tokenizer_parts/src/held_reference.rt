//! What is known after an `&`: what is held of a character reference, or that an unknown name stands there.
ghost use Rattle.std.specs.Prelude.{◌≡◌, ◌≤◌, ◌∷◌, [], ◌++◌, true, IfErr, OnOk, drop, length};
ghost use Rattle.std.specs.List.{list_all};
ghost use Rattle.std.specs.Str.{chars};
ghost use Rattle.markup.specs.declared.fault.ParseFault.TheVariants.{Memory};
ghost use Rattle.html_tokenizer_parts.specs.HeldChars.{is_held};

use markup::{ParseFault, Text};
use std::alloc::Global;
use std::marker::Model;

/// What was read after the `&` of a reference: letters and digits of ASCII, `#` and `;`.
#[derive(Drop)]
pub struct HeldReference {
    text: Text,
}

impl Model for HeldReference {
    ghost use Rattle.std.specs.Prelude.{List, ℕ, ◌≡◌, true};
    ghost use Rattle.std.specs.List.{list_all};
    ghost use Rattle.html_tokenizer_parts.specs.HeldChars.{is_held};

    ghost Value = { List ℕ };

    ghost view = { λ h. h.text };

    ghost invariant = { λ h. list_all is_held h.text ≡ true };
}

/// What stands after an `&`.
#[derive(Drop)]
pub enum Ampersand {
    /// What is held of a reference that may go on.
    Held(HeldReference),
    /// A name that is in no table, of which nothing is held. It goes on with letters and digits, and `;` after it is an error.
    Unknown,
}

impl HeldReference {
    /// Nothing after the `&` yet.
    pub fn new(alloc: Global) -> HeldReference
        ensures { result ≡ [] }
    {
        HeldReference {
            text: Text::empty(alloc),
        }
    }

    /// Puts a character at the end.
    pub fn push(&mut self, c: char) -> Result<(), ParseFault>
        requires { is_held c ≡ true }
        ensures ok { OnOk result (self.new ≡ self.old ++ c ∷ []) }
        ensures fault { IfErr result (λ fault. fault ≡ Memory) }
    {
        self.text.push(c)
    }

    /// The characters, which are their bytes too.
    pub fn as_str(&self) -> &str
        ensures bytes { result.now ≡ self.now }
        ensures is { chars result.now ≡ self.now }
        ensures held { list_all is_held self.now ≡ true }
    {
        self.text.as_str()
    }

    /// The characters after the first so many.
    pub fn behind(&self, count: usize) -> &str
        requires { count ≤ length self.now }
        ensures { chars result.now ≡ drop count self.now }
    {
        &self.as_str()[count..]
    }
}
