//! Names that selectors ask for.
ghost use Rattle.std.specs.Prelude.{◌≡◌, IfErr, IfOk, map};
ghost use Rattle.std.specs.Char.{to_ascii_lowercase};
ghost use Rattle.markup.specs.declared.fault.ParseFault.TheVariants.{Memory};

use markup::{ParseFault, Text};
use std::alloc::Global;
use std::marker::Model;

/// A name as it is written in a selector, with the same in lower case, which is what HTML's elements and their attributes are asked for
/// (HTML Standard, section 4.16.2). A contract sees the characters as written.
#[derive(Drop, Debug)]
pub struct Name {
    written: Text,
    lowered: Text,
}

impl Model for Name {
    ghost use Rattle.std.specs.Prelude.{◌≡◌, List, ℕ, map};
    ghost use Rattle.std.specs.Char.{to_ascii_lowercase};

    ghost Value = { List ℕ };

    ghost view = { λ name. name.written };

    ghost invariant = { λ name. name.lowered ≡ map to_ascii_lowercase name.written };
}

impl Name {
    /// A name of these characters.
    pub fn new(alloc: Global, written: Text) -> Result<Name, ParseFault>
        ensures ok { IfOk result (λ made. made ≡ written) }
        ensures fault { IfErr result (λ fault. fault ≡ Memory) }
    {
        let mut lowered = Text::empty(alloc);
        lowered.push_lowered(written.as_str())?;
        Ok(Name { written, lowered })
    }

    /// The name as it is written.
    pub fn written(&self) -> &Text
        ensures { result.now ≡ self.now }
    {
        &self.written
    }

    /// The name with its ASCII letters in lower case.
    pub fn lowered(&self) -> &Text
        ensures { result.now ≡ map to_ascii_lowercase self.now }
    {
        &self.lowered
    }
}
