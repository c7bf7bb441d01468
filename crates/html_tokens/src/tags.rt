//! Tags (HTML Standard, section 13.2.5).
ghost use Rattle.std.specs.Prelude.{◌≡◌, [], ◌↔◌, IfOk, IfErr, IsTrue};
ghost use Rattle.html_tokens.specs.TagEquality.{IsEquivModuloAttrOrder, value_of};
ghost use Rattle.markup.specs.declared.fault.ParseFault.TheVariants.{Memory};

use markup::{Attributes, LocalName, ParseFault, Text};
use std::alloc::Global;

/// Whether a tag opens or closes an element.
#[derive(Clone, Copy, Debug, PartialEq, Eq, Hash)]
pub enum TagKind {
    /// As `<p>`.
    StartTag,
    /// As `</p>`.
    EndTag,
}

/// A tag. The names of its attributes are distinct: of those written with one name the first stays.
#[derive(Debug, Drop, PartialEq, Eq)]
pub struct Tag {
    /// Whether it opens or closes.
    pub kind: TagKind,
    /// The name, with ASCII letters lowered.
    pub name: LocalName,
    /// Whether `/` stands right before the `>`.
    pub self_closing: bool,
    /// The attributes in the order in which they are written.
    pub attrs: Attributes,
    /// Whether an attribute was dropped because of its name.
    pub had_duplicate_attributes: bool,
}

impl Tag {
    /// Moves the name and the attributes out, with the rest. What is left has neither.
    pub fn take(&mut self) -> Tag
        ensures taken { result ≡ self.old }
        ensures left { self.new ≡ record self.old { name = []; attrs = [] } }
    {
        let kind = self.kind;
        let self_closing = self.self_closing;
        let had_duplicate_attributes = self.had_duplicate_attributes;
        Tag {
            kind,
            name: self.name.take(),
            self_closing,
            attrs: self.attrs.take(),
            had_duplicate_attributes,
        }
    }

    /// A tag of its own with the same parts.
    pub fn copy(&self, alloc: Global) -> Result<Tag, ParseFault>
        ensures ok { IfOk result (λ copied. copied ≡ self.now) }
        ensures fault { IfErr result (λ fault. fault ≡ Memory) }
    {
        Ok(Tag {
            kind: self.kind,
            name: self.name.copy(alloc)?,
            self_closing: self.self_closing,
            attrs: self.attrs.copy(alloc)?,
            had_duplicate_attributes: self.had_duplicate_attributes,
        })
    }

    /// Whether both are tags of one kind and name whose attributes are the same in some order. `self_closing` and
    /// `had_duplicate_attributes` count for nothing.
    pub fn equiv_modulo_attr_order(&self, other: &Tag) -> bool
        ensures { IsTrue result ↔ IsEquivModuloAttrOrder self.now other.now }
    {
        self.kind == other.kind
            && self.name == other.name
            && self.attrs.is_permutation(&other.attrs)
    }

    /// The value of the first attribute with this local name, in any namespace.
    pub fn get_attribute(&self, alloc: Global, name: &LocalName) -> Result<Option<Text>, ParseFault>
        ensures ok { IfOk result (λ value. value ≡ value_of name.now self.now.attrs) }
        ensures fault { IfErr result (λ fault. fault ≡ Memory) }
    {
        match self
            .attrs
            .as_slice()
            .iter()
            .find(|attribute| attribute.name.local == *name)
        {
            None => Ok(None),
            Some(attribute) => Ok(Some(attribute.value.copy(alloc)?)),
        }
    }
}
