//! Tokens (HTML Standard, section 13.2.5).
ghost use Rattle.std.specs.Prelude.{◌≡◌, IfOk, IfErr};
ghost use Rattle.markup.specs.declared.fault.ParseFault.TheVariants.{Memory};

use crate::tags::Tag;
use markup::{ParseFault, Text};
use std::alloc::Global;
use std::borrow::CowStr;

/// A doctype. By default nothing is given and `force_quirks` is not set.
#[derive(Debug, Default, Drop, PartialEq, Eq)]
pub struct Doctype {
    /// The name, with ASCII letters lowered, if there is one.
    pub name: Option<Text>,
    /// The identifier after `PUBLIC`, if there is one.
    pub public_id: Option<Text>,
    /// The identifier after `SYSTEM`, or after the public one, if there is one.
    pub system_id: Option<Text>,
    /// Whether the doctype is so faulty that the document is laid out in quirks mode.
    pub force_quirks: bool,
}

impl Doctype {
    /// A doctype of its own with the same parts.
    pub fn copy(&self, alloc: Global) -> Result<Doctype, ParseFault>
        ensures ok { IfOk result (λ copied. copied ≡ self.now) }
        ensures fault { IfErr result (λ fault. fault ≡ Memory) }
    {
        Ok(Doctype {
            name: copied(alloc, &self.name)?,
            public_id: copied(alloc, &self.public_id)?,
            system_id: copied(alloc, &self.system_id)?,
            force_quirks: self.force_quirks,
        })
    }
}

/// A text of its own with the same characters, where there is one.
pub(crate) fn copied(alloc: Global, text: &Option<Text>) -> Result<Option<Text>, ParseFault>
    ensures ok { IfOk result (λ copied. copied ≡ text.now) }
    ensures fault { IfErr result (λ fault. fault ≡ Memory) }
{
    match text {
        None => Ok(None),
        Some(text) => Ok(Some(text.copy(alloc)?)),
    }
}

/// What the tokenizer tells a sink.
#[derive(Debug, Drop, PartialEq, Eq)]
pub enum Token {
    /// A doctype.
    DoctypeToken(Doctype),
    /// A start tag or an end tag.
    TagToken(Tag),
    /// A comment.
    CommentToken(Text),
    /// Characters of text, of which none is U+0000.
    CharacterTokens(Text),
    /// U+0000, in text whose reader decides what becomes of it.
    NullCharacterToken,
    /// The end of the input.
    EOFToken,
    /// A parse error, in words.
    ParseError(CowStr<'static>),
}
