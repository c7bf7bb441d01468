//! Tokens as the rules take them: lent, each with its name and what is known of that.
ghost use Rattle.std.specs.Prelude.{◌≡◌, IfErr, IfOk};
ghost use Rattle.html_rules.specs.Tokens.{attributes_of, class_fits, is_white, text_of};
ghost use Rattle.html_modes.specs.Tables.{class_of};
ghost use Rattle.html_tree_builder.specs.Told.{IsTold, is_tag, is_tag_in, token_of};
ghost use Rattle.markup.specs.declared.fault.ParseFault.TheVariants.{Memory};
ghost use Rattle.std.specs.Str.{chars};

use html_modes::Class;
use html_names::ElementClass;
use html_rules::TagSet;
use html_tokens::{Doctype, Tag, TagKind};
use markup::{Attributes, LocalName, ParseFault, Text};
use std::alloc::Global;

/// What a token is.
#[derive(Clone, Copy)]
pub(crate) enum Content<'a> {
    /// A tag.
    Tag(&'a Tag),
    /// Characters.
    Characters(&'a str),
    /// U+0000.
    Null,
    /// A comment.
    Comment(&'a Text),
    /// A doctype that ends text in a table.
    Doctype(&'a Doctype),
    /// The end of the input.
    EndOfFile,
}

/// A token. Its name is that of a tag, and is empty where it is no tag.
#[derive(Clone, Copy)]
pub(crate) struct NamedToken<'a> {
    /// What it is.
    pub(crate) content: Content<'a>,
    /// The name.
    pub(crate) name: &'a LocalName,
    /// What is known of an HTML element of that name.
    pub(crate) class: ElementClass,
}

/// Whether a text is white space alone.
pub(crate) fn is_white(text: &str) -> bool
    ensures { result ≡ is_white (chars text.now) }
{
    text.chars()
        .all(|c| matches!(c, '\t' | '\n' | '\x0C' | '\r' | ' '))
}

impl<'a> NamedToken<'a> {
    /// The text of characters or of a comment; else none.
    pub(crate) fn text(&self) -> &'a str
        ensures { chars result.now ≡ text_of (token_of self.now.content) }
    {
        match self.content {
            Content::Characters(text) => text,
            Content::Comment(text) => text.as_str(),
            Content::Tag(_) => "",
            Content::Null => "",
            Content::Doctype(_) => "",
            Content::EndOfFile => "",
        }
    }

    /// A copy of the attributes of a tag; else none.
    pub(crate) fn attributes(&self, alloc: Global) -> Result<Attributes, ParseFault>
        ensures ok { IfOk result (λ attributes. attributes ≡ attributes_of (token_of self.now.content)) }
        ensures fault { IfErr result (λ fault. fault ≡ Memory) }
    {
        match self.content {
            Content::Tag(tag) => tag.attrs.copy(alloc),
            _ => Ok(Attributes::new(alloc)),
        }
    }
}

impl NamedToken<'_> {
    /// Whether it is a tag of a kind whose name is in a set.
    fn is_tag_in(&self, kind: TagKind, set: TagSet) -> bool
        requires { IsTold self.now }
        ensures { result ≡ is_tag_in kind set (token_of self.now.content) }
    {
        match self.content {
            Content::Tag(tag) => tag.kind == kind && self.class.is_in(set),
            _ => false,
        }
    }

    /// Whether it is a tag of a kind.
    fn is_tag(&self, kind: TagKind) -> bool
        ensures { result ≡ is_tag kind (token_of self.now.content) }
    {
        match self.content {
            Content::Tag(tag) => tag.kind == kind,
            _ => false,
        }
    }

    /// Whether it is in a class.
    pub(crate) fn fits(&self, class: Class) -> bool
        requires { IsTold self.now }
        ensures { result ≡ class_fits (class_of class) (token_of self.now.content) }
    {
        match class {
            Class::StartTags(set) => self.is_tag_in(TagKind::StartTag, set),
            Class::EndTags(set) => self.is_tag_in(TagKind::EndTag, set),
            Class::AnyStartTag => self.is_tag(TagKind::StartTag),
            Class::AnyEndTag => self.is_tag(TagKind::EndTag),
            Class::WhiteSpace => match self.content {
                Content::Characters(text) => is_white(text),
                _ => false,
            },
            Class::Character => matches!(self.content, Content::Characters(_)),
            Class::Null => matches!(self.content, Content::Null),
            Class::Comment => matches!(self.content, Content::Comment(_)),
            Class::EndOfFile => matches!(self.content, Content::EndOfFile),
            Class::AnythingElse => true,
        }
    }
}
