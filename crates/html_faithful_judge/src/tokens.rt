//! The tokens that are written of a tree: tags, single characters and comments.
ghost use Rattle.std.specs.Prelude.{◌≡◌, ℕ, List, ◌∷◌, [], IsTrue, codes, option_map};
ghost use Rattle.std.specs.Str.{chars};
ghost use Rattle.markup.specs.Plain.{is_plain};
ghost use Rattle.html_tokens.specs.TagEquality.{value_of};
ghost use Rattle.html_rules.specs.Encodings.{is_space};
ghost use Rattle.html_rules.specs.ForeignContent.{is_font_attribute};
ghost use Rattle.html_rules.specs.Tokens.{class_fits, has_font_attributes, is_hidden_value, is_type_hidden, is_white, text_of};
ghost use Rattle.html_modes.specs.Tables.{class_of};
ghost use Rattle.html_faithful_judge.specs.Tokens.{IsNamed, is_tag, is_tag_in, token_of};

use html_modes::Class;
use html_names::{ElementClass, equals_any_case};
use html_rules::TagSet;
use html_tokens::{Tag, TagKind};
use markup::{Attribute, LocalName, Text};

/// What a token is.
#[derive(Clone, Copy)]
pub enum Content<'a> {
    /// A tag.
    Tag(&'a Tag),
    /// A character.
    Character(char),
    /// A comment.
    Comment(&'a str),
}

/// A token. Its name is that of a tag, and is empty where it is no tag.
#[derive(Clone, Copy)]
pub struct NamedToken<'a> {
    /// What it is.
    pub content: Content<'a>,
    /// The name.
    pub name: &'a LocalName,
    /// What is known of an HTML element of that name.
    pub class: ElementClass,
}

/// Whether a character is white space.
pub(crate) fn is_space(c: char) -> bool
    ensures { result ≡ is_space c }
{
    matches!(c, '\t' | '\n' | '\x0C' | '\r' | ' ')
}

/// Whether a text is white space alone.
pub fn is_white(text: &str) -> bool
    ensures { result ≡ is_white (chars text.now) }
{
    text.chars().all(|c| is_space(c))
}

/// Whether an attribute of `font` ends foreign content.
fn is_font_attribute(attribute: &Attribute) -> bool
    ensures { result ≡ is_font_attribute attribute.now }
{
    let local = &attribute.name.local;
    local.is("color") || local.is("face") || local.is("size")
}

/// The value of the first attribute with this local name, which is of ASCII alone.
fn value_of<'a>(attributes: &'a [Attribute], name: &str) -> Option<&'a Text>
    requires { IsTrue (is_plain name.now) }
    ensures { option_map (λ value. value.now) result ≡ value_of name.now attributes.now }
{
    match attributes.iter().find(|a| a.name.local.is(name)) {
        None => None,
        Some(attribute) => Some(&attribute.value),
    }
}

/// Whether a value is there, and is `hidden` in any case.
fn is_hidden(value: Option<&Text>) -> bool
    ensures { result ≡ is_hidden_value (option_map (λ value. value.now) value.entry) }
{
    match value {
        Some(value) => equals_any_case(value.as_str(), "hidden"),
        None => false,
    }
}

impl NamedToken<'_> {
    /// Whether its text is white space alone, as it is where it has none.
    pub(crate) fn is_white(&self) -> bool
        ensures { result ≡ is_white (text_of (token_of self.now.content)) }
    {
        match self.content {
            Content::Character(c) => is_space(c),
            Content::Comment(text) => is_white(text),
            Content::Tag(_) => true,
        }
    }

    /// Whether it is a tag of a kind whose name is in a set.
    fn is_tag_in(&self, kind: TagKind, set: TagSet) -> bool
        requires { IsNamed self.now }
        ensures { result ≡ is_tag_in kind set (token_of self.now.content) }
    {
        match self.content {
            Content::Tag(tag) => tag.kind == kind && self.class.is_in(set),
            _ => false,
        }
    }

    /// Whether it is a tag of a kind.
    pub(crate) fn is_tag(&self, kind: TagKind) -> bool
        ensures { result ≡ is_tag kind (token_of self.now.content) }
    {
        match self.content {
            Content::Tag(tag) => tag.kind == kind,
            _ => false,
        }
    }

    /// Whether it is in a class.
    pub(crate) fn fits(&self, class: Class) -> bool
        requires { IsNamed self.now }
        ensures { result ≡ class_fits (class_of class) (token_of self.now.content) }
    {
        match class {
            Class::StartTags(set) => self.is_tag_in(TagKind::StartTag, set),
            Class::EndTags(set) => self.is_tag_in(TagKind::EndTag, set),
            Class::AnyStartTag => self.is_tag(TagKind::StartTag),
            Class::AnyEndTag => self.is_tag(TagKind::EndTag),
            Class::WhiteSpace => match self.content {
                Content::Character(c) => is_space(c),
                _ => false,
            },
            Class::Character => matches!(self.content, Content::Character(_)),
            Class::Null => false,
            Class::Comment => matches!(self.content, Content::Comment(_)),
            Class::EndOfFile => false,
            Class::AnythingElse => true,
        }
    }

    /// Whether the attribute `type` is `hidden`, in any case.
    pub(crate) fn is_type_hidden(&self) -> bool
        ensures { result ≡ is_type_hidden (token_of self.now.content) }
    {
        match self.content {
            Content::Tag(tag) => is_hidden(value_of(tag.attrs.as_slice(), "type")),
            _ => false,
        }
    }

    /// Whether there is an attribute that ends foreign content at `font`.
    pub(crate) fn has_font_attributes(&self) -> bool
        ensures { result ≡ has_font_attributes (token_of self.now.content) }
    {
        match self.content {
            Content::Tag(tag) => tag.attrs.as_slice().iter().any(|a| is_font_attribute(a)),
            _ => false,
        }
    }
}
