//! What a list was told, in words.

use html_tokenizer::{Doctype, Listed, ListedToken, Tag, TagKind, Token};
use markup::{Attribute, Text};
use std::alloc::{AllocError, Global};

fn write_all(out: &mut String, pieces: &[&str]) -> Result<(), AllocError> {
    for piece in pieces {
        out.push_str(piece)?;
    }
    Ok(())
}

fn write_if(out: &mut String, is_so: bool, words: &str) -> Result<(), AllocError> {
    if is_so { out.push_str(words) } else { Ok(()) }
}

fn kind_of(tag: &Tag) -> &'static str {
    match tag.kind {
        TagKind::StartTag => "start ",
        TagKind::EndTag => "end ",
    }
}

fn write_attribute(out: &mut String, attribute: &Attribute) -> Result<(), AllocError> {
    let name = attribute.name.local.as_str();
    write_all(out, &[" ", name, "=\"", attribute.value.as_str(), "\""])
}

fn write_tag(out: &mut String, tag: &Tag) -> Result<(), AllocError> {
    out.push_str(kind_of(tag))?;
    out.push_str(tag.name.as_str())?;
    for attribute in tag.attrs.as_slice() {
        write_attribute(out, attribute)?;
    }
    write_if(out, tag.self_closing, " /")?;
    write_if(out, tag.had_duplicate_attributes, " duplicates")
}

fn write_identifier(out: &mut String, identifier: &Option<Text>) -> Result<(), AllocError> {
    match identifier {
        Some(text) => write_all(out, &[" \"", text.as_str(), "\""]),
        None => out.push_str(" -"),
    }
}

fn write_doctype(out: &mut String, doctype: &Doctype) -> Result<(), AllocError> {
    out.push_str("doctype")?;
    write_identifier(out, &doctype.name)?;
    write_identifier(out, &doctype.public_id)?;
    write_identifier(out, &doctype.system_id)?;
    write_if(out, doctype.force_quirks, " quirks")
}

fn write_token(out: &mut String, token: &Token) -> Result<(), AllocError> {
    match token {
        Token::TagToken(tag) => write_tag(out, tag),
        Token::DoctypeToken(doctype) => write_doctype(out, doctype),
        Token::CommentToken(text) => write_all(out, &["comment \"", text.as_str(), "\""]),
        Token::NullCharacterToken => out.push_str("null"),
        Token::EOFToken => out.push_str("eof"),
        Token::CharacterTokens(_) => out.push_str("text in the list"),
        Token::ParseError(_) => out.push_str("an error in the list"),
    }
}

fn write_text(out: &mut String, text: &Text) -> Result<(), AllocError> {
    if text.is_empty() {
        return Ok(());
    }
    write_all(out, &["text \"", text.as_str(), "\"; "])
}

fn write_told(out: &mut String, told: &ListedToken) -> Result<(), AllocError> {
    write_text(out, &told.text)?;
    write_token(out, &told.token)
}

fn write_list(out: &mut String, list: &[ListedToken]) -> Result<(), AllocError> {
    for (place, told) in list.iter().enumerate() {
        write_if(out, place > 0, "; ")?;
        write_told(out, told)?;
    }
    Ok(())
}

/// What a list was told, in words: its tokens in order, with `; ` between them.
pub fn in_words(alloc: Global, sink: &Listed) -> Result<String, AllocError> {
    let mut out = String::new(alloc);
    write_list(&mut out, sink.told.as_slice())?;
    Ok(out)
}

/// A sink that says in words what it was told.
pub trait Spoken {
    fn words(&self, alloc: Global) -> Result<String, AllocError>;
}

impl Spoken for Listed {
    fn words(&self, alloc: Global) -> Result<String, AllocError> {
        in_words(alloc, self)
    }
}

/// Whether this is what a sink was told, in words.
pub fn is_in_words<S: Spoken>(alloc: Global, sink: &S, want: &str) -> bool {
    match sink.words(alloc) {
        Ok(words) => words.as_str() == want,
        Err(_) => false,
    }
}
