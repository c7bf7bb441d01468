//! Tokens as text, one a line, each after the line of the input on which it was emitted; text has a line of its own.

use crate::lines::{put_line, without_last};
use html_tokenizer::{Doctype, Listed, ListedToken, Tag, TagKind, Token};
use markup::{Attribute, Text};
use std::alloc::{AllocError, Global};

fn write_all(out: &mut String, pieces: &[&str]) -> Result<(), AllocError> {
    for piece in pieces {
        out.push_str(piece)?;
    }
    Ok(())
}

fn write_if(out: &mut String, is_so: bool, words: &str) -> Result<(), AllocError> {
    if is_so { out.push_str(words) } else { Ok(()) }
}

fn kind_of(tag: &Tag) -> &'static str {
    match tag.kind {
        TagKind::StartTag => "start ",
        TagKind::EndTag => "end ",
    }
}

fn write_attribute(out: &mut String, attribute: &Attribute) -> Result<(), AllocError> {
    let name = attribute.name.local.as_str();
    write_all(out, &[" ", name, "=\"", attribute.value.as_str(), "\""])
}

fn write_attributes(out: &mut String, attributes: &[Attribute]) -> Result<(), AllocError> {
    for attribute in attributes {
        write_attribute(out, attribute)?;
    }
    Ok(())
}

fn write_tag(out: &mut String, tag: &Tag) -> Result<(), AllocError> {
    out.push_str(kind_of(tag))?;
    out.push_str(tag.name.as_str())?;
    write_attributes(out, tag.attrs.as_slice())?;
    write_if(out, tag.self_closing, " /")?;
    write_if(out, tag.had_duplicate_attributes, " duplicates")
}

fn write_identifier(out: &mut String, identifier: &Option<Text>) -> Result<(), AllocError> {
    match identifier {
        Some(text) => write_all(out, &[" \"", text.as_str(), "\""]),
        None => out.push_str(" -"),
    }
}

fn write_doctype(out: &mut String, doctype: &Doctype) -> Result<(), AllocError> {
    out.push_str("doctype")?;
    write_identifier(out, &doctype.name)?;
    write_identifier(out, &doctype.public_id)?;
    write_identifier(out, &doctype.system_id)?;
    write_if(out, doctype.force_quirks, " quirks")
}

fn write_token(out: &mut String, token: &Token) -> Result<(), AllocError> {
    match token {
        Token::TagToken(tag) => write_tag(out, tag),
        Token::DoctypeToken(doctype) => write_doctype(out, doctype),
        Token::CommentToken(text) => write_all(out, &["comment \"", text.as_str(), "\""]),
        Token::NullCharacterToken => out.push_str("null"),
        Token::EOFToken => out.push_str("eof"),
        Token::CharacterTokens(_) => out.push_str("text in the list"),
        Token::ParseError(_) => out.push_str("an error in the list"),
    }
}

fn write_text(alloc: Global, out: &mut String, text: &Text) -> Result<(), AllocError> {
    if text.is_empty() {
        return Ok(());
    }
    let words = format!(in alloc; "text \"{}\"", text.as_str())?;
    put_line(out, words.as_str())
}

fn write_told(alloc: Global, out: &mut String, told: &ListedToken) -> Result<(), AllocError> {
    write_text(alloc, out, &told.text)?;
    let mut words = format!(in alloc; "{} ", told.line)?;
    write_token(&mut words, &told.token)?;
    put_line(out, words.as_str())
}

/// The tokens that a list received, as text, and a line if it received an unexpected end, or missed the expected one.
pub fn in_words(alloc: Global, list: &Listed, has_end: bool) -> Result<String, AllocError> {
    let mut out = String::new(alloc);
    for told in &list.told {
        write_told(alloc, &mut out, told)?;
    }
    write_text(alloc, &mut out, &list.text)?;
    write_if(&mut out, list.has_ended != has_end, "another end\n")?;
    without_last(alloc, out.as_str())
}
