//! What the sink is told of errors: by the HTML Standard's codes where it has one (section 13.2.2), else by what was not expected.
use crate::told::{Content, NamedToken};
use html_rules::InsertionMode;
use html_tokens::TagKind;
use markup::ParseFault;
use std::alloc::Global;
use std::borrow::CowStr;

/// A token that was not expected.
fn unexpected(told: &NamedToken<'_>) -> &'static str {
    match told.content {
        Content::Tag(tag) => match tag.kind {
            TagKind::StartTag => "unexpected start tag",
            TagKind::EndTag => "unexpected end tag",
        },
        Content::Characters(_) => "unexpected character",
        Content::Null => "unexpected-null-character",
        Content::Comment(_) => "unexpected comment",
        Content::Doctype(_) => "unexpected doctype",
        Content::EndOfFile => "unexpected end of input",
    }
}

/// The mode, as the Standard calls it.
fn name_of(mode: InsertionMode) -> &'static str {
    match mode {
        InsertionMode::Initial => "initial",
        InsertionMode::BeforeHtml => "before html",
        InsertionMode::BeforeHead => "before head",
        InsertionMode::InHead => "in head",
        InsertionMode::InHeadNoscript => "in head noscript",
        InsertionMode::AfterHead => "after head",
        InsertionMode::InBody => "in body",
        InsertionMode::Text => "text",
        InsertionMode::InTable => "in table",
        InsertionMode::InTableText => "in table text",
        InsertionMode::InCaption => "in caption",
        InsertionMode::InColumnGroup => "in column group",
        InsertionMode::InTableBody => "in table body",
        InsertionMode::InRow => "in row",
        InsertionMode::InCell => "in cell",
        InsertionMode::InTemplate => "in template",
        InsertionMode::AfterBody => "after body",
        InsertionMode::InFrameset => "in frameset",
        InsertionMode::AfterFrameset => "after frameset",
        InsertionMode::AfterAfterBody => "after after body",
        InsertionMode::AfterAfterFrameset => "after after frameset",
    }
}

/// Writes the same, with the tag's name, and the mode or that the token came in foreign content.
fn write_exactly(
    message: &mut String,
    told: &NamedToken<'_>,
    mode: InsertionMode,
    is_foreign: bool,
) -> Result<(), ParseFault> {
    message.push_str(unexpected(told))?;
    let name = told.name.as_str();
    if !name.is_empty() {
        message.push_str(" ")?;
        message.push_str(name)?;
    }
    if is_foreign {
        message.push_str(" in foreign content")?;
        return Ok(());
    }
    message.push_str(" in the mode \"")?;
    message.push_str(name_of(mode))?;
    message.push_str("\"")?;
    Ok(())
}

/// The parse error that is reported for a token that was not expected: in the mode "initial", that the doctype is missing (HTML Standard,
/// section 13.2.6.4.1); if `exact`, with the tag's name and where it came, where there is memory for that.
pub(crate) fn of_token(
    alloc: Global,
    told: &NamedToken<'_>,
    mode: InsertionMode,
    is_foreign: bool,
    exact: bool,
) -> CowStr<'static> {
    if let InsertionMode::Initial = mode {
        return CowStr::Borrowed("missing doctype");
    }
    if exact {
        let mut message = String::new(alloc);
        if let Ok(()) = write_exactly(&mut message, told, mode, is_foreign) {
            return CowStr::Owned(message);
        }
    }
    CowStr::Borrowed(unexpected(told))
}

/// A start tag that closes itself, of an element that may not.
pub(crate) fn not_acknowledged() -> CowStr<'static> {
    CowStr::Borrowed("non-void-html-element-start-tag-with-trailing-solidus")
}

/// Text that belongs nowhere in a table.
pub(crate) fn text_in_table() -> CowStr<'static> {
    CowStr::Borrowed("unexpected text in a table")
}

/// A doctype that is none of HTML's, or stands where none belongs.
pub(crate) fn unexpected_doctype() -> CowStr<'static> {
    CowStr::Borrowed("unexpected doctype")
}
