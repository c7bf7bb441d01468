//! Sinks: what they list, count and refuse.
ghost use Rattle.std.specs.Prelude.{◌<◌, IfOk, OnOk, vec_len};

use super::tags::tag;
use crate::see;
use html_tokens::pieces::{emit_pieces, report_error};
use html_tokens::states::RawKind;
use html_tokens::{Counting, Listed, ListedToken, TagKind, Token, TokenSink, TokenSinkResult};
use markup::{ParseFault, Text};
use std::alloc::Global;
use std::borrow::CowStr;

fn characters(alloc: Global, words: &str) -> Result<Token, ParseFault> {
    Ok(Token::CharacterTokens(Text::from_str(alloc, words)?))
}

fn tag_token(alloc: Global, kind: TagKind, name: &str) -> Result<Token, ParseFault> {
    Ok(Token::TagToken(tag(alloc, kind, name, &[])?))
}

fn insert_table_text(alloc: Global, sink: &mut Listed, words: &str) -> Result<(), ParseFault> {
    drop(sink.process_token(characters(alloc, words)?, 1)?);
    Ok(())
}

fn tell_null(sink: &mut Listed, line: u64) -> Result<(), ParseFault> {
    drop(sink.process_token(Token::NullCharacterToken, line)?);
    Ok(())
}

fn is_null_at(told: &ListedToken, line: u64, text: &str) -> bool {
    told.text.as_str() == text && told.token == Token::NullCharacterToken && told.line == line
}

fn lists_one_null(sink: &Listed) -> bool {
    match sink.told.as_slice() {
        [told] => is_null_at(told, 3, "ab"),
        _ => false,
    }
}

// Whether the text of two pieces, a null and a third text are listed.
fn are_listed(alloc: Global, sink: &mut Listed) -> bool {
    insert_table_text(alloc, sink, "a").is_ok()
        && insert_table_text(alloc, sink, "b").is_ok()
        && tell_null(sink, 3).is_ok()
        && insert_table_text(alloc, sink, "c").is_ok()
        && sink.text.as_str() == "c"
        && lists_one_null(sink)
}

// What a sink answers, in words.
fn in_words<H>(answer: &TokenSinkResult<H>) -> &'static str {
    match answer {
        TokenSinkResult::Continue => "goes on",
        TokenSinkResult::Script(_) => "script",
        TokenSinkResult::RawData(RawKind::Rcdata) => "escapable raw text",
        TokenSinkResult::RawData(_) => "raw text",
        _ => "other",
    }
}

// What a sink answers to a tag, in words.
fn answer_to<S: TokenSink>(
    alloc: Global,
    sink: &mut S,
    kind: TagKind,
    name: &str,
) -> Result<&'static str, ParseFault>
where
    S::Handle: Drop,
    requires { S.is_sound (S.view sink.old) }
{
    let tag = tag_token(alloc, kind, name)?;
    let answer = sink.process_token(tag, 1)?;
    Ok(in_words(&answer))
}

fn answers<S: TokenSink>(alloc: Global, sink: &mut S, row: &(TagKind, &str, &str)) -> bool
where
    S::Handle: Drop,
    requires { S.is_sound (S.view sink.old) }
{
    match answer_to(alloc, sink, row.0, row.1) {
        Ok(answer) => answer == row.2,
        Err(_) => false,
    }
}

// What a sink answers to a tag that it is lent, in words.
fn answer_to_lent<S: TokenSink>(
    alloc: Global,
    sink: &mut S,
    kind: TagKind,
    name: &str,
) -> Result<&'static str, ParseFault>
where
    S::Handle: Drop,
    requires { S.is_sound (S.view sink.old) }
{
    let mut lent = tag(alloc, kind, name, &[])?;
    let answer = sink.process_tag(&mut lent, 1)?;
    Ok(in_words(&answer))
}

const TAGS: &[(TagKind, &str, &str)] = &[
    (TagKind::StartTag, "title", "escapable raw text"),
    (TagKind::EndTag, "title", "goes on"),
    (TagKind::EndTag, "script", "script"),
    (TagKind::StartTag, "style", "raw text"),
];

// Whether a sink that stands in foreign content answers so to a tag.
fn is_answered(alloc: Global, sink: &mut Listed, row: &(TagKind, &str, &str)) -> bool {
    answers(alloc, sink, row) && sink.adjusted_current_node_present_but_not_in_html_namespace()
}

#[test]
fn tags_are_answered_by_what_follows(rt: HostRuntime) {
    for row in TAGS {
        see(
            &rt,
            is_answered(rt.alloc(), &mut Listed::new(rt.alloc(), true), row),
            row.1,
        );
    }
}

// Why a sink refuses U+0000, if it does.
fn refused(sink: &mut Listed) -> Option<ParseFault> {
    sink.process_token(Token::NullCharacterToken, 1).err()
}

// Whether a sink refuses a token after its end.
fn refuses_after_its_end(sink: &mut Listed) -> bool {
    let was_told = tell_null(sink, 1).is_ok();
    sink.end();
    was_told && refused(sink) == Some(ParseFault::Ended) && sink.told.len() == 1
}

// Whether what a sink answers is right: it took a text, or memory was refused and the sink refuses every token from then on.
fn is_taken_or_failed(alloc: Global, sink: &mut Listed) -> bool {
    let Ok(token) = characters(alloc, "words") else {
        return true;
    };
    match sink.process_token(token, 1).err() {
        None => true,
        Some(fault) => fault == ParseFault::Memory && refused(sink) == Some(ParseFault::Failed),
    }
}

// The same three times, or the sink had failed before.
fn is_taken_or_failed_thrice(alloc: Global, sink: &mut Listed) -> bool {
    for _round in 0..3u32 {
        if !is_taken_or_failed(alloc, sink) && refused(sink) != Some(ParseFault::Failed) {
            return false;
        }
    }
    true
}

fn push_piece(
    alloc: Global,
    pieces: &mut Vec<(Text, u64)>,
    words: &str,
    line: u64,
) -> Result<(), ParseFault>
    ensures { OnOk result (0 < vec_len pieces.new) }
{
    pieces.push((Text::from_str(alloc, words)?, line))?;
    Ok(())
}

// A text in two pieces.
fn pieces(alloc: Global) -> Result<Vec<(Text, u64)>, ParseFault>
    ensures { IfOk result (λ pieces. 0 < vec_len pieces) }
{
    let mut pieces = Vec::new(alloc);
    push_piece(alloc, &mut pieces, "a", 1)?;
    push_piece(alloc, &mut pieces, "b", 2)?;
    Ok(pieces)
}

fn tell_text_and_error(alloc: Global, sink: &mut Listed) -> Result<(), ParseFault> {
    emit_pieces(sink, pieces(alloc)?)?;
    report_error(sink, CowStr::Borrowed("an error"), 2)
}

fn are_text_and_error_told(alloc: Global, sink: &mut Listed) -> bool {
    tell_text_and_error(alloc, sink).is_ok() && sink.text.as_str() == "ab" && sink.errors == 1
}

const STYLE: (TagKind, &str, &str) = (TagKind::StartTag, "style", "raw text");

// Whether a sink counts the tags that it takes, and none after its end.
fn are_tags_counted(alloc: Global, sink: &mut Counting<Listed>) -> bool {
    let is_counted = answers(alloc, sink, &STYLE) && sink.tags == 1;
    sink.end();
    let refused = answer_to(alloc, sink, TagKind::StartTag, "p").err();
    is_counted && refused == Some(ParseFault::Ended) && sink.tags == 1 && sink.inner.told.len() == 1
}

// Whether a sink counts a tag that it is lent, and hands it on.
fn is_lent_tag_counted(alloc: Global, sink: &mut Counting<Listed>) -> bool {
    let answer = answer_to_lent(alloc, sink, STYLE.0, STYLE.1);
    answer == Ok(STYLE.2) && sink.tags == 1 && sink.inner.told.len() == 1
}

#[test]
fn tags_are_counted(rt: HostRuntime) {
    let mut sink = Counting::new(Listed::new(rt.alloc(), false));
    assert!(rt; are_tags_counted(rt.alloc(), &mut sink));
    let mut lent = Counting::new(Listed::new(rt.alloc(), false));
    assert!(rt; is_lent_tag_counted(rt.alloc(), &mut lent));
}

// Tells any sink a token, and ends it.
fn tell_and_end<S: TokenSink>(sink: &mut S, line: u64) -> Result<(), ParseFault>
where
    S::Handle: Drop,
    requires { S.is_sound (S.view sink.old) }
{
    drop(sink.process_token(Token::NullCharacterToken, line)?);
    sink.end();
    Ok(())
}

fn takes_when_lent(sink: &mut Listed) -> bool {
    let mut lent = &mut *sink;
    tell_and_end(&mut lent, 7).is_ok() && sink.has_ended && sink.told.len() == 1
}

/// What is asked of a list.
enum Asked {
    /// That it lists the text of two pieces, and a null.
    TextAndNull,
    /// That it is told a text in pieces, and an error.
    TextAndError,
    /// That it takes what its loan is told.
    Loan,
    /// That it refuses what stands after its end.
    End,
    /// That it fails where memory is refused.
    Memory,
}

const ASKED: &[(Asked, &str)] = &[
    (Asked::TextAndNull, "text and null"),
    (Asked::TextAndError, "text and error"),
    (Asked::Loan, "loan"),
    (Asked::End, "end"),
    (Asked::Memory, "memory"),
];

fn is_right(alloc: Global, sink: &mut Listed, asked: &Asked) -> bool {
    match asked {
        Asked::TextAndNull => are_listed(alloc, sink),
        Asked::TextAndError => are_text_and_error_told(alloc, sink),
        Asked::Loan => takes_when_lent(sink),
        Asked::End => refuses_after_its_end(sink),
        Asked::Memory => is_taken_or_failed_thrice(alloc, sink),
    }
}

#[test]
fn lists_take_tokens_until_they_end_or_fail(rt: HostRuntime) {
    for row in ASKED {
        see(
            &rt,
            is_right(rt.alloc(), &mut Listed::new(rt.alloc(), false), &row.0),
            row.1,
        );
    }
}
