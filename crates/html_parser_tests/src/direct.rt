//! Tokens that no tokenizer emits there: what the tree builder answers where a caller emits them all the same.
ghost use Rattle.std.specs.Prelude.{◌≡◌, false};

use crate::parsing::is_written;
use html_forest::Forest;
use html_tokenizer::states::RawKind;
use html_tokenizer::{Doctype, Tag, TagKind, Token, TokenSink, TokenSinkResult};
use html_tree_builder::{TreeBuilder, TreeBuilderOpts};
use markup::{Attributes, LocalName, ParseFault, Text};
use std::alloc::Global;
use std::borrow::CowStr;
use std::test::Fail;

/// A token.
#[derive(Clone, Copy)]
enum Given {
    Start(&'static str),
    End(&'static str),
    Characters(&'static str),
    Comment,
    Null,
    Error,
    EndOfFile,
    Doctype,
}

/// What a sink of tokens is to answer.
#[derive(Clone, Copy)]
enum Wanted {
    /// That reading goes on.
    GoOn,
    /// That the text of a title follows.
    TitleText,
    /// That the token is refused so.
    Refuse(ParseFault),
}

/// A tag without attributes.
fn tag(alloc: Global, kind: TagKind, name: &str) -> Result<Token, ParseFault> {
    Ok(Token::TagToken(Tag {
        kind,
        name: LocalName::from_str(alloc, name)?,
        self_closing: false,
        attrs: Attributes::new(alloc),
        had_duplicate_attributes: false,
    }))
}

fn characters(alloc: Global, text: &str) -> Result<Token, ParseFault> {
    Ok(Token::CharacterTokens(Text::from_str(alloc, text)?))
}

fn comment(alloc: Global) -> Result<Token, ParseFault> {
    Ok(Token::CommentToken(Text::from_str(alloc, "a")?))
}

/// A doctype without a name.
fn doctype() -> Token {
    Token::DoctypeToken(Doctype {
        name: None,
        public_id: None,
        system_id: None,
        force_quirks: false,
    })
}

fn token_of(alloc: Global, given: Given) -> Result<Token, ParseFault> {
    match given {
        Given::Start(name) => tag(alloc, TagKind::StartTag, name),
        Given::End(name) => tag(alloc, TagKind::EndTag, name),
        Given::Characters(text) => characters(alloc, text),
        Given::Comment => comment(alloc),
        Given::Null => Ok(Token::NullCharacterToken),
        Given::Error => Ok(Token::ParseError(CowStr::Borrowed("an error"))),
        Given::EndOfFile => Ok(Token::EOFToken),
        Given::Doctype => Ok(doctype()),
    }
}

/// Whether a sink of tokens answers a token so.
fn answers<S: TokenSink>(sink: &mut S, token: Token, wanted: Wanted) -> bool
    requires { S.has_failed sink.old ≡ false → S.is_sound (S.view sink.old) }
    ensures { S.has_failed sink.new ≡ false → S.is_sound (S.view sink.new) }
{
    match (sink.process_token(token, 1), wanted) {
        (Ok(TokenSinkResult::Continue), Wanted::GoOn) => true,
        (Ok(TokenSinkResult::RawData(RawKind::Rcdata)), Wanted::TitleText) => true,
        (Err(fault), Wanted::Refuse(wanted)) => fault == wanted,
        _ => false,
    }
}

/// Whether a sink of tokens answers this token so.
fn takes<S: TokenSink>(
    alloc: Global,
    sink: &mut S,
    given: Given,
    wanted: Wanted,
) -> Result<bool, ParseFault>
    requires { S.has_failed sink.old ≡ false → S.is_sound (S.view sink.old) }
    ensures { S.has_failed sink.new ≡ false → S.is_sound (S.view sink.new) }
{
    let token = token_of(alloc, given)?;
    Ok(answers(sink, token, wanted))
}

/// Whether a sink of tokens refuses each of these so.
fn refuses_each<S: TokenSink>(
    alloc: Global,
    sink: &mut S,
    tokens: &[Given],
    fault: ParseFault,
) -> Result<bool, ParseFault>
    requires { S.has_failed sink.old ≡ false → S.is_sound (S.view sink.old) }
    ensures { S.has_failed sink.new ≡ false → S.is_sound (S.view sink.new) }
{
    for given in tokens {
        if !takes(alloc, sink, *given, Wanted::Refuse(fault))? {
            return Ok(false);
        }
    }
    Ok(true)
}

/// Tokens that a title does not take.
const STRANGE: &[Given] = &[Given::Comment, Given::Null, Given::Start("b")];

/// One token of each kind.
const EVERY: &[Given] = &[
    Given::Comment,
    Given::Null,
    Given::Start("b"),
    Given::End("title"),
    Given::Characters("a"),
    Given::Characters(""),
    Given::Error,
    Given::EndOfFile,
    Given::Doctype,
];

/// Whether the title of a page has this text, and one error was reported, since there is no doctype.
fn has_title(alloc: Global, forest: &Forest, text: &str) -> Result<bool, ParseFault> {
    let written = format!(in alloc; "<html><head><title>{text}</title></head></html>")?;
    let is_right = is_written(alloc, forest, forest.document(), written.as_str())?;
    Ok(is_right && forest.error_count() == 1)
}

/// Whether nothing was built, and no error was reported.
fn is_empty(alloc: Global, forest: &Forest) -> Result<bool, ParseFault> {
    let is_right = is_written(alloc, forest, forest.document(), "")?;
    Ok(is_right && forest.error_count() == 0)
}

#[test]
fn titles_refuse_what_is_no_text(rt: HostRuntime) -> Result<(), Fail> {
    let alloc = rt.alloc();
    let forest = Forest::new(alloc)?;
    let mut builder = TreeBuilder::new(alloc, forest, TreeBuilderOpts::default());
    let fault = ParseFault::TokenInText;
    let title = Given::Start("title");
    assert!(rt; takes(alloc, &mut builder, title, Wanted::TitleText) == Ok(true));
    assert!(rt; has_title(alloc, &builder.sink, "") == Ok(true));
    assert!(rt; refuses_each(alloc, &mut builder, STRANGE, fault) == Ok(true));
    assert!(rt; has_title(alloc, &builder.sink, "") == Ok(true));
    assert!(rt; takes(alloc, &mut builder, Given::Characters("a"), Wanted::GoOn) == Ok(true));
    assert!(rt; refuses_each(alloc, &mut builder, STRANGE, fault) == Ok(true));
    assert!(rt; has_title(alloc, &builder.sink, "a") == Ok(true));
    assert!(rt; takes(alloc, &mut builder, Given::End("title"), Wanted::GoOn) == Ok(true));
    assert!(rt; has_title(alloc, &builder.sink, "a") == Ok(true));
    Ok(())
}

#[test]
fn titles_end_with_the_text(rt: HostRuntime) -> Result<(), Fail> {
    let alloc = rt.alloc();
    let forest = Forest::new(alloc)?;
    let mut builder = TreeBuilder::new(alloc, forest, TreeBuilderOpts::default());
    let title = Given::Start("title");
    assert!(rt; takes(alloc, &mut builder, title, Wanted::TitleText) == Ok(true));
    assert!(rt; takes(alloc, &mut builder, Given::EndOfFile, Wanted::GoOn) == Ok(true));
    builder.end();
    assert!(rt; refuses_each(alloc, &mut builder, EVERY, ParseFault::Ended) == Ok(true));
    Ok(())
}

#[test]
fn every_token_is_refused_after_the_end(rt: HostRuntime) -> Result<(), Fail> {
    let alloc = rt.alloc();
    let forest = Forest::new(alloc)?;
    let mut builder = TreeBuilder::new(alloc, forest, TreeBuilderOpts::default());
    builder.end();
    assert!(rt; refuses_each(alloc, &mut builder, EVERY, ParseFault::Ended) == Ok(true));
    assert!(rt; is_empty(alloc, &builder.sink) == Ok(true));
    Ok(())
}
