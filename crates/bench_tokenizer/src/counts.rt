//! A sink that counts what it is told.
ghost use Rattle.std.specs.Prelude.{◌≡◌, true, false, length};
ghost use Rattle.std.specs.Str.{chars};
ghost use Rattle.html_tokens.specs.Notes.{one_if};
ghost use Rattle.html_tokens.specs.Sink.{numbered};
ghost use Rattle.bench_tokenizer.specs.FirstBytes.{is_first};
ghost use Rattle.bench_tokenizer.specs.Counts.{Counted, IsWithin, counted_by, counted, error_counted, step, ended, nothing};
ghost use Rattle.bench_tokenizer.specs.Counts.{asks_cdata, number, has_failed, errors_ended, is_quiet, counts_laws, reply_to};

use html_tokenizer::states::RawKind;
use html_tokenizer::{TagKind, Token, TokenSink, TokenSinkResult};
use markup::ParseFault;

/// What a sink was told, in numbers. At u64::MAX a number stays.
#[derive(Clone, Copy)]
pub(crate) struct Counts {
    /// Whether the text is hostile: then the end tag of a script pauses, and sections of CDATA are asked for.
    is_hostile: bool,
    /// How many characters of text were told, in however many tokens.
    pub(crate) characters: u64,
    /// How many tags.
    pub(crate) tags: u64,
    /// How many attributes these tags have.
    pub(crate) attributes: u64,
    /// How many comments.
    pub(crate) comments: u64,
    /// Whether the end was told.
    pub(crate) has_ended: bool,
    /// How many tokens came, with those of text.
    pub(crate) tokens: u64,
    /// How many errors.
    pub(crate) errors: u64,
}

// 1 for the first byte of a character, and else 0.
fn one_if_first(byte: u8) -> usize
    ensures { result ≡ one_if (is_first byte) }
{
    if byte < 128 || byte >= 192 { 1 } else { 0 }
}

// How many characters a text has: as many as bytes that are the first of one.
fn characters(text: &str) -> usize
    ensures { result ≡ length (chars text.now) }
{
    let bytes = text.as_bytes();
    let mut count = 0;
    let mut at = 0;
    while at < bytes.len() {
        count += one_if_first(bytes[at]);
        at += 1;
    }
    count
}

impl Counts {
    /// Nothing was told yet.
    pub(crate) fn new(is_hostile: bool) -> Counts
        ensures { counted_by result ≡ nothing is_hostile }
    {
        Counts {
            is_hostile,
            characters: 0,
            tags: 0,
            attributes: 0,
            comments: 0,
            has_ended: false,
            tokens: 0,
            errors: 0,
        }
    }

    /// Counts a token.
    fn count(&mut self, token: &Token)
        ensures counted { counted_by self.new ≡ counted (counted_by self.old) token.now }
        ensures errors { self.new.errors ≡ error_counted token.now self.old.errors }
    {
        self.tokens = self.tokens.saturating_add(1);
        match token {
            Token::CharacterTokens(text) => {
                let more = characters(text.as_str());
                self.characters = self.characters.saturating_add(more as u64);
            }
            Token::TagToken(tag) => {
                self.tags = self.tags.saturating_add(1);
                self.attributes = self.attributes.saturating_add(tag.attrs.len() as u64);
            }
            Token::CommentToken(_) => self.comments = self.comments.saturating_add(1),
            Token::ParseError(_) => self.errors = self.errors.saturating_add(1),
            _ => {}
        }
    }

    /// Counts a token, and replies to it.
    fn take(&mut self, token: &Token) -> TokenSinkResult<()>
        ensures counted { counted_by self.new ≡ counted (counted_by self.old) token.now }
        ensures errors { self.new.errors ≡ error_counted token.now self.old.errors }
        ensures reply { numbered number result ≡ reply_to self.old.is_hostile token.now }
    {
        self.count(token);
        reply_to(self.is_hostile, token)
    }
}

// After the start tag of a script stands its text; its end tag pauses in a hostile text.
fn reply_to(is_hostile: bool, token: &Token) -> TokenSinkResult<()>
    ensures { numbered number result ≡ reply_to is_hostile token.now }
{
    match token {
        Token::TagToken(tag) => {
            if !tag.name.is("script") {
                return TokenSinkResult::Continue;
            }
            match tag.kind {
                TagKind::StartTag => TokenSinkResult::RawData(RawKind::ScriptData),
                TagKind::EndTag if is_hostile => TokenSinkResult::Script(()),
                TagKind::EndTag => TokenSinkResult::Continue,
            }
        }
        _ => TokenSinkResult::Continue,
    }
}

impl TokenSink for Counts {
    /// No reply names a node.
    type Handle = ();

    ghost State = { Counted };

    ghost view = { counted_by };

    ghost is_sound = { IsWithin };

    ghost step = { step };

    ghost ended = { ended };

    ghost asks_cdata = { asks_cdata };

    ghost errors = { λ c. c.errors };

    ghost errors_ended = { errors_ended };

    ghost is_quiet = { is_quiet };

    ghost has_failed = { has_failed };

    ghost number = { number };

    ghost laws = { counts_laws };

    fn process_token(
        &mut self,
        token: Token,
        _line_number: u64,
    ) -> Result<TokenSinkResult<()>, ParseFault> {
        let reply = self.take(&token);
        drop(token);
        Ok(reply)
    }

    fn end(&mut self) {
        self.has_ended = true;
    }

    fn adjusted_current_node_present_but_not_in_html_namespace(&self) -> bool {
        self.is_hostile
    }
}
