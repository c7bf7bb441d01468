//! A sink that lists what it is told.
ghost use Rattle.std.specs.Prelude.{◌≡◌, [], true, false, IfOk, IfErr, OnOk, length, ⊤};
ghost use Rattle.markup.specs.declared.fault.ParseFault.TheVariants.{Memory};
ghost use Rattle.html_tokens.specs.Sink.{numbered, Counts};
ghost use Rattle.html_tokens.specs.Listed.{Listing, listing, listed, step, text_after, reply_to, with_token, listed_laws};

use crate::replies::TokenSinkResult;
use crate::sink::TokenSink;
use crate::states::RawKind;
use crate::tags::TagKind;
use crate::token::Token;
use markup::{LocalName, ParseFault, Text};
use std::alloc::Global;
use std::mem;

/// A token as it was told.
#[derive(Debug, Drop, PartialEq, Eq)]
pub struct ListedToken {
    /// The text that was told between the token before and this one, in one.
    pub text: Text,
    /// The token, which is no text and no error.
    pub token: Token,
    /// The line that it was told with.
    pub line: u64,
}

/// A sink that lists what it is told, for tests and for programs that look at tokens alone.
///
/// It answers the start tags of `title`, `textarea`, `style`, `xmp`, `script` and `plaintext` by the text that follows
/// them, and an end tag of `script` by a pause. After the end it refuses every token with `Ended`.
#[derive(Drop)]
pub struct Listed {
    alloc: Global,
    /// The tokens, in order.
    pub told: Vec<ListedToken>,
    /// The text that was told since the last of them, in one.
    pub text: Text,
    /// Whether the end was told.
    pub has_ended: bool,
    /// Whether `<![CDATA[` opens a section.
    pub asks_cdata: bool,
    /// How many errors were told. At u64::MAX the number stays.
    pub errors: u64,
    has_failed: bool,
}

impl Listed {
    /// A list with nothing in it yet. `asks_cdata` says whether `<![CDATA[` opens a section.
    pub fn new(alloc: Global, asks_cdata: bool) -> Listed
        ensures listing { listing result ≡ record { told = []; text = []; has_ended = false; asks_cdata = asks_cdata } }
        ensures errors { result.errors ≡ 0 }
        ensures failed { result.has_failed ≡ false }
    {
        Listed {
            alloc,
            told: Vec::new(alloc),
            text: Text::empty(alloc),
            has_ended: false,
            asks_cdata,
            errors: 0,
            has_failed: false,
        }
    }
}

fn text_after(name: &LocalName) -> TokenSinkResult<u64>
    ensures { numbered (λ n. n) result ≡ text_after name.now }
{
    if name.is("title") || name.is("textarea") {
        TokenSinkResult::RawData(RawKind::Rcdata)
    } else if name.is("style") || name.is("xmp") {
        TokenSinkResult::RawData(RawKind::Rawtext)
    } else if name.is("script") {
        TokenSinkResult::RawData(RawKind::ScriptData)
    } else if name.is("plaintext") {
        TokenSinkResult::Plaintext
    } else {
        TokenSinkResult::Continue
    }
}

fn reply_to(token: &Token, place: u64) -> TokenSinkResult<u64>
    ensures { numbered (λ n. n) result ≡ reply_to token.now place }
{
    match token {
        Token::TagToken(tag) => match tag.kind {
            TagKind::StartTag => text_after(&tag.name),
            TagKind::EndTag if tag.name.is("script") => TokenSinkResult::Script(place),
            TagKind::EndTag => TokenSinkResult::Continue,
        },
        _ => TokenSinkResult::Continue,
    }
}

impl Listed {
    // Takes a token while the end was not told.
    fn take(&mut self, token: Token, line: u64) -> Result<TokenSinkResult<u64>, ParseFault>
        ensures taken { IfOk result (λ reply. listed (listing self.old) token line ≡ (listing self.new, numbered (λ n. n) reply)) }
        ensures counts { Counts true token result self.old.errors self.new.errors }
        ensures fault { IfErr result (λ fault. fault ≡ Memory) }
        ensures kept { self.new.has_failed ≡ self.old.has_failed }
    {
        match token {
            Token::ParseError(_) => {
                self.errors = self.errors.saturating_add(1);
                Ok(TokenSinkResult::Continue)
            }
            Token::CharacterTokens(text) => {
                self.text.append(&text)?;
                Ok(TokenSinkResult::Continue)
            }
            token => self.list(token, line),
        }
    }

    // Lists a token with the text before it.
    fn list(&mut self, token: Token, line: u64) -> Result<TokenSinkResult<u64>, ParseFault>
        ensures listed { OnOk result (listing self.new ≡ with_token token line (listing self.old)) }
        ensures reply { IfOk result (λ reply. numbered (λ n. n) reply ≡ reply_to token (length self.old.told.items)) }
        ensures same_errors { self.new.errors ≡ self.old.errors }
        ensures fault { IfErr result (λ fault. fault ≡ Memory) }
        ensures kept { self.new.has_failed ≡ self.old.has_failed }
    {
        let reply = reply_to(&token, self.told.len() as u64);
        let text = mem::replace(&mut self.text, Text::empty(self.alloc));
        self.told.push(ListedToken { text, token, line })?;
        Ok(reply)
    }
}

impl TokenSink for Listed {
    /// The place that an end tag has in the list.
    type Handle = u64;

    ghost State = { Listing };

    ghost view = { listing };

    ghost is_sound = { λ _. ⊤ };

    ghost step = { step };

    ghost ended = { λ s. record s { has_ended = true } };

    ghost asks_cdata = { λ s. s.asks_cdata };

    ghost errors = { λ l. l.errors };

    ghost errors_ended = { λ _ n. n };

    ghost is_quiet = { λ _ _. true };

    ghost has_failed = { λ l. l.has_failed };

    ghost number = { λ n. n };

    ghost laws = { listed_laws };

    fn process_token(
        &mut self,
        token: Token,
        line_number: u64,
    ) -> Result<TokenSinkResult<u64>, ParseFault> {
        if self.has_failed {
            drop(token);
            return Err(ParseFault::Failed);
        }
        if self.has_ended {
            drop(token);
            return Err(ParseFault::Ended);
        }
        let answer = self.take(token, line_number);
        if answer.is_err() {
            self.has_failed = true;
        }
        answer
    }

    fn end(&mut self) {
        self.has_ended = true;
    }

    fn adjusted_current_node_present_but_not_in_html_namespace(&self) -> bool {
        self.asks_cdata
    }
}
