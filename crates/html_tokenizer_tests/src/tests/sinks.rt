//! A sink that names encodings, and keeps text.
ghost use Rattle.std.specs.Prelude.{◌≡◌, ⊤, true, IfOk, IfErr};
ghost use Rattle.markup.specs.declared.fault.ParseFault.TheVariants.{Memory};
ghost use Rattle.html_tokens.specs.Sink.{numbered, fails, tells_failed, Counts, Gives, OnRefused};
ghost use Rattle.html_tokenizer_tests.specs.TestSinks.{reply_to, named, named_laws};

use super::words::Spoken;
use html_tokenizer::{Token, TokenSink, TokenSinkResult};
use markup::{ParseFault, Text};
use std::alloc::{AllocError, Global};

/// A sink to which each tag names an encoding. It keeps the text that it receives.
#[derive(Drop)]
pub struct Naming {
    alloc: Global,
    asks_cdata: bool,
    // The text that was told, in one.
    text: Text,
    errors: u64,
    has_failed: bool,
}

impl Naming {
    /// A sink that was told nothing yet. `asks_cdata` says whether `<![CDATA[` opens a section.
    pub fn new(alloc: Global, asks_cdata: bool) -> Naming {
        Naming {
            alloc,
            asks_cdata,
            text: Text::empty(alloc),
            errors: 0,
            has_failed: false,
        }
    }

    // Keeps the text of a token.
    fn keep(&mut self, token: &Token) -> Result<(), ParseFault>
        ensures counts { Counts true token.now result self.old.errors self.new.errors }
        ensures fault { IfErr result (λ fault. fault ≡ Memory) }
        ensures kept { self.new.has_failed ≡ self.old.has_failed }
        ensures asks { self.new.asks_cdata ≡ self.old.asks_cdata }
    {
        match token {
            Token::CharacterTokens(text) => self.text.append(text),
            Token::ParseError(_) => {
                self.errors = self.errors.saturating_add(1);
                Ok(())
            }
            _ => Ok(()),
        }
    }

    // What a token is answered by.
    fn reply(&self, token: &Token) -> Result<TokenSinkResult<u64>, ParseFault>
        ensures reply { IfOk result (λ reply. reply_to token.now ≡ numbered (λ n. n) reply) }
        ensures fault { IfErr result (λ fault. fault ≡ Memory) }
    {
        match token {
            Token::TagToken(tag) => {
                let name = Text::from_str(self.alloc, tag.name.as_str())?;
                Ok(TokenSinkResult::EncodingIndicator(name))
            }
            _ => Ok(TokenSinkResult::Continue),
        }
    }

    // Takes a token while no memory was wanting.
    fn take(&mut self, token: &Token) -> Result<TokenSinkResult<u64>, ParseFault>
        ensures taken { IfOk result (λ reply. reply_to token.now ≡ numbered (λ n. n) reply) }
        ensures counts { Counts true token.now result self.old.errors self.new.errors }
        ensures fault { IfErr result (λ fault. fault ≡ Memory) }
        ensures kept { self.new.has_failed ≡ self.old.has_failed }
        ensures asks { self.new.asks_cdata ≡ self.old.asks_cdata }
    {
        self.keep(token)?;
        self.reply(token)
    }

    // Takes a token, or refuses it where memory was wanting.
    fn hear(&mut self, token: &Token, line_number: u64) -> Result<TokenSinkResult<u64>, ParseFault>
        ensures gives { Gives (λ n. n) (named self.old.asks_cdata token.now line_number) result self.new.asks_cdata }
        ensures failed_before { tells_failed result ≡ self.old.has_failed }
        ensures failed_after { self.new.has_failed ≡ fails result }
        ensures unchanged { OnRefused result (self.new.asks_cdata ≡ self.old.asks_cdata) }
        ensures same_errors { OnRefused result (self.new.errors ≡ self.old.errors) }
        ensures counts { Counts true token.now result self.old.errors self.new.errors }
    {
        if self.has_failed {
            return Err(ParseFault::Failed);
        }
        let answer = self.take(token);
        if answer.is_err() {
            self.has_failed = true;
        }
        answer
    }
}

impl TokenSink for Naming {
    ghost use Rattle.std.specs.Prelude.{Bool};

    type Handle = u64;

    ghost State = { Bool };

    ghost view = { λ n. n.asks_cdata };

    ghost is_sound = { λ _. ⊤ };

    ghost step = { named };

    ghost ended = { λ s. s };

    ghost asks_cdata = { λ s. s };

    ghost errors = { λ n. n.errors };

    ghost errors_ended = { λ _ n. n };

    ghost is_quiet = { λ _ _. true };

    ghost has_failed = { λ n. n.has_failed };

    ghost number = { λ n. n };

    ghost laws = { named_laws };

    fn process_token(
        &mut self,
        token: Token,
        line_number: u64,
    ) -> Result<TokenSinkResult<u64>, ParseFault> {
        let answer = self.hear(&token, line_number);
        drop(token);
        answer
    }

    fn end(&mut self) {}

    fn adjusted_current_node_present_but_not_in_html_namespace(&self) -> bool {
        self.asks_cdata
    }
}

impl Spoken for Naming {
    fn words(&self, alloc: Global) -> Result<String, AllocError> {
        String::from_str(alloc, self.text.as_str())
    }
}
