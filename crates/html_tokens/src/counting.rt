//! A sink that counts the tags that go to another.
ghost use Rattle.std.specs.Prelude.{◌≡◌, ℕ};
ghost use Rattle.html_tokens.specs.Counting.{counted, counted_laws};

use crate::replies::TokenSinkResult;
use crate::sink::TokenSink;
use crate::tags::Tag;
use crate::token::Token;
use markup::ParseFault;

/// A sink that hands each token on to another, and counts the tags that it took.
#[derive(Drop)]
pub struct Counting<S> {
    /// What takes the tokens.
    pub inner: S,
    /// How many tags it took. At u64::MAX the number stays.
    pub tags: u64,
}

impl<S> Counting<S> {
    /// Counts the tags that a sink takes from here on.
    pub fn new(inner: S) -> Counting<S>
        ensures { result ≡ record { inner = inner; tags = 0 } }
    {
        Counting { inner, tags: 0 }
    }
}

impl<S: TokenSink> TokenSink for Counting<S> {
    type Handle = S::Handle;

    ghost State = { S.State × ℕ };

    ghost view = { λ c. (S.view c.inner, c.tags) };

    ghost is_sound = { λ s. S.is_sound s.0 };

    ghost step = { counted S.step };

    ghost ended = { λ s. (S.ended s.0, s.1) };

    ghost asks_cdata = { λ s. S.asks_cdata s.0 };

    ghost errors = { λ c. S.errors c.inner };

    ghost errors_ended = { λ s. S.errors_ended s.0 };

    ghost is_quiet = { λ s token. S.is_quiet s.0 token };

    ghost has_failed = { λ c. S.has_failed c.inner };

    ghost references = { λ c. S.references c.inner };

    ghost number = { S.number };

    ghost laws = { counted_laws S.is_sound S.step S.ended S.is_quiet S.laws };

    fn process_token(
        &mut self,
        token: Token,
        line_number: u64,
    ) -> Result<TokenSinkResult<S::Handle>, ParseFault> {
        let is_tag = matches!(&token, Token::TagToken(_));
        let reply = self.inner.process_token(token, line_number)?;
        if is_tag {
            self.tags = self.tags.saturating_add(1);
        }
        Ok(reply)
    }

    fn process_tag(
        &mut self,
        tag: &mut Tag,
        line_number: u64,
    ) -> Result<TokenSinkResult<S::Handle>, ParseFault> {
        let reply = self.inner.process_tag(tag, line_number)?;
        self.tags = self.tags.saturating_add(1);
        Ok(reply)
    }

    fn end(&mut self) {
        self.inner.end();
    }

    fn adjusted_current_node_present_but_not_in_html_namespace(&self) -> bool {
        self.inner
            .adjusted_current_node_present_but_not_in_html_namespace()
    }
}
