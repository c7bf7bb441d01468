//! A sink that refuses.
ghost use Rattle.std.specs.Prelude.{⊤, true, false, if◌then◌else◌};
ghost use Rattle.html_tokens.specs.Sink.{Refusal, InText, Unfit};
ghost use Rattle.html_tokenizer_tests.specs.TestSinks.{refused, refused_laws};

use html_tokenizer::{Token, TokenSink, TokenSinkResult};
use markup::ParseFault;

/// A sink that refuses every token.
#[derive(Drop)]
pub struct Refusing {
    /// Whether by `Shape`, and not by `TokenInText`.
    pub is_shape: bool,
}

impl TokenSink for Refusing {
    type Handle = u64;

    ghost State = { Refusal };

    ghost view = { λ r. if r.is_shape then Unfit else InText };

    ghost is_sound = { λ _. ⊤ };

    ghost step = { refused };

    ghost ended = { λ s. s };

    ghost asks_cdata = { λ _. false };

    ghost errors = { λ _. 0 };

    ghost errors_ended = { λ _ n. n };

    ghost is_quiet = { λ _ _. true };

    ghost has_failed = { λ _. false };

    ghost number = { λ n. n };

    ghost laws = { refused_laws };

    fn process_token(
        &mut self,
        token: Token,
        _line_number: u64,
    ) -> Result<TokenSinkResult<u64>, ParseFault> {
        drop(token);
        if self.is_shape {
            return Err(ParseFault::Shape);
        }
        Err(ParseFault::TokenInText)
    }

    fn end(&mut self) {}

    fn adjusted_current_node_present_but_not_in_html_namespace(&self) -> bool {
        false
    }
}
