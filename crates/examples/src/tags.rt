//! How many tags a page has, by a sink of tokens of one's own.
ghost use Rattle.examples.specs.Tags.{laws, step};
ghost use Rattle.figpliers.specs.TokenizerCalls.{IsReadyIf, refusal_of};

use figpliers::{
    BufferQueue, ParseFault, References, Token, TokenSink, TokenSinkResult, Tokenizer,
    TokenizerOpts,
};
use std::alloc::Global;

/// Counts the tags and the errors that it is told. At u64::MAX a number stays.
#[derive(Drop)]
pub struct TagCounter {
    pub count: u64,
    pub errors: u64,
}

impl TokenSink for TagCounter {
    ghost use Rattle.std.specs.Prelude.{ℕ, true, false};

    type Handle = ();

    ghost State = { ℕ };

    ghost view = { λ tags. tags.count };

    ghost is_sound = { λ _. Unit {0} };

    ghost step = { step };

    ghost ended = { λ count. count };

    ghost asks_cdata = { λ _. false };

    ghost errors = { λ tags. tags.errors };

    ghost errors_ended = { λ _ errors. errors };

    ghost is_quiet = { λ _ _. true };

    ghost has_failed = { λ _. false };

    ghost number = { λ _. 0 };

    ghost laws = { laws };

    fn process_token(
        &mut self,
        token: Token,
        _line_number: u64,
    ) -> Result<TokenSinkResult<()>, ParseFault> {
        match token {
            Token::TagToken(_) => self.count = self.count.saturating_add(1),
            Token::ParseError(_) => self.errors = self.errors.saturating_add(1),
            _ => {}
        }
        Ok(TokenSinkResult::Continue)
    }

    fn end(&mut self) {
        let _ = &self.errors;
    }

    fn adjusted_current_node_present_but_not_in_html_namespace(&self) -> bool {
        false
    }
}

// Has a tokenizer read a page to its end.
fn feed_page<Sink: TokenSink>(
    tokenizer: &mut Tokenizer<Sink>,
    page: String,
) -> Result<(), ParseFault>
    requires { IsReadyIf Sink.TokenSink (refusal_of tokenizer.old) tokenizer.old }
{
    let mut input = BufferQueue::new();
    input.push_back(page)?;
    while !input.is_empty() {
        drop(tokenizer.feed(&mut input)?);
    }
    tokenizer.end()
}

fn count_of(tokenizer: Tokenizer<TagCounter>) -> u64 {
    tokenizer.sink.count
}

pub fn tags(alloc: Global, table: References, page: String) -> Result<u64, ParseFault> {
    let sink = TagCounter {
        count: 0,
        errors: 0,
    };
    let mut tokenizer = Tokenizer::new(alloc, sink, TokenizerOpts::default(), table);
    let answer = feed_page(&mut tokenizer, page);
    let count = count_of(tokenizer);
    answer?;
    Ok(count)
}
