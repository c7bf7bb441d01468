//! The tokens of a page, listed.

use figpliers::{BufferQueue, Listed, ParseFault, References, Tokenizer, TokenizerOpts};
use std::alloc::Global;

pub fn tokens(alloc: Global, table: References, page: String) -> Result<Listed, ParseFault> {
    let mut tokenizer = Tokenizer::new(
        alloc,
        Listed::new(alloc, false),
        TokenizerOpts::default(),
        table,
    );
    let mut input = BufferQueue::new();
    input.push_back(page)?;
    while !input.is_empty() {
        drop(tokenizer.feed(&mut input)?);
    }
    tokenizer.end()?;
    Ok(tokenizer.sink)
}
