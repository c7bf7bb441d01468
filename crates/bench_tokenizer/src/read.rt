//! Reading a page in pieces.
ghost use Rattle.std.specs.Prelude.{◌≡◌, [], IfOk, OnOk};
ghost use Rattle.std.specs.Str.{chars};
ghost use Rattle.std.specs.String.{string_bytes};
ghost use Rattle.bench_tokenizer.specs.Readings.{Begins, CountsPage, IsCounted, Reads, Takes};

use crate::counts::Counts;
use html_tokenizer::{BufferQueue, References, Tokenizer, TokenizerOpts};
use markup::{ParseFault, TokenizerResult};
use std::alloc::Global;
use text_pieces::split_piece;

/// A tokenizer at the front of its input.
fn tokenizer_of(alloc: Global, table: References, exact_errors: bool) -> Tokenizer<Counts>
    ensures { Begins table result }
{
    let opts = TokenizerOpts {
        exact_errors,
        ..TokenizerOpts::default()
    };
    Tokenizer::new(alloc, Counts::new(false), opts, table)
}

/// Has a tokenizer read a text. Its sink asks for no pause.
fn feed_text(
    tokenizer: &mut Tokenizer<Counts>,
    input: &mut BufferQueue,
    text: String,
) -> Result<(), ParseFault>
    requires takes { Takes tokenizer.old }
    requires empty { input.old.characters ≡ [] }
    ensures reads { OnOk result (Reads tokenizer.old tokenizer.new (chars (string_bytes text))) }
    ensures empty { OnOk result (input.new.characters ≡ []) }
{
    input.push_back(text)?;
    match tokenizer.feed(input)? {
        TokenizerResult::Done => Ok(()),
        _ => Err(ParseFault::Shape),
    }
}

/// Has a tokenizer read a page in pieces to its end.
fn feed_page(alloc: Global, tokenizer: &mut Tokenizer<Counts>, page: &str) -> Result<(), ParseFault>
    requires { Takes tokenizer.old }
    ensures { OnOk result (CountsPage tokenizer.old tokenizer.new (chars page.now)) }
{
    let mut input = BufferQueue::new();
    let mut rest = page;
    while !rest.is_empty() {
        let (piece, behind) = split_piece(rest);
        feed_text(tokenizer, &mut input, String::from_str(alloc, piece)?)?;
        rest = behind;
    }
    tokenizer.end()?;
    Ok(())
}

/// What was counted. The tokenizer is let go of here alone, and as a whole: what is left of one without its sink takes long
/// to prove.
pub(crate) fn counts_of(tokenizer: Tokenizer<Counts>) -> Counts
    ensures { result ≡ tokenizer.sink }
{
    let counts = tokenizer.sink;
    drop(tokenizer);
    counts
}

/// Reads a page in pieces to its end, and counts what it says.
pub(crate) fn read(
    alloc: Global,
    page: &str,
    table: References,
    exact_errors: bool,
) -> Result<Counts, ParseFault>
    ensures { IfOk result (λ counts. IsCounted table (chars page.now) counts) }
{
    let mut tokenizer = tokenizer_of(alloc, table, exact_errors);
    let answer = feed_page(alloc, &mut tokenizer, page);
    let counts = counts_of(tokenizer);
    answer?;
    Ok(counts)
}
