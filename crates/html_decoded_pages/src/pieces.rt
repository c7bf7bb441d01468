//! Reading a text in pieces, with the places of what comes of them, up to where an encoding is named.
ghost use Rattle.std.specs.Prelude.{◌≡◌, ◌++◌, [], IfErr, IfOk, OnOk};
ghost use Rattle.std.specs.Str.{chars};
ghost use Rattle.html_parser.specs.Read.{Beginning, FailsAfter};
ghost use Rattle.html_places.specs.Pieces.{IsTaken};
ghost use Rattle.markup.specs.declared.fault.ParseFault.TheVariants.{Memory};
ghost use Rattle.html_decoded_pages.specs.Pauses.{GoesOn, IsBefore, IsFree, Meets, ReadsIn};

use crate::changing::changed_to;
use crate::pauses::{end, next_encoding, read_on};
use html_encodings::Encoding;
use html_places::{NotedForest, Noting, Pieces};
use html_tokenizer::{BufferQueue, TokenSink, Tokenizer};
use html_tree_builder::TreeBuilder;
use markup::{ParseFault, TreeSink};
use std::alloc::Global;

/// What takes tokens for a tree beside which parse errors are noted.
pub(crate) trait NotingTokens {
    /// The tree and the errors.
    fn noted(&self) -> &NotedForest;
}

impl<Sink: TreeSink + Noting> NotingTokens for TreeBuilder<Sink> {
    fn noted(&self) -> &NotedForest {
        self.sink.noted()
    }
}

/// A queue that has a piece.
fn piece_queue(alloc: Global, piece: &str) -> Result<BufferQueue, ParseFault>
    ensures ok { IfOk result (λ queue. queue.characters ≡ chars piece.now) }
    ensures fault { IfErr result (λ fault. fault ≡ Memory) }
{
    let mut queue = BufferQueue::new();
    queue.push_back(String::from_str(alloc, piece)?)?;
    Ok(queue)
}

/// Has a tokenizer read the pieces that are left, past every pause.
fn read_pieces<S: TokenSink + NotingTokens>(
    alloc: Global,
    tokenizer: &mut Tokenizer<S>,
    pieces: &mut Pieces<'_>,
) -> Result<(), ParseFault>
    requires free { IsFree S.TokenSink tokenizer.old }
    requires taken { IsTaken pieces.old }
    ensures ok { OnOk result (GoesOn S.TokenSink tokenizer.old tokenizer.new (chars pieces.old.rest.now)) }
    ensures err { IfErr result (FailsAfter S.TokenSink tokenizer.old) }
    ensures taken { IsTaken pieces.new }
    ensures text { pieces.new.text.now ≡ pieces.old.text.now }
{
    while let Some(piece) = pieces.next_piece() {
        let mut input = piece_queue(alloc, piece)?;
        read_on(tokenizer, &mut input)?;
        pieces.note(tokenizer.sink.noted(), tokenizer.nothing_pending())?;
    }
    Ok(())
}

/// Has a tokenizer read pieces up to the first `meta` that names an encoding, or all that are left where none does. What waits of the piece
/// in which it is named stays in the input.
fn seek_encoding<S: TokenSink + NotingTokens>(
    alloc: Global,
    tokenizer: &mut Tokenizer<S>,
    pieces: &mut Pieces<'_>,
    input: &mut BufferQueue,
) -> Result<Option<Encoding>, ParseFault>
    requires free { IsFree S.TokenSink tokenizer.old }
    requires taken { IsTaken pieces.old }
    requires empty { input.old.characters ≡ [] }
    ensures ok { IfOk result (Meets S.TokenSink tokenizer.old tokenizer.new (chars pieces.old.rest.now)
        (input.new.characters ++ chars pieces.new.rest.now)) }
    ensures err { IfErr result (FailsAfter S.TokenSink tokenizer.old) }
    ensures taken { IsTaken pieces.new }
    ensures text { pieces.new.text.now ≡ pieces.old.text.now }
{
    while let Some(piece) = pieces.next_piece() {
        *input = piece_queue(alloc, piece)?;
        if let Some(encoding) = next_encoding(tokenizer, input)? {
            return Ok(Some(encoding));
        }
        pieces.note(tokenizer.sink.noted(), tokenizer.nothing_pending())?;
    }
    Ok(None)
}

/// Has a tokenizer read what waits of a piece, and then the pieces that are left, past every pause.
fn read_rest<S: TokenSink + NotingTokens>(
    alloc: Global,
    tokenizer: &mut Tokenizer<S>,
    pieces: &mut Pieces<'_>,
    input: &mut BufferQueue,
) -> Result<(), ParseFault>
    requires free { IsFree S.TokenSink tokenizer.old }
    requires taken { IsTaken pieces.old }
    ensures ok { OnOk result (GoesOn S.TokenSink tokenizer.old tokenizer.new (input.old.characters ++ chars pieces.old.rest.now)) }
    ensures err { IfErr result (FailsAfter S.TokenSink tokenizer.old) }
    ensures taken { IsTaken pieces.new }
    ensures text { pieces.new.text.now ≡ pieces.old.text.now }
{
    read_on(tokenizer, input)?;
    pieces.note(tokenizer.sink.noted(), tokenizer.nothing_pending())?;
    read_pieces(alloc, tokenizer, pieces)
}

/// Has a tokenizer read the pieces of a text in an encoding, and its end; or only up to where another encoding is named, which is answered.
pub(crate) fn read_pieces_in<S: TokenSink + NotingTokens>(
    alloc: Global,
    tokenizer: &mut Tokenizer<S>,
    pieces: &mut Pieces<'_>,
    encoding: Encoding,
) -> Result<Option<Encoding>, ParseFault>
    requires free { IsFree S.TokenSink tokenizer.old }
    requires taken { IsTaken pieces.old }
    ensures ok { IfOk result (λ other. (begin : Beginning S.State) → IsBefore S.TokenSink begin tokenizer.old
        → ReadsIn S.TokenSink begin (chars pieces.old.rest.now) encoding tokenizer.new.sink other) }
    ensures err { IfErr result (FailsAfter S.TokenSink tokenizer.old) }
    ensures taken { IsTaken pieces.new }
    ensures text { pieces.new.text.now ≡ pieces.old.text.now }
{
    let mut input = BufferQueue::new();
    let Some(named) = seek_encoding(alloc, tokenizer, pieces, &mut input)? else {
        end(tokenizer)?;
        return Ok(None);
    };
    let settled = changed_to(encoding, named);
    if settled != encoding {
        return Ok(Some(settled));
    }
    read_rest(alloc, tokenizer, pieces, &mut input)?;
    end(tokenizer)?;
    Ok(None)
}
