//! Parsing a text in pieces, with the places of what comes of them.
ghost use Rattle.std.specs.Prelude.{◌≡◌, IfErr, IfOk, OnOk};
ghost use Rattle.std.specs.Str.{chars};
ghost use Rattle.html_normal.specs.declared.fault.NormalFault.TheVariants.{Memory};
ghost use Rattle.html_parser.specs.Documents.{Begins, IsBuilt, builder};
ghost use Rattle.html_parser.specs.Read.{Beginning, FailsAfter, ReadsOn};
ghost use Rattle.html_places.specs.Pieces.{IsTaken};
ghost use Rattle.html_pages.specs.Pieces.{IsOpen};
ghost use Rattle.html_rules.specs.State.{State};

use html_normal::NormalFault;
use html_parser::Parser;
use html_places::{Noting, Pieces};
use markup::{ParseFault, TreeSink};
use std::alloc::Global;

/// Has a parser take a piece.
fn take_piece<Sink: TreeSink>(
    alloc: Global,
    parser: &mut Parser<Sink>,
    piece: &str,
) -> Result<(), ParseFault>
    requires free { IsOpen Sink.TreeSink parser.old }
    ensures ok { OnOk result (ReadsOn (builder Sink.TreeSink) parser.old.tokenizer parser.new.tokenizer (chars piece.now)) }
    ensures free { OnOk result (IsOpen Sink.TreeSink parser.new) }
    ensures err { IfErr result (FailsAfter (builder Sink.TreeSink) parser.old.tokenizer) }
{
    let text = String::from_str(alloc, piece)?;
    parser.process(text)
}

/// Has a parser take the pieces that are left, and notes the places of what comes of each.
fn take_pieces<Sink: TreeSink + Noting>(
    alloc: Global,
    parser: &mut Parser<Sink>,
    pieces: &mut Pieces<'_>,
) -> Result<(), ParseFault>
    requires free { IsOpen Sink.TreeSink parser.old }
    requires taken { IsTaken pieces.old }
    ensures ok { OnOk result (ReadsOn (builder Sink.TreeSink) parser.old.tokenizer parser.new.tokenizer (chars pieces.old.rest.now)) }
    ensures free { OnOk result (IsOpen Sink.TreeSink parser.new) }
    ensures err { IfErr result (FailsAfter (builder Sink.TreeSink) parser.old.tokenizer) }
    ensures taken { IsTaken pieces.new }
    ensures text { pieces.new.text.now ≡ pieces.old.text.now }
{
    while let Some(piece) = pieces.next_piece() {
        take_piece(alloc, parser, piece)?;
        let is_between = parser.tokenizer.nothing_pending();
        pieces.note(parser.tokenizer.sink.sink.noted(), is_between)?;
    }
    Ok(())
}

/// What a parser that has begun makes of the pieces of a whole text.
pub(crate) fn whole_in_pieces<Sink: TreeSink + Noting + Drop>(
    alloc: Global,
    parser: Parser<Sink>,
    pieces: &mut Pieces<'_>,
) -> Result<Sink::Output, NormalFault>
    requires free { IsOpen Sink.TreeSink parser }
    requires taken { IsTaken pieces.old }
    ensures ok { IfOk result (λ out. (begin : Beginning State) → Begins Sink.TreeSink begin parser.has_failed
        parser.tokenizer parser.input_buffer → IsBuilt Sink.TreeSink begin (chars pieces.old.rest.now) out) }
    ensures fault { IfErr result (λ fault. (begin : Beginning State) → Begins Sink.TreeSink begin parser.has_failed
        parser.tokenizer parser.input_buffer → fault ≡ Memory) }
    ensures taken { IsTaken pieces.new }
    ensures text { pieces.new.text.now ≡ pieces.old.text.now }
{
    let mut parser = parser;
    take_pieces(alloc, &mut parser, pieces)?;
    Ok(parser.finish()?)
}
