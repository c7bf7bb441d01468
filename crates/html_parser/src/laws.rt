//! Laws of parsing. Each function's contract is one law.
ghost use Rattle.html_parser.specs.Cuts.{MayBeCut};
ghost use Rattle.html_parser.specs.Laws.{AreCutAnywhere, AreErrorsAside, IsNoTextRefused};

use html_tokenizer::TokenSink;
use markup::TreeSink;

/// In whatever pieces a text is taken, past every pause, the sink is left in one state at its end.
pub fn texts_may_be_cut_anywhere<Sink: TokenSink>()
    ensures { MayBeCut Sink.TokenSink }
{}

/// Documents of one text, and fragments of one text in one context, have equal trees and quirks modes, in whatever pieces it came.
pub fn documents_may_be_cut_anywhere<Sink: TreeSink>()
    ensures { AreCutAnywhere Sink.TreeSink }
{}

/// Whether the tokenizer or the tree builder tells errors exactly changes neither the tree nor the quirks mode.
pub fn exact_errors_change_no_tree<Sink: TreeSink>()
    ensures { AreErrorsAside Sink.TreeSink }
{}

/// From where documents and fragments begin, whatever is called, no text is refused: every fault is want of memory, or comes after a
/// fault or the end.
pub fn no_text_is_refused<Sink: TreeSink>()
    ensures { IsNoTextRefused Sink.TreeSink }
{}
