//! Laws over the calls of a tokenizer. Each function's contract is one law.
ghost use Rattle.html_tokenizer.specs.Laws.{AreCallsChained, IsAnyPieces, IsChainEnded, IsCleanTextQuiet, IsEachFaultTold};
ghost use Rattle.html_tokenizer.specs.Laws.{IsOwing, IsSameRoad};

use html_tokens::sink::TokenSink;

/// Calls of one tokenizer, one after the other, make of the text that they take what the first was to make of it, whatever
/// follows.
pub fn calls_are_chained<Sink: TokenSink>()
    ensures { AreCallsChained Sink.TokenSink }
{}

/// Calls of one tokenizer and its end leave the sink as the first was to make it of the text that they took.
pub fn chains_are_ended<Sink: TokenSink>()
    ensures { IsChainEnded Sink.TokenSink }
{}

/// In whatever pieces a text is fed to a tokenizer, put in at pauses too, and with control characters told or not: the
/// sink is left in one state, and the pauses are the same.
pub fn any_pieces<Sink: TokenSink>()
    ensures { IsAnyPieces Sink.TokenSink }
{}

/// Telling control characters or not changes nothing of what is to come.
pub fn same_road<Sink: TokenSink>()
    ensures { IsSameRoad Sink.TokenSink }
{}

/// From a new tokenizer to its end, in whatever pieces the text came, the number of errors rises by as many as the text has
/// faulty items, and control characters and noncharacters where these are told, at least, or is at `u64::MAX`.
pub fn each_fault_is_told<Sink: TokenSink>()
    ensures { IsEachFaultTold Sink.TokenSink }
{}

/// What a tokenizer owes of errors is told, call by call, or still owed; at the end it is told.
pub fn owed_errors_are_told<Sink: TokenSink>()
    ensures { IsOwing Sink.TokenSink }
{}

/// A text that is read without anything that is not clean, in whatever pieces it came, tells no error; unless the sink itself
/// finds an error in a token, or the text has control characters or noncharacters and these are told. The number of errors is
/// then what the sink's own end makes of the number before the text.
pub fn clean_texts_tell_no_error<Sink: TokenSink>()
    ensures { IsCleanTextQuiet Sink.TokenSink }
{}
