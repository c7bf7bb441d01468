//! Laws of cleaning. Each function's contract is one law.
ghost use Rattle.html_clean.specs.PieceLaws.{ArePiecesNormal, ArePiecesRead};
ghost use Rattle.html_clean.specs.Laws.{AreCleanedKept, AreCleanedCalls, IsCleanedRead, IsCleanedSame, AreKeptPieces};

use html_tokens::sink::TokenSink;

/// Written pieces are told as just these pieces, whatever follows.
pub fn pieces_are_read<S: TokenSink>()
    ensures { ArePiecesRead S.is_sound S.step S.asks_cdata S.ended }
{}

/// Written pieces have no carriage return.
pub fn pieces_are_normal()
    ensures { ArePiecesNormal }
{}

/// What cleaning leaves is kept by the policy.
pub fn cleaned_is_kept()
    ensures { AreCleanedKept }
{}

/// The pieces of what is kept are kept, one by one, and their tags are balanced.
pub fn pieces_are_kept()
    ensures { AreKeptPieces }
{}

/// What is written of cleaned trees is told, by whatever tokenizer in data, as the pieces of these trees.
pub fn cleaned_is_read<S: TokenSink>()
    ensures { IsCleanedRead S.is_sound S.step S.asks_cdata S.ended }
{}

/// Filtering the calls of trees leaves the calls of the cleaned trees.
pub fn calls_are_cleaned()
    ensures { AreCleanedCalls }
{}

/// Cleaning changes nothing in what is kept, and so nothing in what was cleaned.
pub fn cleaned_stays()
    ensures { IsCleanedSame }
{}
