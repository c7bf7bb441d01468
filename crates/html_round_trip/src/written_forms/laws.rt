//! Laws of reading written forms back, by a table that reads the references that escaping writes. Each function's contract is
//! one law.
ghost use Rattle.html_round_trip.specs.Slices.Laws.{AreFormsSpelled, AreFormsRead, AreFormsNoted, AreFormsClean, AreReaders};
ghost use Rattle.html_round_trip.specs.Slices.Laws.{AreTextsRead, AreTextsNoted, AreTitlesRead, AreFormsNormal};
ghost use Rattle.html_round_trip.specs.Slices.PlainForms.{ArePlainFormsRead};

use html_tokens::sink::TokenSink;

/// Each written form is spelled by clean items of which the last tells its token.
pub fn forms_are_spelled()
    ensures { AreFormsSpelled }
{}

/// Each written form is read as one step with its token.
pub fn forms_are_read<S: TokenSink>()
    ensures { AreFormsRead S.step S.asks_cdata S.ended }
{}

/// The same of a reading of which is noted what is not quiet.
pub fn forms_are_noted<S: TokenSink>()
    ensures { AreFormsNoted S.step S.is_quiet S.asks_cdata S.ended }
{}

/// Each written form is clean.
pub fn forms_are_clean<S: TokenSink>()
    ensures { AreFormsClean S.step S.is_quiet S.asks_cdata S.ended }
{}

/// A reading, one of which something is noted and the test for clean text take each spelled slice as its token.
pub fn readers_take_spelled_slices<S: TokenSink>()
    ensures { AreReaders S.step S.is_quiet S.asks_cdata S.ended }
{}

/// Escaped text is told as that text, in data and in the text of a title.
pub fn escaped_text_is_read_back<S: TokenSink>()
    ensures { AreTextsRead S.is_sound S.step S.asks_cdata S.ended }
{}

/// The same of a reading of which is noted what is not quiet.
pub fn escaped_text_is_noted<S: TokenSink>()
    ensures { AreTextsNoted S.is_sound S.step S.is_quiet S.asks_cdata S.ended }
{}

/// Text that builds up states, and a whole title of it, are taken by each of the three readers.
pub fn titles_are_read<S: TokenSink>()
    ensures { AreTitlesRead S.step S.is_quiet S.asks_cdata S.ended }
{}

/// Written forms of texts without a carriage return have none, so they are their own normal text.
pub fn written_forms_are_normal()
    ensures { AreFormsNormal }
{}

/// The names, attributes and texts of plain documents are among those that are read back.
pub fn plain_forms_are_read()
    ensures { ArePlainFormsRead }
{}
