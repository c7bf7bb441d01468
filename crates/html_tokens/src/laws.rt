//! Laws over the definitions of tokenizing. Each function's contract is one law.
ghost use Rattle.std.specs.Prelude.{⊤};
ghost use Rattle.html_tokens.specs.Laws.{IsCleanQuiet, IsItemInText, IsReadByItems, IsSkipped, AreNewlinesJoined};
ghost use Rattle.html_tokens.specs.Laws.{IsCutAnywhere, IsNotedReadAlike, IsRunOneText, IsOwnNormalText, IsFirstKept};
ghost use Rattle.html_tokens.specs.Laws.{IsEachTokenSound, ReadsEscapes, AreLinesCounted, JoinsText};
ghost use Rattle.html_tokens.specs.RowForms.{five, raw_text};
ghost use Rattle.html_tokens.specs.Listing;
ghost use Rattle.html_tokens.specs.TagEquality.{IsTagEquivalence};

use crate::sink::TokenSink;

/// An item takes a character at least, and stands at the front of the text.
pub fn items_stand_at_the_front()
    ensures { IsItemInText }
{}

/// Reading a text is reading its first item, and then what follows it.
pub fn readings_go_by_items<S: TokenSink>()
    ensures { IsReadByItems S.step S.asks_cdata S.ended }
{}

/// After an item a reading goes on as for what is left of the text.
pub fn readings_go_on_after_items<S: TokenSink>()
    ensures { IsSkipped S.step S.asks_cdata S.ended }
{}

/// A text in two pieces has the line breaks of the whole.
pub fn line_breaks_may_be_cut()
    ensures { AreNewlinesJoined }
{}

/// Two lists of pieces with one joined text have one normalised text, and so one reading.
pub fn texts_may_be_cut_anywhere()
    ensures { IsCutAnywhere }
{}

/// From sound states every sink takes text in pieces as in one, whatever the lines.
pub fn sinks_join_text<S: TokenSink>()
    ensures { JoinsText S.is_sound S.step }
{}

/// A run of plain text in data is read as one text, wherever it is cut.
pub fn runs_are_one_text<S: TokenSink>()
    ensures { IsRunOneText S.is_sound S.step S.asks_cdata S.ended }
{}

/// Text without a carriage return is its own normalised text.
pub fn plain_text_is_normal()
    ensures { IsOwnNormalText }
{}

/// No text holds U+0000, a tag's name is lowered and not empty, and its attributes have distinct names.
pub fn tokens_are_sound()
    ensures { IsEachTokenSound }
{}

/// A text that is read without anything that is not clean owes no error, and is quiet.
pub fn clean_texts_are_quiet<S: TokenSink>()
    ensures { IsCleanQuiet S.step S.is_quiet S.asks_cdata S.ended }
{}

/// What is noted of a reading changes nothing of it.
pub fn notes_change_nothing<S: TokenSink>()
    ensures { IsNotedReadAlike S.step S.is_quiet S.asks_cdata S.ended }
{}

/// The table of five names reads what escaping writes.
pub fn five_names_read_escapes()
    ensures { ReadsEscapes five }
{}

/// The line of a token is one more than the line breaks up to its slice's end.
pub fn line_breaks_add_up()
    ensures { AreLinesCounted }
{}

/// The listing sink of the worked rows takes text in pieces.
pub fn listing_joins_text()
    ensures { JoinsText (λ _. ⊤) (Listing.step raw_text) }
{}

/// Of attributes of one name the first stays.
pub fn first_attributes_stay()
    ensures { IsFirstKept }
{}

/// Being equal up to the order of attributes is an equivalence of tags.
pub fn tags_are_compared_by_an_equivalence()
    ensures { IsTagEquivalence }
{}
