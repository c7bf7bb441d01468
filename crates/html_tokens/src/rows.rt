//! Worked rows of tokenizing: what the definitions give for each is computed by the check.
ghost use Rattle.html_tokens.specs.RowsOfText.{AreTextRowsRead, AreLongestRowsRead, AreUntabledRowsRead};
ghost use Rattle.html_tokens.specs.RowsOfTags.{AreTagRowsRead};
ghost use Rattle.html_tokens.specs.RowsOfComments.{AreCommentRowsRead, AreCdataRowsRead};
ghost use Rattle.html_tokens.specs.RowsOfDoctypes.{AreDoctypeRowsRead};
ghost use Rattle.html_tokens.specs.RowsOfRawText.{AreRawRowsRead, AreScriptRowsRead, AreEndRowsRead};
ghost use Rattle.html_tokens.specs.RowsOfLines.{AreLineRowsRead, ArePauseRowsRead, IsEndRowRead};
ghost use Rattle.html_tokens.specs.RowsOfErrors.{AreErrorRowsRead, AreCleanRowsRead};

/// Texts, U+0000 and references, read as the rows say.
pub fn text_rows()
    ensures { AreTextRowsRead }
{}

/// References by the longest name of a table, read as the rows say.
pub fn longest_name_rows()
    ensures { AreLongestRowsRead }
{}

/// References without a table, read as the rows say.
pub fn without_table_rows()
    ensures { AreUntabledRowsRead }
{}

/// Tags and attributes, read as the rows say.
pub fn tags_rows()
    ensures { AreTagRowsRead }
{}

/// Comments and bogus comments, read as the rows say.
pub fn comments_rows()
    ensures { AreCommentRowsRead }
{}

/// CDATA sections, read as the rows say.
pub fn cdata_rows()
    ensures { AreCdataRowsRead }
{}

/// Doctypes, with each cause of quirks, read as the rows say.
pub fn doctypes_rows()
    ensures { AreDoctypeRowsRead }
{}

/// Raw text and plain text, read as the rows say.
pub fn raw_text_rows()
    ensures { AreRawRowsRead }
{}

/// The three modes of a script's text, read as the rows say.
pub fn scripts_rows()
    ensures { AreScriptRowsRead }
{}

/// Raw text by the name of the last start tag, read as the rows say.
pub fn ends_rows()
    ensures { AreEndRowsRead }
{}

/// The lines of tokens, read as the rows say.
pub fn lines_rows()
    ensures { AreLineRowsRead }
{}

/// Pauses, read as the rows say.
pub fn pauses_rows()
    ensures { ArePauseRowsRead }
{}

/// The end of input, read as the rows say.
pub fn end_rows()
    ensures { IsEndRowRead }
{}

/// The number of errors that a text owes, as the rows say.
pub fn error_rows()
    ensures { AreErrorRowsRead }
{}

/// Clean texts, and others, as the rows say.
pub fn clean_rows()
    ensures { AreCleanRowsRead }
{}
