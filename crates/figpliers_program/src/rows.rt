//! Worked rows of the definitions: what they give for each is computed by the check.
ghost use Rattle.figpliers_program.specs.RowsOfCleaning.{AreCleanWordsFound};
ghost use Rattle.figpliers_program.specs.RowsOfLines.{AreLinesWritten, AreVerdictsGraver};
ghost use Rattle.figpliers_program.specs.RowsOfWords.{AreConflictsFound, AreNamesKnown, AreWordsFound, AreWordsRejected};

/// Words with the kinds of error with which clap rejects them, as the rows say.
pub fn rejected_rows()
    ensures { AreWordsRejected }
{}

/// What clap finds in words, as the rows say.
pub fn found_rows()
    ensures { AreWordsFound }
{}

/// Whether options exclude each other, as the rows say.
pub fn conflict_rows()
    ensures { AreConflictsFound }
{}

/// Names of elements, as the rows say.
pub fn name_rows()
    ensures { AreNamesKnown }
{}

/// Words for `clean`, as the rows say.
pub fn clean_rows()
    ensures { AreCleanWordsFound }
{}

/// Lines that are written, as the rows say.
pub fn line_rows()
    ensures { AreLinesWritten }
{}

/// Verdicts of two pages, as the rows say.
pub fn verdict_rows()
    ensures { AreVerdictsGraver }
{}
