//! Worked rows of reading back: what the definitions give for each is computed by the check.
ghost use Rattle.html_round_trip.specs.ReadBack.Rows.{AreOddTextsReadOtherwise, ArePlainTextsReadBack};

/// Texts of plain documents write themselves, and are read without an error.
pub fn plain_texts_write_themselves()
    ensures { ArePlainTextsReadBack }
{}

/// Texts of documents that are not plain may be read as others.
pub fn odd_texts_are_read_otherwise()
    ensures { AreOddTextsReadOtherwise }
{}
