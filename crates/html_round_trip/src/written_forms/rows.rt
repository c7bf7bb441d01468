//! Worked rows of reading written forms back: what the definitions give for each is computed by the check.
ghost use Rattle.html_round_trip.specs.Slices.Rows.{AreFormRowsRead, AreOddRowsRead, AreFormRowsClean};

/// Written forms, read as the rows say.
pub fn form_rows()
    ensures { AreFormRowsRead }
{}

/// Each of them is clean.
pub fn clean_rows()
    ensures { AreFormRowsClean }
{}

/// What no law takes: other names, repeated attributes, U+0000 and U+000D, read as the rows say.
pub fn odd_rows()
    ensures { AreOddRowsRead }
{}
