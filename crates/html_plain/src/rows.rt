//! Worked rows of the plain grammar: what it says of each is computed by the check.
ghost use Rattle.html_plain.specs.Rows.{AreOddRows, ArePlainRows};

/// Bodies and documents that are plain, each for a clause that it meets.
pub fn plain_rows()
    ensures { ArePlainRows }
{}

/// Bodies and documents that are not, each for a clause that it just misses.
pub fn odd_rows()
    ensures { AreOddRows }
{}
