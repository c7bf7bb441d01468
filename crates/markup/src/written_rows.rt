//! Worked rows of writing: what the definitions give for each is computed by the check.
ghost use Rattle.markup.specs.WrittenRows.{AreRowsWritten};

/// Characters, attributes, elements, nodes and the trees of a forest, written as the rows say.
pub fn written_rows()
    ensures { AreRowsWritten }
{}
