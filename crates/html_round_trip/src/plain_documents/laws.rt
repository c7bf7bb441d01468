//! Laws of reading written documents back. Each function's contract is one law.
ghost use Rattle.html_round_trip.specs.ReadBack.Forms.{AreBlocksRead, AreCommentsRead, AreFramesRead, AreInlinesRead};
ghost use Rattle.html_round_trip.specs.ReadBack.Forms.{ArePlainTreesRead, AreTablesRead, AreTextsRead, OfEachTable};
ghost use Rattle.html_round_trip.specs.ReadBack.ReadBack.{AreDocumentsReadBack, ArePlainBytesReadAgain, ArePlainBytesStable};
ghost use Rattle.html_round_trip.specs.ReadBack.ReadBack.{ArePlainForestsReadAgain};

/// The doctype, `html`, `head` with white space and a title, white space, and `body` lead from one insertion mode to the next.
pub fn frames_are_read()
    ensures { AreFramesRead }
{}

/// A text in flow goes into the current node; white space in a table waits for the next tag.
pub fn texts_are_read()
    ensures { OfEachTable AreTextsRead }
{}

/// A comment in flow goes into the current node, and nothing else changes.
pub fn comments_are_read()
    ensures { OfEachTable AreCommentsRead }
{}

/// A `br`, a formatting element and a link are read as they are.
pub fn inlines_are_read()
    ensures { OfEachTable AreInlinesRead }
{}

/// So are a paragraph, a heading, a division, and a list with its items.
pub fn blocks_are_read()
    ensures { OfEachTable AreBlocksRead }
{}

/// So are a table, its bodies, their rows, and the cells of these.
pub fn tables_are_read()
    ensures { OfEachTable AreTablesRead }
{}

/// Plain trees are read in their place as they are, and the state comes back.
pub fn plain_trees_are_read()
    ensures { ArePlainTreesRead }
{}

/// What is written of a plain document is read as that document, without an error.
pub fn written_documents_are_read_back()
    ensures { AreDocumentsReadBack }
{}

/// What is written of a forest that is judged plain is read as a document that is judged plain and written the same.
pub fn plain_forests_are_read_again()
    ensures { ArePlainForestsReadAgain }
{}

/// The bytes that such a forest is written as are a text, which is read so and written as the same bytes.
pub fn plain_bytes_are_read_again()
    ensures { ArePlainBytesReadAgain }
{}

/// Whatever document these bytes are read as, it is plain, has the same trees, and is written as the same bytes.
pub fn plain_bytes_write_themselves()
    ensures { ArePlainBytesStable }
{}
