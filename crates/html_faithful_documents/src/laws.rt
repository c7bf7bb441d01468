//! Laws of faithful documents. Each function's contract is one law.
ghost use Rattle.html_faithful_documents.specs.Documents.{AreFaithfulBytesReadBack, AreFaithfulTreesReadBack};
ghost use Rattle.html_faithful_documents.specs.Forms.{AreAllFormsTold};
ghost use Rattle.html_faithful_documents.specs.Pages.{AreFilledPagesReadBack, AreFilledPagesWritten};

/// The written forms of faithful trees are read as their tokens.
pub fn forms_are_told()
    ensures { AreAllFormsTold }
{}

/// The written text of a faithful document is read as just that document, without the identifiers of its doctype, and is written so again.
pub fn faithful_documents_are_read_back()
    ensures { AreFaithfulTreesReadBack }
{}

/// So are the bytes that it is written as, and they are written again.
pub fn faithful_bytes_are_read_back()
    ensures { AreFaithfulBytesReadBack }
{}

/// A page template is judged once, with a sample in its hole. With any other value that is like the sample there, what is written of
/// the page is read as just that page: no value breaks out of its hole. `texts_are_alike` and `values_are_alike` of `html_faithful` say
/// which texts and values of attributes are alike, `plain_trees_are_alike` of `html_faithful_plain` which trees. In `script`, `style` and
/// other raw text nothing is escaped: there a text is like another only if both come back as they are written.
pub fn filled_pages_are_read_back()
    ensures { AreFilledPagesReadBack }
{}

/// What is written of a page with a value in a hole is what is written before the hole, of the value, and behind the hole; so a
/// template engine may put texts together that it wrote before.
pub fn filled_pages_are_written()
    ensures { AreFilledPagesWritten }
{}
