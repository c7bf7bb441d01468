//! Laws of the plain grammar. Each function's contract is one law.
ghost use Rattle.html_plain.specs.Frames.{AreDocumentsFramed};
ghost use Rattle.html_plain.specs.Laws.{AreFormsWritten, IsGrammarComputed};

/// The grammar by cases and as it is computed have the same trees.
pub fn grammar_is_computed()
    ensures { IsGrammarComputed }
{}

/// What is written of each form of the grammar: a doctype, a text, a comment, a `br`, and any other element.
pub fn forms_are_written()
    ensures { AreFormsWritten }
{}

/// A plain document is a doctype, and `html` with `head`, white space or none, and `body`.
pub fn documents_are_framed()
    ensures { AreDocumentsFramed }
{}
