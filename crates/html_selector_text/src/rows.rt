//! Worked rows: what the definitions give for each text is computed by the check.
ghost use Rattle.html_selector_text.specs.Rows.{AreParsed, token_rows, simple_rows, complex_rows, class_rows, class_fault_rows};
ghost use Rattle.html_selector_text.specs.Rows.{argument_rows, relative_rows, nth_rows, nth_sign_rows};
ghost use Rattle.html_selector_text.specs.Rows.{only_rows, nth_selectors_rows};
ghost use Rattle.html_selector_text.specs.Rows.{AreWritten, nth_fault_rows, written_class_rows, written_nth_rows, written_rows};

/// Names, escapes, strings and comments, read as the rows say.
pub fn token_rows()
    ensures { AreParsed token_rows }
{}

/// Types, ids, classes and attributes, read as the rows say.
pub fn simple_rows()
    ensures { AreParsed simple_rows }
{}

/// Combinators and lists, read as the rows say.
pub fn complex_rows()
    ensures { AreParsed complex_rows }
{}

/// Pseudo-classes without arguments, read as the rows say.
pub fn class_rows()
    ensures { AreParsed class_rows }
{}

/// Pseudo-classes that are two simple selectors, read as the rows say.
pub fn only_rows()
    ensures { AreParsed only_rows }
{}

/// Pseudo-classes that are at fault, read as the rows say.
pub fn class_fault_rows()
    ensures { AreParsed class_fault_rows }
{}

/// Pseudo-classes with selectors in them, read as the rows say.
pub fn argument_rows()
    ensures { AreParsed argument_rows }
{}

/// Relative selectors, read as the rows say.
pub fn relative_rows()
    ensures { AreParsed relative_rows }
{}

/// An+B, read as the rows say.
pub fn nth_rows()
    ensures { AreParsed nth_rows }
{}

/// An+B with signs, read as the rows say.
pub fn nth_sign_rows()
    ensures { AreParsed nth_sign_rows }
{}

/// An+B with selectors, read as the rows say.
pub fn nth_selectors_rows()
    ensures { AreParsed nth_selectors_rows }
{}

/// What is no An+B, read as the rows say.
pub fn nth_fault_rows()
    ensures { AreParsed nth_fault_rows }
{}

/// Names, attributes, combinators and lists, written as the rows say, and read back.
pub fn written_rows()
    ensures { AreWritten written_rows }
{}

/// Pseudo-classes, written as the rows say, and read back.
pub fn written_class_rows()
    ensures { AreWritten written_class_rows }
{}

/// An+B and relative selectors, written as the rows say, and read back.
pub fn written_nth_rows()
    ensures { AreWritten written_nth_rows }
{}
