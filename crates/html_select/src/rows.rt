//! Worked rows: what the definitions select in a page by each text is computed by the check.
ghost use Rattle.html_select.specs.Rows.{AreSelected, attribute_rows, behind_rows, chain_rows, class_rows};
ghost use Rattle.html_select.specs.Rows.{combinator_rows, is_rows, of_type_rows, place_rows, type_rows};

/// Types, namespaces, ids and classes select as the rows say.
pub fn type_rows()
    ensures { AreSelected type_rows }
{}

/// Attributes select as the rows say.
pub fn attribute_rows()
    ensures { AreSelected attribute_rows }
{}

/// Combinators and lists select as the rows say.
pub fn combinator_rows()
    ensures { AreSelected combinator_rows }
{}

/// Combinators behind ids, classes and attributes select as the rows say.
pub fn chain_rows()
    ensures { AreSelected chain_rows }
{}

/// Places among all siblings select as the rows say.
pub fn place_rows()
    ensures { AreSelected place_rows }
{}

/// Places among siblings of a name select as the rows say.
pub fn of_type_rows()
    ensures { AreSelected of_type_rows }
{}

/// Pseudo-classes without arguments select as the rows say.
pub fn class_rows()
    ensures { AreSelected class_rows }
{}

/// One of several selectors select as the rows say.
pub fn is_rows()
    ensures { AreSelected is_rows }
{}

/// Relative selectors of what comes behind select as the rows say.
pub fn behind_rows()
    ensures { AreSelected behind_rows }
{}
