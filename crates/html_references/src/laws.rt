//! Laws over tables of references. Each function's contract is one law.
ghost use Rattle.html_tokens.specs.Laws.{ReadsEscapes};
ghost use Rattle.html_references.specs.Laws.{AreEscapesRead, AreValuesGiven, IsWholeNameLongest, IsWholeNameRead};
ghost use Rattle.html_references.specs.References.{five_rows};

/// No row of a checked table stands for U+0000.
pub fn values_are_no_nulls()
    ensures { AreValuesGiven }
{}

/// A name that ends in `;` is the longest of every text that begins with it.
pub fn whole_names_are_longest()
    ensures { IsWholeNameLongest }
{}

/// A name that ends in `;` is read as its row's characters, in text and in a value, whatever follows it.
pub fn whole_names_are_read()
    ensures { IsWholeNameRead }
{}

/// A checked table with the names that escaping writes reads what it writes.
pub fn escapes_are_read()
    ensures { AreEscapesRead }
{}

/// The table of five names does.
pub fn five_names_read_escapes()
    ensures { ReadsEscapes five_rows }
{
    html_tokens::laws::five_names_read_escapes();
}
