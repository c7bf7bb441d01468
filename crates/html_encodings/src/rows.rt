//! Worked rows of decoding and of declarations: what the definitions give for each is computed by the check.
ghost use Rattle.html_encodings.specs.Rows.{byte_rows, utf_8_rows, utf_16_rows, AreRead, AreLabelsRead, ArePagesRead};

/// Bytes of single-byte encodings, x-user-defined and replacement, read as the rows say.
pub fn single_byte_rows()
    ensures { AreRead byte_rows }
{}

/// Bytes of UTF-8, read as the rows say.
pub fn utf_8_rows()
    ensures { AreRead utf_8_rows }
{}

/// Bytes of UTF-16, read as the rows say.
pub fn utf_16_rows()
    ensures { AreRead utf_16_rows }
{}

/// Labels, read as the rows say.
pub fn label_rows()
    ensures { AreLabelsRead }
{}

/// The beginnings of pages, read as the rows say.
pub fn page_rows()
    ensures { ArePagesRead }
{}
