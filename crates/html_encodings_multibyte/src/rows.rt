//! Worked rows of decoding: what the definitions give for each is computed by the check.
ghost use Rattle.html_encodings_multibyte.specs.Rows.{index_rows, range_rows, error_rows, escape_rows, AreRead};

/// Characters of several bytes, read as the rows say.
pub fn index_rows()
    ensures { AreRead index_rows }
{}

/// Four bytes of gb18030, read as the rows say.
pub fn range_rows()
    ensures { AreRead range_rows }
{}

/// Errors, read as the rows say.
pub fn error_rows()
    ensures { AreRead error_rows }
{}

/// Escapes of ISO-2022-JP, read as the rows say.
pub fn escape_rows()
    ensures { AreRead escape_rows }
{}
