//! What is asked of a normalisation, and what it tells of a document.

use markup::QuirksMode;
use std::fmt;

/// Which layers tell every parse error; each switch may change only the number of errors.
#[derive(Clone, Copy, Debug, Default, PartialEq, Eq, Hash)]
pub struct Exact {
    /// The tokenizer.
    pub tokenizer: bool,
    /// The tree builder.
    pub tree_builder: bool,
}

/// What a normalisation tells of a document.
#[derive(Clone, Copy, Debug, PartialEq, Eq, Hash)]
pub struct Report {
    /// Whether the document is plain: its written text, read again, gives the same document and the same bytes.
    pub plain: bool,
    pub quirks: QuirksMode,
    /// The number of parse errors, which stops at u64::MAX.
    pub errors: u64,
}

/// The program's line on a document that was normalised.
impl fmt::Display for Report {
    ghost use Rattle.std.specs.Prelude.{Some};
    ghost use Rattle.html_normal.specs.Lines.{report_line};

    ghost output = { λ report. Some (report_line report) };

    fn fmt<W: fmt::Write>(&self, f: &mut fmt::Formatter<W>) -> fmt::Result {
        let plain = if self.plain { "yes" } else { "no" };
        let quirks = match self.quirks {
            QuirksMode::NoQuirks => "no",
            QuirksMode::LimitedQuirks => "limited",
            QuirksMode::Quirks => "yes",
        };
        let errors = self.errors;
        write!(f, "plain={plain} quirks={quirks} errors={errors}")
    }
}
