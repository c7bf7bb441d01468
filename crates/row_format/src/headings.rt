//! The headings of rows.

/// What stands under a heading of a row.
#[derive(Clone, Copy, PartialEq, Eq)]
pub enum Heading {
    /// The text that is read, as it stands there. A row begins with it.
    Data,
    /// The same, where the texts of the row have `\n`, `\r`, `\t`, `\0`, `\\` and `\u{..}` for characters.
    Escaped,
    /// What nothing is done with: words about the row, and the errors in the words of html5lib.
    About,
    /// The element around a fragment: a name of HTML, or a namespace and a name.
    Fragment,
    /// That scripts run, and that they don't.
    ScriptOn,
    ScriptOff,
    /// That the document is that of an `iframe` with `srcdoc`.
    Srcdoc,
    /// That the doctype stays out of the tree.
    DropDoctype,
    /// The named references: the lines of a table, or `five`, the names that a written text needs. Without it they are the Standard's.
    References,
    /// The state in which a tokenizer begins, and what counts as the name of its last start tag.
    State,
    LastStartTag,
    /// That a tokenizer's sink asks for CDATA sections, and that a mark U+FEFF in front is kept.
    Cdata,
    KeepMark,
    /// The tree, line by line, and what is written of it.
    Document,
    Written,
    /// The quirks mode.
    Quirks,
    /// The calls that a sink of trees gets beside those that build the tree, one a line.
    Hooks,
    /// The lines and the codes of the errors; of all errors, where characters may be some too.
    Codes,
    ExactCodes,
    /// The links of a page, and the text that it shows.
    Links,
    Shown,
    /// Whether the document is read back from what is written of it.
    ReadBack,
    /// The tokens, with their lines; those that are emitted before the end of the input, and the text after them.
    Tokens,
    Told,
    /// Whether a part of an item is pending before the end.
    Pending,
    /// How many parse errors a tokenizer reports, and how many where it checks characters too.
    Counts,
    /// What `normalise` writes, and what it reports.
    Normal,
    Report,
    /// What the ready policy leaves of a fragment, and of a document.
    Cleaned,
    CleanedDocument,
    /// What is outside of a policy, of what it leaves of a fragment, where that is read again.
    Outside,
    /// The encoding that the content of a `meta` element names.
    Encoding,
    /// The status of the program, and its words, where a table of references is none.
    Fault,
    /// A selector as it is written, or why a text is none.
    Selector,
    /// What selectors select in a page: in each line a selector, `=>`, and the ids.
    Selected,
}

const HEADINGS: &[(&str, Heading)] = &[
    ("#data", Heading::Data),
    ("#escaped", Heading::Escaped),
    ("#about", Heading::About),
    ("#errors", Heading::About),
    ("#new-errors", Heading::About),
    ("#document-fragment", Heading::Fragment),
    ("#script-on", Heading::ScriptOn),
    ("#script-off", Heading::ScriptOff),
    ("#srcdoc", Heading::Srcdoc),
    ("#drop-doctype", Heading::DropDoctype),
    ("#references", Heading::References),
    ("#state", Heading::State),
    ("#last-start-tag", Heading::LastStartTag),
    ("#cdata", Heading::Cdata),
    ("#keep-mark", Heading::KeepMark),
    ("#document", Heading::Document),
    ("#written", Heading::Written),
    ("#quirks", Heading::Quirks),
    ("#hooks", Heading::Hooks),
    ("#codes", Heading::Codes),
    ("#exact-codes", Heading::ExactCodes),
    ("#links", Heading::Links),
    ("#shown", Heading::Shown),
    ("#read-back", Heading::ReadBack),
    ("#tokens", Heading::Tokens),
    ("#told", Heading::Told),
    ("#pending", Heading::Pending),
    ("#counts", Heading::Counts),
    ("#normal", Heading::Normal),
    ("#report", Heading::Report),
    ("#cleaned", Heading::Cleaned),
    ("#cleaned-document", Heading::CleanedDocument),
    ("#outside", Heading::Outside),
    ("#encoding", Heading::Encoding),
    ("#fault", Heading::Fault),
    ("#selector", Heading::Selector),
    ("#selected", Heading::Selected),
];

/// The heading that a line is.
pub fn heading_of(line: &str) -> Option<Heading> {
    for (words, heading) in HEADINGS {
        if *words == line {
            return Some(*heading);
        }
    }
    None
}

/// The line that a heading is.
pub fn line_of(wanted: Heading) -> &'static str {
    for (words, heading) in HEADINGS {
        if *heading == wanted {
            return *words;
        }
    }
    ""
}

impl Heading {
    /// Whether a row begins with it.
    pub fn begins_row(self) -> bool {
        matches!(self, Heading::Data | Heading::Escaped)
    }

    /// Whether the lines under it are expected output.
    pub fn is_expected(self) -> bool {
        !matches!(
            self,
            Heading::Data
                | Heading::Escaped
                | Heading::About
                | Heading::Fragment
                | Heading::ScriptOn
                | Heading::ScriptOff
                | Heading::Srcdoc
                | Heading::DropDoctype
                | Heading::References
                | Heading::State
                | Heading::LastStartTag
                | Heading::Cdata
                | Heading::KeepMark
        )
    }

    /// Whether it is compared in runs with exact errors, or in those without.
    pub fn is_expected_if(self, exact: bool) -> bool {
        match self {
            Heading::Codes | Heading::Outside | Heading::Selector | Heading::Selected => !exact,
            Heading::ExactCodes => exact,
            _ => true,
        }
    }
}
