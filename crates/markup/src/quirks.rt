//! How closely a page is to be laid out as old browsers did.

/// The mode of a document, which its doctype sets (HTML Standard, section 13.2.6.4.1).
#[derive(Clone, Copy, Debug, PartialEq, Eq, Hash)]
pub enum QuirksMode {
    /// Laid out as old browsers did.
    Quirks,
    /// Laid out as old browsers did in a few respects.
    LimitedQuirks,
    /// Laid out by the standards.
    NoQuirks,
}
