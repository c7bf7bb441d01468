//! The insertion modes (HTML Standard, section 13.2.4.1).

/// Which rules hold for the next token. Each variant is the insertion mode of that name.
#[derive(Clone, Copy, Debug, PartialEq, Eq, Hash)]
pub enum InsertionMode {
    /// Section 13.2.6.4.1.
    Initial,
    /// Section 13.2.6.4.2.
    BeforeHtml,
    /// Section 13.2.6.4.3.
    BeforeHead,
    /// Section 13.2.6.4.4.
    InHead,
    /// Section 13.2.6.4.5.
    InHeadNoscript,
    /// Section 13.2.6.4.6.
    AfterHead,
    /// Section 13.2.6.4.7.
    InBody,
    /// Section 13.2.6.4.8.
    Text,
    /// Section 13.2.6.4.9.
    InTable,
    /// Section 13.2.6.4.10.
    InTableText,
    /// Section 13.2.6.4.11.
    InCaption,
    /// Section 13.2.6.4.12.
    InColumnGroup,
    /// Section 13.2.6.4.13.
    InTableBody,
    /// Section 13.2.6.4.14.
    InRow,
    /// Section 13.2.6.4.15.
    InCell,
    /// Section 13.2.6.4.16.
    InTemplate,
    /// Section 13.2.6.4.17.
    AfterBody,
    /// Section 13.2.6.4.18.
    InFrameset,
    /// Section 13.2.6.4.19.
    AfterFrameset,
    /// Section 13.2.6.4.20.
    AfterAfterBody,
    /// Section 13.2.6.4.21.
    AfterAfterFrameset,
}
