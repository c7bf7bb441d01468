//! The states of the tokenizer (HTML Standard, section 13.2.5).
ghost use Rattle.std.specs.Prelude.{◌≡◌};
ghost use Rattle.html_tokens.specs.TextState.{is_text_state};

/// Which of two depths of escaping the text of a script is in.
#[derive(Clone, Copy, Debug, PartialEq, Eq, Hash)]
pub enum ScriptEscapeKind {
    /// After `<!--`.
    Escaped,
    /// After a `<script` after that.
    DoubleEscaped,
}

/// Which of a doctype's identifiers is read.
#[derive(Clone, Copy, Debug, PartialEq, Eq, Hash)]
pub enum DoctypeIdKind {
    /// The one after `PUBLIC`.
    Public,
    /// The one after `SYSTEM`, or after the public one.
    System,
}

/// How an attribute's value is written.
#[derive(Clone, Copy, Debug, PartialEq, Eq, Hash)]
pub enum AttrValueKind {
    /// Without quotes.
    Unquoted,
    /// In `'`.
    SingleQuoted,
    /// In `"`.
    DoubleQuoted,
}

/// Text that ends at an end tag alone.
#[derive(Clone, Copy, Debug, PartialEq, Eq, Hash)]
pub enum RawKind {
    /// Text with references, as of `title` (section 13.2.5.2).
    Rcdata,
    /// Text without references, as of `style` (section 13.2.5.3).
    Rawtext,
    /// The text of `script` (section 13.2.5.4).
    ScriptData,
    /// The text of `script` after `<!--` (sections 13.2.5.20 and 13.2.5.27).
    ScriptDataEscaped(ScriptEscapeKind),
}

/// Where the tokenizer stands. Each variant is the state of that name in section 13.2.5 of the Standard.
#[derive(Clone, Copy, Debug, PartialEq, Eq, Hash)]
pub enum State {
    /// Section 13.2.5.1.
    Data,
    /// Section 13.2.5.5.
    Plaintext,
    /// Section 13.2.5.6.
    TagOpen,
    /// Section 13.2.5.7.
    EndTagOpen,
    /// Section 13.2.5.8.
    TagName,
    /// Sections 13.2.5.2 to 13.2.5.4, 13.2.5.20 and 13.2.5.27.
    RawData(RawKind),
    /// Sections 13.2.5.9, 13.2.5.12, 13.2.5.15, 13.2.5.23 and 13.2.5.30.
    RawLessThanSign(RawKind),
    /// Sections 13.2.5.10, 13.2.5.13, 13.2.5.16 and 13.2.5.24.
    RawEndTagOpen(RawKind),
    /// Sections 13.2.5.11, 13.2.5.14, 13.2.5.17 and 13.2.5.25.
    RawEndTagName(RawKind),
    /// Sections 13.2.5.18 and 13.2.5.26.
    ScriptDataEscapeStart(ScriptEscapeKind),
    /// Section 13.2.5.19.
    ScriptDataEscapeStartDash,
    /// Sections 13.2.5.21 and 13.2.5.28.
    ScriptDataEscapedDash(ScriptEscapeKind),
    /// Sections 13.2.5.22 and 13.2.5.29.
    ScriptDataEscapedDashDash(ScriptEscapeKind),
    /// Section 13.2.5.31.
    ScriptDataDoubleEscapeEnd,
    /// Section 13.2.5.32.
    BeforeAttributeName,
    /// Section 13.2.5.33.
    AttributeName,
    /// Section 13.2.5.34.
    AfterAttributeName,
    /// Section 13.2.5.35.
    BeforeAttributeValue,
    /// Sections 13.2.5.36 to 13.2.5.38.
    AttributeValue(AttrValueKind),
    /// Section 13.2.5.39.
    AfterAttributeValueQuoted,
    /// Section 13.2.5.40.
    SelfClosingStartTag,
    /// Section 13.2.5.41.
    BogusComment,
    /// Section 13.2.5.42.
    MarkupDeclarationOpen,
    /// Section 13.2.5.43.
    CommentStart,
    /// Section 13.2.5.44.
    CommentStartDash,
    /// Section 13.2.5.45.
    Comment,
    /// Section 13.2.5.46.
    CommentLessThanSign,
    /// Section 13.2.5.47.
    CommentLessThanSignBang,
    /// Section 13.2.5.48.
    CommentLessThanSignBangDash,
    /// Section 13.2.5.49.
    CommentLessThanSignBangDashDash,
    /// Section 13.2.5.50.
    CommentEndDash,
    /// Section 13.2.5.51.
    CommentEnd,
    /// Section 13.2.5.52.
    CommentEndBang,
    /// Section 13.2.5.53.
    Doctype,
    /// Section 13.2.5.54.
    BeforeDoctypeName,
    /// Section 13.2.5.55.
    DoctypeName,
    /// Section 13.2.5.56.
    AfterDoctypeName,
    /// Sections 13.2.5.57 and 13.2.5.63.
    AfterDoctypeKeyword(DoctypeIdKind),
    /// Sections 13.2.5.58 and 13.2.5.64.
    BeforeDoctypeIdentifier(DoctypeIdKind),
    /// Sections 13.2.5.59 and 13.2.5.65.
    DoctypeIdentifierDoubleQuoted(DoctypeIdKind),
    /// Sections 13.2.5.60 and 13.2.5.66.
    DoctypeIdentifierSingleQuoted(DoctypeIdKind),
    /// Sections 13.2.5.61 and 13.2.5.67.
    AfterDoctypeIdentifier(DoctypeIdKind),
    /// Section 13.2.5.62.
    BetweenDoctypePublicAndSystemIdentifiers,
    /// Section 13.2.5.68.
    BogusDoctype,
    /// Section 13.2.5.69.
    CdataSection,
    /// Section 13.2.5.70.
    CdataSectionBracket,
    /// Section 13.2.5.71.
    CdataSectionEnd,
}

impl State {
    /// Whether text is read here, so that reading may begin here: no part of a tag, a comment or the like is held.
    pub fn is_text_state(&self) -> bool
        ensures { result ≡ is_text_state self.now }
    {
        matches!(
            self,
            State::Data
                | State::Plaintext
                | State::RawData(RawKind::Rcdata | RawKind::Rawtext | RawKind::ScriptData)
        )
    }
}
