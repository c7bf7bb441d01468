//! How the rules of the insertion modes are written down: a mode is a list of rows, of which the first that fits a token holds (HTML
//! Standard, section 13.2.6).
ghost use Rattle.std.specs.Prelude.{◌≡◌, IfErr, IfOk};
ghost use Rattle.std.specs.Str.{chars};
ghost use Rattle.markup.specs.declared.fault.ParseFault.TheVariants.{Memory};
ghost use Rattle.html_modes.specs.Tables.{spelled};

use html_rules::{InsertionMode, TagSet};
use html_tokens::states::RawKind;
use markup::{LocalName, ParseFault};
use std::alloc::Global;

/// The elements that the rules insert without a tag of that name.
#[derive(Clone, Copy, Debug, PartialEq, Eq)]
pub enum Implied {
    /// `body`.
    Body,
    /// `br`.
    Br,
    /// `colgroup`.
    Colgroup,
    /// `head`.
    Head,
    /// `img`.
    Img,
    /// `p`.
    P,
    /// `tbody`.
    Tbody,
    /// `tr`.
    Tr,
}

impl Implied {
    /// The name, as text.
    fn text(self) -> &'static str
        ensures { chars result.now ≡ spelled self }
    {
        match self {
            Implied::Body => "body",
            Implied::Br => "br",
            Implied::Colgroup => "colgroup",
            Implied::Head => "head",
            Implied::Img => "img",
            Implied::P => "p",
            Implied::Tbody => "tbody",
            Implied::Tr => "tr",
        }
    }

    /// The name of the element.
    pub fn local_name(self, alloc: Global) -> Result<LocalName, ParseFault>
        ensures ok { IfOk result (λ name. name ≡ spelled self) }
        ensures fault { IfErr result (λ fault. fault ≡ Memory) }
    {
        LocalName::from_str(alloc, self.text())
    }
}

/// The namespaces of foreign content.
#[derive(Clone, Copy, Debug, PartialEq, Eq)]
pub enum Foreign {
    /// MathML.
    MathMl,
    /// SVG.
    Svg,
}

/// Which tokens a row is for.
#[derive(Clone, Copy)]
pub enum Class {
    /// Start tags whose names are in the set.
    StartTags(TagSet),
    /// End tags whose names are in the set.
    EndTags(TagSet),
    /// Any start tag.
    AnyStartTag,
    /// Any end tag.
    AnyEndTag,
    /// A character of white space.
    WhiteSpace,
    /// Any character but U+0000.
    Character,
    /// U+0000.
    Null,
    /// A comment.
    Comment,
    /// The end of the input.
    EndOfFile,
    /// Any token.
    AnythingElse,
}

/// What a row, or a part of it, asks for.
#[derive(Clone, Copy)]
pub enum Condition {
    /// Nothing is asked for.
    Always,
    /// The other does not hold.
    Not(&'static Condition),
    /// Both hold.
    Both(&'static Condition, &'static Condition),
    /// The scripting flag is set.
    ScriptingEnabled,
    /// The document is that of an `iframe` with `srcdoc`.
    IframeSrcdoc,
    /// The Standard's rules hold, not html5ever's.
    ByStandard,
    /// A fragment is parsed.
    InFragment,
    /// A fragment is parsed whose context is such an element.
    ContextIs(TagSet),
    /// The document is in quirks mode.
    InQuirksMode,
    /// The frameset-ok flag is set.
    FramesetOk,
    /// The current node is in the set.
    CurrentIs(TagSet),
    /// The current node is an HTML element with the token's name.
    CurrentIsToken,
    /// The root is the only open element.
    RootAlone,
    /// The second element that was opened is a body element.
    SecondIsBody,
    /// A template is open.
    TemplateOpen,
    /// There is a template insertion mode.
    HasTemplateModes,
    /// In the first scope stands an element of the second set.
    InScope(TagSet, TagSet),
    /// An HTML element with the token's name is in that scope.
    TokenInScope(TagSet),
    /// The form element pointer names an element.
    HasFormElem,
    /// Its element is in scope.
    FormElemInScope,
    /// Its element is the current node.
    FormElemIsCurrent,
    /// The list of active formatting elements has an `a` since the last marker.
    AListed,
    /// The token's attribute `type` is `hidden`.
    TypeHidden,
    /// The token has an attribute `color`, `face` or `size`.
    FontAttributes,
    /// An end tag in foreign content is one for the rules of the mode.
    EndsInHtml,
    /// An end tag in foreign content is an error.
    ForeignEndError,
}

/// What is done.
#[derive(Clone, Copy)]
pub enum Action {
    /// Nothing.
    Nothing,
    /// One action, and then another.
    Then(&'static Action, &'static Action),
    /// An action, where a condition holds.
    When(Condition, &'static Action),
    /// The sink is told an error.
    ParseError,
    /// An element is inserted for the token.
    InsertElement,
    /// An element is inserted for the token, and popped at once.
    InsertVoid,
    /// The same, with another name.
    InsertVoidAs(Implied),
    /// The same, where the form element pointer then names the element.
    InsertFormVoid,
    /// An element of that name is inserted, without a tag of its own.
    InsertNew(Implied),
    /// The same, popped at once.
    InsertNewVoid(Implied),
    /// The root is made for the token.
    CreateRoot,
    /// The root is made without attributes.
    CreateNewRoot,
    /// The token's text is put at the appropriate place.
    AppendText,
    /// U+FFFD is put there.
    AppendReplacement,
    /// The token's comment is put there.
    AppendComment,
    /// The token's comment is put last in the document.
    AppendCommentToDocument,
    /// The token's comment is put last in the root.
    AppendCommentToRoot,
    /// A template, which may become a shadow root.
    InsertTemplate,
    /// The root gets attributes of the token that it lacks.
    AddAttributesToRoot,
    /// The body gets attributes of the token that it lacks.
    AddAttributesToBody,
    /// The body leaves its parent, and all but the root leave the stack.
    RemoveBody,
    /// The current node is popped, unless it is the root.
    Pop,
    /// Elements are popped until one of the set was popped.
    PopUntil(TagSet),
    /// "clear the stack back to" such elements.
    ClearBackTo(TagSet),
    /// Elements are popped until such a one was popped, which should be the current node.
    Close(TagSet),
    /// The same, for the token's name.
    CloseToken,
    /// "close a p element", if one is in button scope.
    CloseP,
    /// The nearest such item is closed.
    CloseItem(TagSet),
    /// "Generate implied end tags".
    ImpliedEndTags,
    /// The same, except for the set.
    ImpliedEndTagsExcept(TagSet),
    /// The same, except for the token's name.
    ImpliedEndTagsExceptToken,
    /// "Generate all implied end tags thoroughly".
    ImpliedEndTagsThoroughly,
    /// "any other end tag" of the rules for a body.
    AnyOtherEndTag,
    /// An error if something is open that may not be where the body ends.
    CheckBodyEnd,
    /// The head element pointer names the current node.
    SetHeadElem,
    /// Its element is opened.
    PushHeadElem,
    /// Its element leaves the stack.
    RemoveHeadElem,
    /// The form element pointer names the current node.
    SetFormElem,
    /// Its element leaves the stack.
    RemoveFormElem,
    /// It names nothing.
    ForgetFormElem,
    /// "Reconstruct the active formatting elements".
    Reconstruct,
    /// An element is inserted for the token, and listed.
    InsertFormatting,
    /// A marker is listed.
    InsertMarker,
    /// "Clear the list of active formatting elements up to the last marker".
    ClearToMarker,
    /// The adoption agency runs for the token's name.
    AdoptionAgency,
    /// The adoption agency runs for `nobr`.
    AdoptNobr,
    /// An `a` that is listed is closed.
    CloseMisnestedA,
    /// "Switch the insertion mode".
    SwitchTo(InsertionMode),
    /// The mode is kept as the original one, for the end of what comes.
    SaveMode,
    /// The original mode becomes the mode.
    RestoreMode,
    /// "Reset the insertion mode appropriately".
    ResetMode,
    /// A template insertion mode is pushed.
    PushTemplateMode(InsertionMode),
    /// The current template insertion mode is changed.
    SetTemplateMode(InsertionMode),
    /// The current template insertion mode is popped.
    PopTemplateMode,
    /// The document is in quirks mode.
    SetQuirks,
    /// The frameset-ok flag is cleared.
    FramesetNotOk,
    /// The same, unless the text is white space.
    FramesetNotOkUnlessWhite,
    /// A line feed that comes next is dropped.
    IgnoreLineFeed,
    /// Foster parenting is enabled.
    EnableFosterParenting,
    /// It is disabled.
    DisableFosterParenting,
    /// The token's text waits in the pending table character tokens.
    KeepText,
    /// The pending table character tokens go where the table's text goes.
    InsertPendingText,
    /// A `math` or an `svg` element is inserted.
    EnterForeign(Foreign),
    /// An element is inserted in the namespace of the adjusted current node.
    InsertForeign,
    /// Elements are popped until foreign content ends.
    PopForeign,
    /// The elements that an end tag of foreign content closes leave.
    CloseForeign,
}

/// How a row ends.
#[derive(Clone, Copy)]
pub enum Conclusion {
    /// The token is done with.
    Done,
    /// The token is done with, and a self-closing flag is acknowledged.
    Acknowledged,
    /// "Switch the insertion mode" and "reprocess the token".
    Reprocess(InsertionMode),
    /// "Reprocess the token" in the original mode.
    ReprocessInOriginal,
    /// "Reprocess the token" in the mode that the actions set.
    ReprocessInMode,
    /// "Process the token using the rules for" a mode.
    Using(InsertionMode),
    /// The same, and then something more is done.
    UsingThen(InsertionMode, Action),
    /// The same, by the rules of the mode that the state has.
    UsingCurrentMode,
    /// Raw text of this kind follows.
    RawText(RawKind),
    /// Plain text follows.
    PlainText,
    /// The script that was the current node is to run.
    RunScript,
    /// Done, and the encoding is told that the tag names, if it names one.
    ReportEncoding,
}

/// A row: which tokens it is for, what it asks for, what is done, and how it ends.
#[derive(Clone, Copy)]
pub struct Row {
    /// Which tokens the row is for.
    pub on: Class,
    /// What it asks for.
    pub when: Condition,
    /// What is done.
    pub does: Action,
    /// How it ends.
    pub ends: Conclusion,
}

/// One action, and then others.
macro_rules! then {
    ($first:expr) => { $first };
    ($first:expr, $($more:expr),+) => { $crate::table::Action::Then(&$first, &$crate::table::then!($($more),+)) };
}

/// A row, as it stands in the table of a mode.
macro_rules! row {
    ($on:expr, if $when:expr, [$($does:expr),+], $ends:expr) => {
        $crate::table::Row { on: $on, when: $when, does: $crate::table::then!($($does),+), ends: $ends }
    };
    ($on:expr, [$($does:expr),+], $ends:expr) => {
        $crate::table::Row { on: $on, when: $crate::table::Condition::Always, does: $crate::table::then!($($does),+), ends: $ends }
    };
}

pub(crate) use row;
pub(crate) use then;
