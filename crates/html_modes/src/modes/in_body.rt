//! The "in body" insertion mode (HTML Standard, section 13.2.6.4.7).
ghost use Rattle.std.specs.Prelude.{◌≡◌, drop, slice_get, take};
ghost use Rattle.html_rules.specs.Modes.InBody.{in_body};
ghost use Rattle.html_modes.specs.Tables.{row_lent, rows_of};

use crate::table::Action::{
    AddAttributesToBody, AddAttributesToRoot, AdoptNobr, AdoptionAgency, AnyOtherEndTag,
    AppendComment, AppendText, CheckBodyEnd, ClearToMarker, CloseItem, CloseMisnestedA, CloseP,
    CloseToken, EnterForeign, ForgetFormElem, FramesetNotOk, FramesetNotOkUnlessWhite,
    IgnoreLineFeed, ImpliedEndTags, ImpliedEndTagsExcept, ImpliedEndTagsExceptToken, InsertElement,
    InsertFormatting, InsertMarker, InsertNew, InsertNewVoid, InsertVoid, InsertVoidAs, Nothing,
    ParseError, Pop, PopUntil, Reconstruct, RemoveBody, RemoveFormElem, SaveMode, SetFormElem,
    SwitchTo, When,
};
use crate::table::Class::{
    AnyEndTag, AnyStartTag, AnythingElse, Character, Comment, EndOfFile, EndTags, Null, StartTags,
};
use crate::table::Conclusion::{Acknowledged, Done, PlainText, RawText, Reprocess, Using};
use crate::table::Condition::{
    AListed, Both, ByStandard, ContextIs, CurrentIs, CurrentIsToken, FormElemInScope,
    FormElemIsCurrent, FramesetOk, HasFormElem, HasTemplateModes, InQuirksMode, InScope, Not,
    ScriptingEnabled, SecondIsBody, TemplateOpen, TokenInScope, TypeHidden,
};
use crate::table::{Foreign, Implied, Row, row, then};
use html_rules::{InsertionMode, TagSet};
use html_tokens::states::RawKind;

const STRUCTURE: &[Row] = &[
    row!(Null, [ParseError], Done),
    row!(
        Character,
        [Reconstruct, FramesetNotOkUnlessWhite, AppendText],
        Done
    ),
    row!(Comment, [AppendComment], Done),
    row!(StartTags(TagSet::Html), if TemplateOpen, [ParseError], Done),
    row!(
        StartTags(TagSet::Html),
        [ParseError, AddAttributesToRoot],
        Done
    ),
    row!(
        StartTags(TagSet::HeadContent),
        [Nothing],
        Using(InsertionMode::InHead)
    ),
    row!(
        EndTags(TagSet::Template),
        [Nothing],
        Using(InsertionMode::InHead)
    ),
    row!(StartTags(TagSet::Body), if Both(&SecondIsBody, &Not(&TemplateOpen)), [ParseError, FramesetNotOk, AddAttributesToBody], Done),
    row!(StartTags(TagSet::Body), [ParseError], Done),
    row!(StartTags(TagSet::Frameset), if Both(&FramesetOk, &SecondIsBody),
        [ParseError, RemoveBody, InsertElement, SwitchTo(InsertionMode::InFrameset)], Done),
    row!(StartTags(TagSet::Frameset), [ParseError], Done),
    row!(EndOfFile, if HasTemplateModes, [Nothing], Using(InsertionMode::InTemplate)),
    row!(EndOfFile, [CheckBodyEnd], Done),
    row!(EndTags(TagSet::Body), if InScope(TagSet::DefaultScope, TagSet::Body), [CheckBodyEnd, SwitchTo(InsertionMode::AfterBody)], Done),
    row!(EndTags(TagSet::Body), [ParseError], Done),
    row!(EndTags(TagSet::Html), if InScope(TagSet::DefaultScope, TagSet::Body), [CheckBodyEnd], Reprocess(InsertionMode::AfterBody)),
    row!(EndTags(TagSet::Html), [ParseError], Done),
];

const BLOCKS: &[Row] = &[
    row!(StartTags(TagSet::Block), [CloseP, InsertElement], Done),
    row!(
        StartTags(TagSet::HeadingTag),
        [
            CloseP,
            When(CurrentIs(TagSet::HeadingTag), &then!(ParseError, Pop)),
            InsertElement
        ],
        Done
    ),
    row!(
        StartTags(TagSet::PreListing),
        [CloseP, InsertElement, IgnoreLineFeed, FramesetNotOk],
        Done
    ),
    row!(StartTags(TagSet::Form), if Both(&HasFormElem, &Not(&TemplateOpen)), [ParseError], Done),
    row!(
        StartTags(TagSet::Form),
        [
            CloseP,
            InsertElement,
            When(Not(&TemplateOpen), &SetFormElem)
        ],
        Done
    ),
    row!(
        StartTags(TagSet::Li),
        [FramesetNotOk, CloseItem(TagSet::Li), CloseP, InsertElement],
        Done
    ),
    row!(
        StartTags(TagSet::DdDt),
        [
            FramesetNotOk,
            CloseItem(TagSet::DdDt),
            CloseP,
            InsertElement
        ],
        Done
    ),
    row!(
        StartTags(TagSet::Plaintext),
        [CloseP, InsertElement],
        PlainText
    ),
    row!(
        StartTags(TagSet::Button),
        [
            When(
                InScope(TagSet::DefaultScope, TagSet::Button),
                &then!(ParseError, ImpliedEndTags, PopUntil(TagSet::Button))
            ),
            Reconstruct,
            InsertElement,
            FramesetNotOk
        ],
        Done
    ),
    row!(EndTags(TagSet::BlockEnd), if TokenInScope(TagSet::DefaultScope), [ImpliedEndTags, CloseToken], Done),
    row!(EndTags(TagSet::BlockEnd), [ParseError], Done),
    // outside templates the form element pointer says which form ends
    row!(EndTags(TagSet::Form), if Both(&Not(&TemplateOpen), &FormElemInScope),
        [ImpliedEndTags, When(Not(&FormElemIsCurrent), &ParseError), RemoveFormElem, ForgetFormElem], Done),
    row!(EndTags(TagSet::Form), if Not(&TemplateOpen), [ForgetFormElem, ParseError], Done),
    row!(EndTags(TagSet::Form), if InScope(TagSet::DefaultScope, TagSet::Form),
        [ImpliedEndTags, When(Not(&CurrentIs(TagSet::Form)), &ParseError), PopUntil(TagSet::Form)], Done),
    row!(EndTags(TagSet::Form), [ParseError], Done),
    row!(
        EndTags(TagSet::P),
        [
            When(
                Not(&InScope(TagSet::ButtonScope, TagSet::P)),
                &then!(ParseError, InsertNew(Implied::P))
            ),
            CloseP
        ],
        Done
    ),
    row!(EndTags(TagSet::Li), if InScope(TagSet::ListItemScope, TagSet::Li), [ImpliedEndTagsExceptToken, CloseToken], Done),
    row!(EndTags(TagSet::Li), [ParseError], Done),
    row!(EndTags(TagSet::DdDt), if TokenInScope(TagSet::DefaultScope), [ImpliedEndTagsExceptToken, CloseToken], Done),
    row!(EndTags(TagSet::DdDt), [ParseError], Done),
    row!(EndTags(TagSet::HeadingTag), if InScope(TagSet::DefaultScope, TagSet::HeadingTag),
        [ImpliedEndTags, When(Not(&CurrentIsToken), &ParseError), PopUntil(TagSet::HeadingTag)], Done),
    row!(EndTags(TagSet::HeadingTag), [ParseError], Done),
];

const FORMATTING: &[Row] = &[
    row!(
        StartTags(TagSet::A),
        [
            When(AListed, &CloseMisnestedA),
            Reconstruct,
            InsertFormatting
        ],
        Done
    ),
    row!(
        StartTags(TagSet::FormattingTag),
        [Reconstruct, InsertFormatting],
        Done
    ),
    row!(
        StartTags(TagSet::Nobr),
        [
            Reconstruct,
            When(
                InScope(TagSet::DefaultScope, TagSet::Nobr),
                &then!(ParseError, AdoptNobr, Reconstruct)
            ),
            InsertFormatting
        ],
        Done
    ),
    row!(EndTags(TagSet::FormattingEnd), [AdoptionAgency], Done),
    row!(
        StartTags(TagSet::AppletMarqueeObject),
        [Reconstruct, InsertElement, InsertMarker, FramesetNotOk],
        Done
    ),
    row!(EndTags(TagSet::AppletMarqueeObject), if TokenInScope(TagSet::DefaultScope), [ImpliedEndTags, CloseToken, ClearToMarker], Done),
    row!(EndTags(TagSet::AppletMarqueeObject), [ParseError], Done),
    row!(
        StartTags(TagSet::Table),
        [
            When(Not(&InQuirksMode), &CloseP),
            InsertElement,
            FramesetNotOk,
            SwitchTo(InsertionMode::InTable)
        ],
        Done
    ),
    // as the start tag `br`, without attributes
    row!(
        EndTags(TagSet::Br),
        [
            ParseError,
            Reconstruct,
            InsertNewVoid(Implied::Br),
            FramesetNotOk
        ],
        Done
    ),
    row!(
        StartTags(TagSet::VoidTag),
        [Reconstruct, InsertVoid, FramesetNotOk],
        Acknowledged
    ),
    row!(StartTags(TagSet::Input), if Both(&ByStandard, &ContextIs(TagSet::Select)), [ParseError], Done),
    row!(
        StartTags(TagSet::Input),
        [
            When(ContextIs(TagSet::Select), &ParseError),
            When(
                InScope(TagSet::DefaultScope, TagSet::Select),
                &then!(ParseError, PopUntil(TagSet::Select))
            ),
            Reconstruct,
            InsertVoid,
            When(Not(&TypeHidden), &FramesetNotOk)
        ],
        Acknowledged
    ),
    row!(
        StartTags(TagSet::ParamSourceTrack),
        [InsertVoid],
        Acknowledged
    ),
    row!(
        StartTags(TagSet::Hr),
        [
            CloseP,
            When(
                InScope(TagSet::DefaultScope, TagSet::Select),
                &then!(
                    ImpliedEndTags,
                    When(
                        InScope(TagSet::DefaultScope, TagSet::OptionOptgroup),
                        &ParseError
                    )
                )
            ),
            InsertVoid,
            FramesetNotOk
        ],
        Acknowledged
    ),
    // as the start tag `img`
    row!(
        StartTags(TagSet::Image),
        [
            ParseError,
            Reconstruct,
            InsertVoidAs(Implied::Img),
            FramesetNotOk
        ],
        Acknowledged
    ),
    row!(
        StartTags(TagSet::Textarea),
        [
            IgnoreLineFeed,
            FramesetNotOk,
            InsertElement,
            SaveMode,
            SwitchTo(InsertionMode::Text)
        ],
        RawText(RawKind::Rcdata)
    ),
    row!(
        StartTags(TagSet::Xmp),
        [
            CloseP,
            Reconstruct,
            FramesetNotOk,
            InsertElement,
            SaveMode,
            SwitchTo(InsertionMode::Text)
        ],
        RawText(RawKind::Rawtext)
    ),
    row!(
        StartTags(TagSet::Iframe),
        [
            FramesetNotOk,
            InsertElement,
            SaveMode,
            SwitchTo(InsertionMode::Text)
        ],
        RawText(RawKind::Rawtext)
    ),
    row!(
        StartTags(TagSet::Noembed),
        [InsertElement, SaveMode, SwitchTo(InsertionMode::Text)],
        RawText(RawKind::Rawtext)
    ),
    row!(StartTags(TagSet::Noscript), if ScriptingEnabled, [InsertElement, SaveMode, SwitchTo(InsertionMode::Text)],
        RawText(RawKind::Rawtext)),
];

const CONTENT: &[Row] = &[
    row!(StartTags(TagSet::Select), if ContextIs(TagSet::Select), [ParseError], Done),
    row!(StartTags(TagSet::Select), if InScope(TagSet::DefaultScope, TagSet::Select), [ParseError, PopUntil(TagSet::Select)], Done),
    row!(
        StartTags(TagSet::Select),
        [Reconstruct, InsertElement, FramesetNotOk],
        Done
    ),
    row!(StartTags(TagSet::Option), if InScope(TagSet::DefaultScope, TagSet::Select),
        [ImpliedEndTagsExcept(TagSet::Optgroup), When(InScope(TagSet::DefaultScope, TagSet::Option), &ParseError),
          Reconstruct, InsertElement], Done),
    row!(
        StartTags(TagSet::Option),
        [
            When(CurrentIs(TagSet::Option), &Pop),
            Reconstruct,
            InsertElement
        ],
        Done
    ),
    row!(StartTags(TagSet::Optgroup), if InScope(TagSet::DefaultScope, TagSet::Select),
        [ImpliedEndTags, When(InScope(TagSet::DefaultScope, TagSet::OptionOptgroup), &ParseError), Reconstruct, InsertElement], Done),
    row!(
        StartTags(TagSet::Optgroup),
        [
            When(CurrentIs(TagSet::Option), &Pop),
            Reconstruct,
            InsertElement
        ],
        Done
    ),
    row!(StartTags(TagSet::RbRtc), if InScope(TagSet::DefaultScope, TagSet::Ruby),
        [ImpliedEndTags, When(Not(&CurrentIs(TagSet::Ruby)), &ParseError), InsertElement], Done),
    row!(
        StartTags(TagSet::RbRtc),
        [
            When(Not(&CurrentIs(TagSet::Ruby)), &ParseError),
            InsertElement
        ],
        Done
    ),
    row!(StartTags(TagSet::RpRt), if InScope(TagSet::DefaultScope, TagSet::Ruby),
        [ImpliedEndTagsExcept(TagSet::Rtc), When(Not(&CurrentIs(TagSet::RtcRuby)), &ParseError), InsertElement], Done),
    row!(
        StartTags(TagSet::RpRt),
        [
            When(Not(&CurrentIs(TagSet::RtcRuby)), &ParseError),
            InsertElement
        ],
        Done
    ),
    row!(
        StartTags(TagSet::Math),
        [Reconstruct, EnterForeign(Foreign::MathMl)],
        Acknowledged
    ),
    row!(
        StartTags(TagSet::Svg),
        [Reconstruct, EnterForeign(Foreign::Svg)],
        Acknowledged
    ),
    row!(StartTags(TagSet::TablePart), [ParseError], Done),
];

const REST: &[Row] = &[
    row!(AnyStartTag, [Reconstruct, InsertElement], Done),
    row!(AnyEndTag, [AnyOtherEndTag], Done),
    row!(AnythingElse, [Nothing], Done),
];

/// Text, comments, `html`, `head`, `body`, `frameset` and the end.
fn structure() -> &'static [Row]
    ensures { rows_of result.now ≡ take 17 in_body }
{
    STRUCTURE
}

/// Blocks, headings, lists, forms and buttons.
fn blocks() -> &'static [Row]
    ensures { rows_of result.now ≡ take 22 (drop 17 in_body) }
{
    BLOCKS
}

/// Formatting elements, objects, tables, void elements and raw text.
fn formatting() -> &'static [Row]
    ensures { rows_of result.now ≡ take 20 (drop 39 in_body) }
{
    FORMATTING
}

/// `select`, `ruby`, foreign content, and parts of tables.
fn content() -> &'static [Row]
    ensures { rows_of result.now ≡ take 14 (drop 59 in_body) }
{
    CONTENT
}

/// Any other tag, and what is left.
fn rest() -> &'static [Row]
    ensures { rows_of result.now ≡ drop 73 in_body }
{
    REST
}

/// The row at a place, counted over all parts, if there is one.
pub(crate) fn row_at(place: usize) -> Option<&'static Row>
    ensures { row_lent result ≡ slice_get in_body place }
{
    if place < 17 {
        structure().get(place)
    } else if place < 39 {
        blocks().get(place - 17)
    } else if place < 59 {
        formatting().get(place - 39)
    } else if place < 73 {
        content().get(place - 59)
    } else {
        rest().get(place - 73)
    }
}
