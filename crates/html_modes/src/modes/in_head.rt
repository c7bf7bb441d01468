//! The "in head" insertion mode (HTML Standard, section 13.2.6.4.4).
ghost use Rattle.std.specs.Prelude.{◌≡◌};
ghost use Rattle.html_rules.specs.Modes.InHead.{in_head};
ghost use Rattle.html_modes.specs.Tables.{rows_of};

use crate::table::Action::{
    AppendComment, AppendText, ClearToMarker, Close, FramesetNotOk, ImpliedEndTagsThoroughly,
    InsertElement, InsertMarker, InsertTemplate, InsertVoid, Nothing, ParseError, Pop,
    PopTemplateMode, PushTemplateMode, ResetMode, SaveMode, SwitchTo,
};
use crate::table::Class::{AnyEndTag, AnythingElse, Comment, EndTags, StartTags, WhiteSpace};
use crate::table::Conclusion::{Done, RawText, ReportEncoding, Reprocess, Using};
use crate::table::Condition::{ScriptingEnabled, TemplateOpen};
use crate::table::{Row, row};
use html_rules::{InsertionMode, TagSet};
use html_tokens::states::RawKind;

const IN_HEAD: &[Row] = &[
    row!(WhiteSpace, [AppendText], Done),
    row!(Comment, [AppendComment], Done),
    row!(
        StartTags(TagSet::Html),
        [Nothing],
        Using(InsertionMode::InBody)
    ),
    row!(
        StartTags(TagSet::MetadataVoid),
        [InsertVoid],
        ReportEncoding
    ),
    row!(
        StartTags(TagSet::Title),
        [InsertElement, SaveMode, SwitchTo(InsertionMode::Text)],
        RawText(RawKind::Rcdata)
    ),
    row!(
        StartTags(TagSet::NoframesStyle),
        [InsertElement, SaveMode, SwitchTo(InsertionMode::Text)],
        RawText(RawKind::Rawtext)
    ),
    row!(StartTags(TagSet::Noscript), if ScriptingEnabled, [InsertElement, SaveMode, SwitchTo(InsertionMode::Text)],
        RawText(RawKind::Rawtext)),
    row!(
        StartTags(TagSet::Noscript),
        [InsertElement, SwitchTo(InsertionMode::InHeadNoscript)],
        Done
    ),
    row!(
        StartTags(TagSet::Script),
        [InsertElement, SaveMode, SwitchTo(InsertionMode::Text)],
        RawText(RawKind::ScriptData)
    ),
    row!(
        EndTags(TagSet::Head),
        [Pop, SwitchTo(InsertionMode::AfterHead)],
        Done
    ),
    row!(
        EndTags(TagSet::BodyHtmlBr),
        [Pop],
        Reprocess(InsertionMode::AfterHead)
    ),
    row!(
        StartTags(TagSet::Template),
        [
            InsertMarker,
            FramesetNotOk,
            SwitchTo(InsertionMode::InTemplate),
            PushTemplateMode(InsertionMode::InTemplate),
            InsertTemplate
        ],
        Done
    ),
    row!(EndTags(TagSet::Template), if TemplateOpen,
        [ImpliedEndTagsThoroughly, Close(TagSet::Template), ClearToMarker, PopTemplateMode, ResetMode], Done),
    row!(EndTags(TagSet::Template), [ParseError], Done),
    row!(StartTags(TagSet::Head), [ParseError], Done),
    row!(AnyEndTag, [ParseError], Done),
    row!(AnythingElse, [Pop], Reprocess(InsertionMode::AfterHead)),
];

/// The rows.
pub(crate) fn rows() -> &'static [Row]
    ensures { rows_of result.now ≡ in_head }
{
    IN_HEAD
}
