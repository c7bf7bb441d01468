//! The "after head" insertion mode (HTML Standard, section 13.2.6.4.6).
ghost use Rattle.std.specs.Prelude.{◌≡◌};
ghost use Rattle.html_rules.specs.Modes.AfterHead.{after_head};
ghost use Rattle.html_modes.specs.Tables.{rows_of};

use crate::table::Action::{
    AppendComment, AppendText, FramesetNotOk, InsertElement, InsertNew, Nothing, ParseError,
    PushHeadElem, RemoveHeadElem, SwitchTo,
};
use crate::table::Class::{AnyEndTag, AnythingElse, Comment, EndTags, StartTags, WhiteSpace};
use crate::table::Conclusion::{Done, Reprocess, Using, UsingThen};
use crate::table::{Implied, Row, row};
use html_rules::{InsertionMode, TagSet};

const AFTER_HEAD: &[Row] = &[
    row!(WhiteSpace, [AppendText], Done),
    row!(Comment, [AppendComment], Done),
    row!(
        StartTags(TagSet::Html),
        [Nothing],
        Using(InsertionMode::InBody)
    ),
    row!(
        StartTags(TagSet::Body),
        [
            InsertElement,
            FramesetNotOk,
            SwitchTo(InsertionMode::InBody)
        ],
        Done
    ),
    row!(
        StartTags(TagSet::Frameset),
        [InsertElement, SwitchTo(InsertionMode::InFrameset)],
        Done
    ),
    row!(
        StartTags(TagSet::HeadContent),
        [ParseError, PushHeadElem],
        UsingThen(InsertionMode::InHead, RemoveHeadElem)
    ),
    row!(
        EndTags(TagSet::Template),
        [Nothing],
        Using(InsertionMode::InHead)
    ),
    row!(
        EndTags(TagSet::BodyHtmlBr),
        [InsertNew(Implied::Body)],
        Reprocess(InsertionMode::InBody)
    ),
    row!(StartTags(TagSet::Head), [ParseError], Done),
    row!(AnyEndTag, [ParseError], Done),
    row!(
        AnythingElse,
        [InsertNew(Implied::Body)],
        Reprocess(InsertionMode::InBody)
    ),
];

/// The rows.
pub(crate) fn rows() -> &'static [Row]
    ensures { rows_of result.now ≡ after_head }
{
    AFTER_HEAD
}
