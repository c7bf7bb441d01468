//! The "before html" insertion mode (HTML Standard, section 13.2.6.4.2).
ghost use Rattle.std.specs.Prelude.{◌≡◌};
ghost use Rattle.html_rules.specs.Modes.BeforeHtml.{before_html};
ghost use Rattle.html_modes.specs.Tables.{rows_of};

use crate::table::Action::{
    AppendCommentToDocument, CreateNewRoot, CreateRoot, Nothing, ParseError, SwitchTo,
};
use crate::table::Class::{AnyEndTag, AnythingElse, Comment, EndTags, StartTags, WhiteSpace};
use crate::table::Conclusion::{Done, Reprocess};
use crate::table::{Row, row};
use html_rules::{InsertionMode, TagSet};

const BEFORE_HTML: &[Row] = &[
    row!(Comment, [AppendCommentToDocument], Done),
    row!(WhiteSpace, [Nothing], Done),
    row!(
        StartTags(TagSet::Html),
        [CreateRoot, SwitchTo(InsertionMode::BeforeHead)],
        Done
    ),
    row!(
        EndTags(TagSet::HeadBodyHtmlBr),
        [CreateNewRoot],
        Reprocess(InsertionMode::BeforeHead)
    ),
    row!(AnyEndTag, [ParseError], Done),
    row!(
        AnythingElse,
        [CreateNewRoot],
        Reprocess(InsertionMode::BeforeHead)
    ),
];

/// The rows.
pub(crate) fn rows() -> &'static [Row]
    ensures { rows_of result.now ≡ before_html }
{
    BEFORE_HTML
}
