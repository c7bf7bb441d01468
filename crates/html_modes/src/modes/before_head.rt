//! The "before head" insertion mode (HTML Standard, section 13.2.6.4.3).
ghost use Rattle.std.specs.Prelude.{◌≡◌};
ghost use Rattle.html_rules.specs.Modes.BeforeHead.{before_head};
ghost use Rattle.html_modes.specs.Tables.{rows_of};

use crate::table::Action::{
    AppendComment, InsertElement, InsertNew, Nothing, ParseError, SetHeadElem, SwitchTo,
};
use crate::table::Class::{AnyEndTag, AnythingElse, Comment, EndTags, StartTags, WhiteSpace};
use crate::table::Conclusion::{Done, Reprocess, Using};
use crate::table::{Implied, Row, row};
use html_rules::{InsertionMode, TagSet};

const BEFORE_HEAD: &[Row] = &[
    row!(WhiteSpace, [Nothing], Done),
    row!(Comment, [AppendComment], Done),
    row!(
        StartTags(TagSet::Html),
        [Nothing],
        Using(InsertionMode::InBody)
    ),
    row!(
        StartTags(TagSet::Head),
        [InsertElement, SetHeadElem, SwitchTo(InsertionMode::InHead)],
        Done
    ),
    row!(
        EndTags(TagSet::HeadBodyHtmlBr),
        [InsertNew(Implied::Head), SetHeadElem],
        Reprocess(InsertionMode::InHead)
    ),
    row!(AnyEndTag, [ParseError], Done),
    row!(
        AnythingElse,
        [InsertNew(Implied::Head), SetHeadElem],
        Reprocess(InsertionMode::InHead)
    ),
];

/// The rows.
pub(crate) fn rows() -> &'static [Row]
    ensures { rows_of result.now ≡ before_head }
{
    BEFORE_HEAD
}
