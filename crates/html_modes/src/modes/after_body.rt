//! The "after body" insertion mode (HTML Standard, section 13.2.6.4.17).
ghost use Rattle.std.specs.Prelude.{◌≡◌};
ghost use Rattle.html_rules.specs.Modes.AfterBody.{after_body};
ghost use Rattle.html_modes.specs.Tables.{rows_of};

use crate::table::Action::{AppendCommentToRoot, Nothing, ParseError, SwitchTo};
use crate::table::Class::{AnythingElse, Comment, EndOfFile, EndTags, StartTags, WhiteSpace};
use crate::table::Conclusion::{Done, Reprocess, Using};
use crate::table::Condition::InFragment;
use crate::table::{Row, row};
use html_rules::{InsertionMode, TagSet};

const AFTER_BODY: &[Row] = &[
    row!(WhiteSpace, [Nothing], Using(InsertionMode::InBody)),
    row!(Comment, [AppendCommentToRoot], Done),
    row!(
        StartTags(TagSet::Html),
        [Nothing],
        Using(InsertionMode::InBody)
    ),
    row!(EndTags(TagSet::Html), if InFragment, [ParseError], Done),
    row!(
        EndTags(TagSet::Html),
        [SwitchTo(InsertionMode::AfterAfterBody)],
        Done
    ),
    row!(EndOfFile, [Nothing], Done),
    row!(AnythingElse, [ParseError], Reprocess(InsertionMode::InBody)),
];

/// The rows.
pub(crate) fn rows() -> &'static [Row]
    ensures { rows_of result.now ≡ after_body }
{
    AFTER_BODY
}
