//! The "after after body" insertion mode (HTML Standard, section 13.2.6.4.20).
ghost use Rattle.std.specs.Prelude.{◌≡◌};
ghost use Rattle.html_rules.specs.Modes.AfterAfterBody.{after_after_body};
ghost use Rattle.html_modes.specs.Tables.{rows_of};

use crate::table::Action::{AppendCommentToDocument, Nothing, ParseError};
use crate::table::Class::{AnythingElse, Comment, EndOfFile, StartTags, WhiteSpace};
use crate::table::Conclusion::{Done, Reprocess, Using};
use crate::table::{Row, row};
use html_rules::{InsertionMode, TagSet};

const AFTER_AFTER_BODY: &[Row] = &[
    row!(WhiteSpace, [Nothing], Using(InsertionMode::InBody)),
    row!(Comment, [AppendCommentToDocument], Done),
    row!(
        StartTags(TagSet::Html),
        [Nothing],
        Using(InsertionMode::InBody)
    ),
    row!(EndOfFile, [Nothing], Done),
    row!(AnythingElse, [ParseError], Reprocess(InsertionMode::InBody)),
];

/// The rows.
pub(crate) fn rows() -> &'static [Row]
    ensures { rows_of result.now ≡ after_after_body }
{
    AFTER_AFTER_BODY
}
