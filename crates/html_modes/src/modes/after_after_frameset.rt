//! The "after after frameset" insertion mode (HTML Standard, section 13.2.6.4.21).
ghost use Rattle.std.specs.Prelude.{◌≡◌};
ghost use Rattle.html_rules.specs.Modes.AfterAfterFrameset.{after_after_frameset};
ghost use Rattle.html_modes.specs.Tables.{rows_of};

use crate::table::Action::{AppendCommentToDocument, Nothing, ParseError};
use crate::table::Class::{AnythingElse, Comment, EndOfFile, StartTags, WhiteSpace};
use crate::table::Conclusion::{Done, Using};
use crate::table::{Row, row};
use html_rules::{InsertionMode, TagSet};

const AFTER_AFTER_FRAMESET: &[Row] = &[
    row!(WhiteSpace, [Nothing], Using(InsertionMode::InBody)),
    row!(Comment, [AppendCommentToDocument], Done),
    row!(
        StartTags(TagSet::Html),
        [Nothing],
        Using(InsertionMode::InBody)
    ),
    row!(EndOfFile, [Nothing], Done),
    row!(
        StartTags(TagSet::Noframes),
        [Nothing],
        Using(InsertionMode::InHead)
    ),
    row!(AnythingElse, [ParseError], Done),
];

/// The rows.
pub(crate) fn rows() -> &'static [Row]
    ensures { rows_of result.now ≡ after_after_frameset }
{
    AFTER_AFTER_FRAMESET
}
