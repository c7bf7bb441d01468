//! The "after frameset" insertion mode (HTML Standard, section 13.2.6.4.19).
ghost use Rattle.std.specs.Prelude.{◌≡◌};
ghost use Rattle.html_rules.specs.Modes.AfterFrameset.{after_frameset};
ghost use Rattle.html_modes.specs.Tables.{rows_of};

use crate::table::Action::{AppendComment, AppendText, Nothing, ParseError, SwitchTo};
use crate::table::Class::{AnythingElse, Comment, EndOfFile, EndTags, StartTags, WhiteSpace};
use crate::table::Conclusion::{Done, Using};
use crate::table::{Row, row};
use html_rules::{InsertionMode, TagSet};

const AFTER_FRAMESET: &[Row] = &[
    row!(WhiteSpace, [AppendText], Done),
    row!(Comment, [AppendComment], Done),
    row!(
        StartTags(TagSet::Html),
        [Nothing],
        Using(InsertionMode::InBody)
    ),
    row!(
        EndTags(TagSet::Html),
        [SwitchTo(InsertionMode::AfterAfterFrameset)],
        Done
    ),
    row!(
        StartTags(TagSet::Noframes),
        [Nothing],
        Using(InsertionMode::InHead)
    ),
    row!(EndOfFile, [Nothing], Done),
    row!(AnythingElse, [ParseError], Done),
];

/// The rows.
pub(crate) fn rows() -> &'static [Row]
    ensures { rows_of result.now ≡ after_frameset }
{
    AFTER_FRAMESET
}
