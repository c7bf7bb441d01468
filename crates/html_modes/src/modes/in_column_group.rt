//! The "in column group" insertion mode (HTML Standard, section 13.2.6.4.12).
ghost use Rattle.std.specs.Prelude.{◌≡◌};
ghost use Rattle.html_rules.specs.Modes.InColumnGroup.{in_column_group};
ghost use Rattle.html_modes.specs.Tables.{rows_of};

use crate::table::Action::{
    AppendComment, AppendText, InsertVoid, Nothing, ParseError, Pop, SwitchTo,
};
use crate::table::Class::{AnythingElse, Comment, EndOfFile, EndTags, StartTags, WhiteSpace};
use crate::table::Conclusion::{Acknowledged, Done, Reprocess, Using};
use crate::table::Condition::CurrentIs;
use crate::table::{Row, row};
use html_rules::{InsertionMode, TagSet};

const IN_COLUMN_GROUP: &[Row] = &[
    row!(WhiteSpace, [AppendText], Done),
    row!(Comment, [AppendComment], Done),
    row!(
        StartTags(TagSet::Html),
        [Nothing],
        Using(InsertionMode::InBody)
    ),
    row!(StartTags(TagSet::Col), [InsertVoid], Acknowledged),
    row!(EndTags(TagSet::Colgroup), if CurrentIs(TagSet::Colgroup), [Pop, SwitchTo(InsertionMode::InTable)], Done),
    row!(EndTags(TagSet::Colgroup), [ParseError], Done),
    row!(EndTags(TagSet::Col), [ParseError], Done),
    row!(
        StartTags(TagSet::Template),
        [Nothing],
        Using(InsertionMode::InHead)
    ),
    row!(
        EndTags(TagSet::Template),
        [Nothing],
        Using(InsertionMode::InHead)
    ),
    row!(EndOfFile, [Nothing], Using(InsertionMode::InBody)),
    row!(AnythingElse, if CurrentIs(TagSet::Colgroup), [Pop], Reprocess(InsertionMode::InTable)),
    row!(AnythingElse, [ParseError], Done),
];

/// The rows.
pub(crate) fn rows() -> &'static [Row]
    ensures { rows_of result.now ≡ in_column_group }
{
    IN_COLUMN_GROUP
}
