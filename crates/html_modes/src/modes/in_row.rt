//! The "in row" insertion mode (HTML Standard, section 13.2.6.4.14).
ghost use Rattle.std.specs.Prelude.{◌≡◌};
ghost use Rattle.html_rules.specs.Modes.InRow.{in_row};
ghost use Rattle.html_modes.specs.Tables.{rows_of};

use crate::table::Action::{
    ClearBackTo, InsertElement, InsertMarker, Nothing, ParseError, Pop, SwitchTo,
};
use crate::table::Class::{AnythingElse, EndTags, StartTags};
use crate::table::Conclusion::{Done, Reprocess, Using};
use crate::table::Condition::{InScope, Not, TokenInScope};
use crate::table::{Row, row};
use html_rules::{InsertionMode, TagSet};

const IN_ROW: &[Row] = &[
    row!(
        StartTags(TagSet::TdTh),
        [
            ClearBackTo(TagSet::TableRowContext),
            InsertElement,
            SwitchTo(InsertionMode::InCell),
            InsertMarker
        ],
        Done
    ),
    row!(EndTags(TagSet::Tr), if InScope(TagSet::TableScope, TagSet::Tr),
        [ClearBackTo(TagSet::TableRowContext), Pop, SwitchTo(InsertionMode::InTableBody)], Done),
    row!(EndTags(TagSet::Tr), [ParseError], Done),
    row!(StartTags(TagSet::RowCloser), if InScope(TagSet::TableScope, TagSet::Tr),
        [ClearBackTo(TagSet::TableRowContext), Pop], Reprocess(InsertionMode::InTableBody)),
    row!(StartTags(TagSet::RowCloser), [ParseError], Done),
    row!(EndTags(TagSet::Table), if InScope(TagSet::TableScope, TagSet::Tr),
        [ClearBackTo(TagSet::TableRowContext), Pop], Reprocess(InsertionMode::InTableBody)),
    row!(EndTags(TagSet::Table), [ParseError], Done),
    row!(EndTags(TagSet::TbodyTfootThead), if Not(&TokenInScope(TagSet::TableScope)), [ParseError], Done),
    row!(EndTags(TagSet::TbodyTfootThead), if InScope(TagSet::TableScope, TagSet::Tr),
        [ClearBackTo(TagSet::TableRowContext), Pop], Reprocess(InsertionMode::InTableBody)),
    row!(EndTags(TagSet::TbodyTfootThead), [Nothing], Done),
    row!(EndTags(TagSet::InRowIgnoredEnd), [ParseError], Done),
    row!(AnythingElse, [Nothing], Using(InsertionMode::InTable)),
];

/// The rows.
pub(crate) fn rows() -> &'static [Row]
    ensures { rows_of result.now ≡ in_row }
{
    IN_ROW
}
