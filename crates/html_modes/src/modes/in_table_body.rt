//! The "in table body" insertion mode (HTML Standard, section 13.2.6.4.13).
ghost use Rattle.std.specs.Prelude.{◌≡◌};
ghost use Rattle.html_rules.specs.Modes.InTableBody.{in_table_body};
ghost use Rattle.html_modes.specs.Tables.{rows_of};

use crate::table::Action::{
    ClearBackTo, InsertElement, InsertNew, Nothing, ParseError, Pop, SwitchTo,
};
use crate::table::Class::{AnythingElse, EndTags, StartTags};
use crate::table::Conclusion::{Done, Reprocess, Using};
use crate::table::Condition::{InScope, TokenInScope};
use crate::table::{Implied, Row, row};
use html_rules::{InsertionMode, TagSet};

const IN_TABLE_BODY: &[Row] = &[
    row!(
        StartTags(TagSet::Tr),
        [
            ClearBackTo(TagSet::TableBodyContext),
            InsertElement,
            SwitchTo(InsertionMode::InRow)
        ],
        Done
    ),
    row!(
        StartTags(TagSet::TdTh),
        [
            ParseError,
            ClearBackTo(TagSet::TableBodyContext),
            InsertNew(Implied::Tr)
        ],
        Reprocess(InsertionMode::InRow)
    ),
    row!(EndTags(TagSet::TbodyTfootThead), if TokenInScope(TagSet::TableScope),
        [ClearBackTo(TagSet::TableBodyContext), Pop, SwitchTo(InsertionMode::InTable)], Done),
    row!(EndTags(TagSet::TbodyTfootThead), [ParseError], Done),
    row!(StartTags(TagSet::TableBodyCloser), if InScope(TagSet::TableScope, TagSet::TableTbodyTfoot),
        [ClearBackTo(TagSet::TableBodyContext), Pop], Reprocess(InsertionMode::InTable)),
    row!(StartTags(TagSet::TableBodyCloser), [ParseError], Done),
    row!(EndTags(TagSet::Table), if InScope(TagSet::TableScope, TagSet::TableTbodyTfoot),
        [ClearBackTo(TagSet::TableBodyContext), Pop], Reprocess(InsertionMode::InTable)),
    row!(EndTags(TagSet::Table), [ParseError], Done),
    row!(EndTags(TagSet::InTableBodyIgnoredEnd), [ParseError], Done),
    row!(AnythingElse, [Nothing], Using(InsertionMode::InTable)),
];

/// The rows.
pub(crate) fn rows() -> &'static [Row]
    ensures { rows_of result.now ≡ in_table_body }
{
    IN_TABLE_BODY
}
