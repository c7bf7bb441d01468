//! The "in cell" insertion mode (HTML Standard, section 13.2.6.4.15).
ghost use Rattle.std.specs.Prelude.{◌≡◌};
ghost use Rattle.html_rules.specs.Modes.InCell.{in_cell};
ghost use Rattle.html_modes.specs.Tables.{rows_of};

use crate::table::Action::{
    ClearToMarker, Close, CloseToken, ImpliedEndTags, Nothing, ParseError, SwitchTo,
};
use crate::table::Class::{AnythingElse, EndTags, StartTags};
use crate::table::Conclusion::{Done, Reprocess, Using};
use crate::table::Condition::{InScope, TokenInScope};
use crate::table::{Row, row};
use html_rules::{InsertionMode, TagSet};

const IN_CELL: &[Row] = &[
    row!(EndTags(TagSet::TdTh), if TokenInScope(TagSet::TableScope),
        [ImpliedEndTags, CloseToken, ClearToMarker, SwitchTo(InsertionMode::InRow)], Done),
    row!(EndTags(TagSet::TdTh), [ParseError], Done),
    row!(StartTags(TagSet::CaptionCloser), if InScope(TagSet::TableScope, TagSet::TdTh),
        [ImpliedEndTags, Close(TagSet::TdTh), ClearToMarker], Reprocess(InsertionMode::InRow)),
    row!(StartTags(TagSet::CaptionCloser), [ParseError], Done),
    row!(EndTags(TagSet::InCellIgnoredEnd), [ParseError], Done),
    row!(EndTags(TagSet::CellCloserEnd), if TokenInScope(TagSet::TableScope),
        [ImpliedEndTags, Close(TagSet::TdTh), ClearToMarker], Reprocess(InsertionMode::InRow)),
    row!(EndTags(TagSet::CellCloserEnd), [ParseError], Done),
    row!(AnythingElse, [Nothing], Using(InsertionMode::InBody)),
];

/// The rows.
pub(crate) fn rows() -> &'static [Row]
    ensures { rows_of result.now ≡ in_cell }
{
    IN_CELL
}
