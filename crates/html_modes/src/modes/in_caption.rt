//! The "in caption" insertion mode (HTML Standard, section 13.2.6.4.11).
ghost use Rattle.std.specs.Prelude.{◌≡◌};
ghost use Rattle.html_rules.specs.Modes.InCaption.{in_caption};
ghost use Rattle.html_modes.specs.Tables.{rows_of};

use crate::table::Action::{ClearToMarker, Close, ImpliedEndTags, Nothing, ParseError, SwitchTo};
use crate::table::Class::{AnythingElse, EndTags, StartTags};
use crate::table::Conclusion::{Done, Reprocess, Using};
use crate::table::Condition::InScope;
use crate::table::{Row, row};
use html_rules::{InsertionMode, TagSet};

const IN_CAPTION: &[Row] = &[
    row!(StartTags(TagSet::CaptionCloser), if InScope(TagSet::TableScope, TagSet::Caption),
        [ImpliedEndTags, Close(TagSet::Caption), ClearToMarker], Reprocess(InsertionMode::InTable)),
    row!(StartTags(TagSet::CaptionCloser), [ParseError], Done),
    row!(EndTags(TagSet::Table), if InScope(TagSet::TableScope, TagSet::Caption),
        [ImpliedEndTags, Close(TagSet::Caption), ClearToMarker], Reprocess(InsertionMode::InTable)),
    row!(EndTags(TagSet::Table), [ParseError], Done),
    row!(EndTags(TagSet::Caption), if InScope(TagSet::TableScope, TagSet::Caption),
        [ImpliedEndTags, Close(TagSet::Caption), ClearToMarker, SwitchTo(InsertionMode::InTable)], Done),
    row!(EndTags(TagSet::Caption), [ParseError], Done),
    row!(EndTags(TagSet::InCaptionIgnoredEnd), [ParseError], Done),
    row!(AnythingElse, [Nothing], Using(InsertionMode::InBody)),
];

/// The rows.
pub(crate) fn rows() -> &'static [Row]
    ensures { rows_of result.now ≡ in_caption }
{
    IN_CAPTION
}
