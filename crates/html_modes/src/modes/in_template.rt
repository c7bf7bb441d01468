//! The "in template" insertion mode (HTML Standard, section 13.2.6.4.16).
ghost use Rattle.std.specs.Prelude.{◌≡◌};
ghost use Rattle.html_rules.specs.Modes.InTemplate.{in_template};
ghost use Rattle.html_modes.specs.Tables.{rows_of};

use crate::table::Action::{
    ClearToMarker, Nothing, ParseError, PopTemplateMode, PopUntil, ResetMode, SetTemplateMode,
};
use crate::table::Class::{
    AnyStartTag, AnythingElse, Character, Comment, EndOfFile, EndTags, StartTags,
};
use crate::table::Conclusion::{Done, Reprocess, ReprocessInMode, Using};
use crate::table::Condition::TemplateOpen;
use crate::table::{Row, row};
use html_rules::{InsertionMode, TagSet};

const IN_TEMPLATE: &[Row] = &[
    row!(Character, [Nothing], Using(InsertionMode::InBody)),
    row!(Comment, [Nothing], Using(InsertionMode::InBody)),
    row!(
        StartTags(TagSet::HeadContent),
        [Nothing],
        Using(InsertionMode::InHead)
    ),
    row!(
        EndTags(TagSet::Template),
        [Nothing],
        Using(InsertionMode::InHead)
    ),
    row!(
        StartTags(TagSet::TableTemplate),
        [SetTemplateMode(InsertionMode::InTable)],
        Reprocess(InsertionMode::InTable)
    ),
    row!(
        StartTags(TagSet::Col),
        [SetTemplateMode(InsertionMode::InColumnGroup)],
        Reprocess(InsertionMode::InColumnGroup)
    ),
    row!(
        StartTags(TagSet::Tr),
        [SetTemplateMode(InsertionMode::InTableBody)],
        Reprocess(InsertionMode::InTableBody)
    ),
    row!(
        StartTags(TagSet::TdTh),
        [SetTemplateMode(InsertionMode::InRow)],
        Reprocess(InsertionMode::InRow)
    ),
    row!(
        AnyStartTag,
        [SetTemplateMode(InsertionMode::InBody)],
        Reprocess(InsertionMode::InBody)
    ),
    row!(EndOfFile, if TemplateOpen, [ParseError, PopUntil(TagSet::Template), ClearToMarker, PopTemplateMode, ResetMode], ReprocessInMode),
    row!(EndOfFile, [Nothing], Done),
    row!(AnythingElse, [ParseError], Done),
];

/// The rows.
pub(crate) fn rows() -> &'static [Row]
    ensures { rows_of result.now ≡ in_template }
{
    IN_TEMPLATE
}
