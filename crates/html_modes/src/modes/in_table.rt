//! The "in table" insertion mode (HTML Standard, section 13.2.6.4.9).
ghost use Rattle.std.specs.Prelude.{◌≡◌};
ghost use Rattle.html_rules.specs.Modes.InTable.{in_table};
ghost use Rattle.html_modes.specs.Tables.{rows_of};

use crate::table::Action::{
    AppendComment, ClearBackTo, DisableFosterParenting, EnableFosterParenting, InsertElement,
    InsertFormVoid, InsertMarker, InsertNew, InsertVoid, Nothing, ParseError, PopUntil, ResetMode,
    SaveMode, SwitchTo,
};
use crate::table::Class::{AnythingElse, Character, Comment, EndOfFile, EndTags, Null, StartTags};
use crate::table::Conclusion::{Acknowledged, Done, Reprocess, ReprocessInMode, Using, UsingThen};
use crate::table::Condition::{
    Both, CurrentIs, HasFormElem, InScope, Not, TemplateOpen, TypeHidden,
};
use crate::table::{Implied, Row, row};
use html_rules::{InsertionMode, TagSet};

const IN_TABLE: &[Row] = &[
    row!(Character, if CurrentIs(TagSet::FosterTarget), [SaveMode], Reprocess(InsertionMode::InTableText)),
    row!(Null, if CurrentIs(TagSet::FosterTarget), [SaveMode], Reprocess(InsertionMode::InTableText)),
    row!(
        Character,
        [ParseError, EnableFosterParenting],
        UsingThen(InsertionMode::InBody, DisableFosterParenting)
    ),
    row!(
        Null,
        [ParseError, EnableFosterParenting],
        UsingThen(InsertionMode::InBody, DisableFosterParenting)
    ),
    row!(Comment, [AppendComment], Done),
    row!(
        StartTags(TagSet::Caption),
        [
            ClearBackTo(TagSet::TableScope),
            InsertMarker,
            InsertElement,
            SwitchTo(InsertionMode::InCaption)
        ],
        Done
    ),
    row!(
        StartTags(TagSet::Colgroup),
        [
            ClearBackTo(TagSet::TableScope),
            InsertElement,
            SwitchTo(InsertionMode::InColumnGroup)
        ],
        Done
    ),
    row!(
        StartTags(TagSet::Col),
        [
            ClearBackTo(TagSet::TableScope),
            InsertNew(Implied::Colgroup)
        ],
        Reprocess(InsertionMode::InColumnGroup)
    ),
    row!(
        StartTags(TagSet::TbodyTfootThead),
        [
            ClearBackTo(TagSet::TableScope),
            InsertElement,
            SwitchTo(InsertionMode::InTableBody)
        ],
        Done
    ),
    row!(
        StartTags(TagSet::TdThTr),
        [ClearBackTo(TagSet::TableScope), InsertNew(Implied::Tbody)],
        Reprocess(InsertionMode::InTableBody)
    ),
    row!(StartTags(TagSet::Table), if InScope(TagSet::TableScope, TagSet::Table),
        [ParseError, PopUntil(TagSet::Table), ResetMode], ReprocessInMode),
    row!(StartTags(TagSet::Table), [ParseError], Done),
    row!(EndTags(TagSet::Table), if InScope(TagSet::TableScope, TagSet::Table), [PopUntil(TagSet::Table), ResetMode], Done),
    row!(EndTags(TagSet::Table), [ParseError], Done),
    row!(EndTags(TagSet::InTableIgnoredEnd), [ParseError], Done),
    row!(
        StartTags(TagSet::StyleScriptTemplate),
        [Nothing],
        Using(InsertionMode::InHead)
    ),
    row!(
        EndTags(TagSet::Template),
        [Nothing],
        Using(InsertionMode::InHead)
    ),
    row!(StartTags(TagSet::Input), if TypeHidden, [ParseError, InsertVoid], Acknowledged),
    row!(StartTags(TagSet::Form), if Both(&Not(&TemplateOpen), &Not(&HasFormElem)), [ParseError, InsertFormVoid], Done),
    row!(StartTags(TagSet::Form), [ParseError], Done),
    row!(EndOfFile, [Nothing], Using(InsertionMode::InBody)),
    row!(
        AnythingElse,
        [ParseError, EnableFosterParenting],
        UsingThen(InsertionMode::InBody, DisableFosterParenting)
    ),
];

/// The rows.
pub(crate) fn rows() -> &'static [Row]
    ensures { rows_of result.now ≡ in_table }
{
    IN_TABLE
}
