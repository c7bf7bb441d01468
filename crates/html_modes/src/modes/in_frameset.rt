//! The "in frameset" insertion mode (HTML Standard, section 13.2.6.4.18).
ghost use Rattle.std.specs.Prelude.{◌≡◌};
ghost use Rattle.html_rules.specs.Modes.InFrameset.{in_frameset};
ghost use Rattle.html_modes.specs.Tables.{rows_of};

use crate::table::Action::{
    AppendComment, AppendText, InsertElement, InsertVoid, Nothing, ParseError, Pop, SwitchTo, When,
};
use crate::table::Class::{AnythingElse, Comment, EndOfFile, EndTags, StartTags, WhiteSpace};
use crate::table::Conclusion::{Acknowledged, Done, Using};
use crate::table::Condition::{Both, CurrentIs, InFragment, Not, RootAlone};
use crate::table::{Row, row};
use html_rules::{InsertionMode, TagSet};

const IN_FRAMESET: &[Row] = &[
    row!(WhiteSpace, [AppendText], Done),
    row!(Comment, [AppendComment], Done),
    row!(
        StartTags(TagSet::Html),
        [Nothing],
        Using(InsertionMode::InBody)
    ),
    row!(StartTags(TagSet::Frameset), [InsertElement], Done),
    row!(EndTags(TagSet::Frameset), if RootAlone, [ParseError], Done),
    row!(
        EndTags(TagSet::Frameset),
        [
            Pop,
            When(
                Both(&Not(&InFragment), &Not(&CurrentIs(TagSet::Frameset))),
                &SwitchTo(InsertionMode::AfterFrameset)
            )
        ],
        Done
    ),
    row!(StartTags(TagSet::Frame), [InsertVoid], Acknowledged),
    row!(
        StartTags(TagSet::Noframes),
        [Nothing],
        Using(InsertionMode::InHead)
    ),
    row!(EndOfFile, [When(Not(&RootAlone), &ParseError)], Done),
    row!(AnythingElse, [ParseError], Done),
];

/// The rows.
pub(crate) fn rows() -> &'static [Row]
    ensures { rows_of result.now ≡ in_frameset }
{
    IN_FRAMESET
}
