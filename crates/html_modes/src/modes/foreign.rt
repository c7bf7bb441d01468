//! The rules for parsing tokens in foreign content (HTML Standard, section 13.2.6.5).
ghost use Rattle.std.specs.Prelude.{◌≡◌};
ghost use Rattle.html_rules.specs.Modes.Foreign.{in_foreign_content};
ghost use Rattle.html_modes.specs.Tables.{rows_of};

use crate::table::Action::{
    AppendComment, AppendReplacement, AppendText, CloseForeign, FramesetNotOkUnlessWhite,
    InsertForeign, Nothing, ParseError, PopForeign, When,
};
use crate::table::Class::{
    AnyEndTag, AnyStartTag, AnythingElse, Character, Comment, EndTags, Null, StartTags,
};
use crate::table::Conclusion::{Acknowledged, Done, UsingCurrentMode};
use crate::table::Condition::{EndsInHtml, FontAttributes, ForeignEndError};
use crate::table::{Row, row};
use html_rules::TagSet;

const IN_FOREIGN_CONTENT: &[Row] = &[
    row!(Null, [ParseError, AppendReplacement], Done),
    row!(Character, [FramesetNotOkUnlessWhite, AppendText], Done),
    row!(Comment, [AppendComment], Done),
    row!(
        StartTags(TagSet::ForeignBreakout),
        [ParseError, PopForeign],
        UsingCurrentMode
    ),
    row!(StartTags(TagSet::Font), if FontAttributes, [ParseError, PopForeign], UsingCurrentMode),
    row!(
        EndTags(TagSet::BrP),
        [ParseError, PopForeign],
        UsingCurrentMode
    ),
    row!(AnyStartTag, [InsertForeign], Acknowledged),
    row!(AnyEndTag, if EndsInHtml, [ParseError], UsingCurrentMode),
    row!(
        AnyEndTag,
        [When(ForeignEndError, &ParseError), CloseForeign],
        Done
    ),
    row!(AnythingElse, [Nothing], Done),
];

/// The rows.
pub(crate) fn rows() -> &'static [Row]
    ensures { rows_of result.now ≡ in_foreign_content }
{
    IN_FOREIGN_CONTENT
}
