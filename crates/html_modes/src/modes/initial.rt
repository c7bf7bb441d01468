//! The "initial" insertion mode; doctypes are not among its rows (HTML Standard, section 13.2.6.4.1).
ghost use Rattle.std.specs.Prelude.{◌≡◌};
ghost use Rattle.html_rules.specs.Modes.Initial.{initial};
ghost use Rattle.html_modes.specs.Tables.{rows_of};

use crate::table::Action::{AppendCommentToDocument, Nothing, ParseError, SetQuirks};
use crate::table::Class::{AnythingElse, Comment, WhiteSpace};
use crate::table::Conclusion::{Done, Reprocess};
use crate::table::Condition::IframeSrcdoc;
use crate::table::{Row, row};
use html_rules::InsertionMode;

const INITIAL: &[Row] = &[
    row!(WhiteSpace, [Nothing], Done),
    row!(Comment, [AppendCommentToDocument], Done),
    row!(AnythingElse, if IframeSrcdoc, [Nothing], Reprocess(InsertionMode::BeforeHtml)),
    row!(
        AnythingElse,
        [ParseError, SetQuirks],
        Reprocess(InsertionMode::BeforeHtml)
    ),
];

/// The rows.
pub(crate) fn rows() -> &'static [Row]
    ensures { rows_of result.now ≡ initial }
{
    INITIAL
}
