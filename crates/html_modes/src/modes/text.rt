//! The "text" insertion mode (HTML Standard, section 13.2.6.4.8).
ghost use Rattle.std.specs.Prelude.{◌≡◌};
ghost use Rattle.html_rules.specs.Modes.Text.{text};
ghost use Rattle.html_modes.specs.Tables.{rows_of};

use crate::table::Action::{AppendText, Nothing, ParseError, Pop, RestoreMode};
use crate::table::Class::{AnyEndTag, AnythingElse, Character, EndOfFile, EndTags};
use crate::table::Conclusion::{Done, ReprocessInOriginal, RunScript};
use crate::table::{Row, row};
use html_rules::TagSet;

const TEXT: &[Row] = &[
    row!(Character, [AppendText], Done),
    row!(EndOfFile, [ParseError, Pop], ReprocessInOriginal),
    row!(EndTags(TagSet::Script), [Pop, RestoreMode], RunScript),
    row!(AnyEndTag, [Pop, RestoreMode], Done),
    row!(AnythingElse, [Nothing], Done),
];

/// The rows.
pub(crate) fn rows() -> &'static [Row]
    ensures { rows_of result.now ≡ text }
{
    TEXT
}
