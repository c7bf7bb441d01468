//! The "in table text" insertion mode (HTML Standard, section 13.2.6.4.10).
ghost use Rattle.std.specs.Prelude.{◌≡◌};
ghost use Rattle.html_rules.specs.Modes.InTableText.{in_table_text};
ghost use Rattle.html_modes.specs.Tables.{rows_of};

use crate::table::Action::{InsertPendingText, KeepText, ParseError};
use crate::table::Class::{AnythingElse, Character, Null};
use crate::table::Conclusion::{Done, ReprocessInOriginal};
use crate::table::{Row, row};

const IN_TABLE_TEXT: &[Row] = &[
    row!(Null, [ParseError], Done),
    row!(Character, [KeepText], Done),
    row!(AnythingElse, [InsertPendingText], ReprocessInOriginal),
];

/// The rows.
pub(crate) fn rows() -> &'static [Row]
    ensures { rows_of result.now ≡ in_table_text }
{
    IN_TABLE_TEXT
}
