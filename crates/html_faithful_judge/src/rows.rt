//! Which row of a table a token takes where a node stands (HTML Standard, section 13.2.6).
ghost use Rattle.std.specs.Prelude.{◌≡◌, drop, slice_get};
ghost use Rattle.html_rules.specs.Conditions.{holds};
ghost use Rattle.html_rules.specs.Rules.{first_fit, fits};
ghost use Rattle.html_rules.specs.State.{State};
ghost use Rattle.html_modes.specs.Tables.{condition_of, row_lent, row_of};
ghost use Rattle.html_faithful.specs.Spots.{hollow};
ghost use Rattle.html_faithful_judge.specs.Rows.{rows_in};
ghost use Rattle.html_faithful_judge.specs.Spots.{spot_of};
ghost use Rattle.html_faithful_judge.specs.Tokens.{IsNamed, token_of};

use crate::spot::Spot;
use crate::tokens::{Content, NamedToken};
use html_modes::{
    Action, Class, Conclusion, Condition, Row, row_at, rows_before, rows_of_foreign_content,
};
use html_rules::InsertionMode;

/// Whose rows are gone through.
#[derive(Clone, Copy)]
pub(crate) enum Table {
    /// Those of a mode.
    Mode(InsertionMode),
    /// Those of foreign content.
    Foreign,
}

/// What a token takes that no row is for.
const NO_ROW: &Row = &Row {
    on: Class::AnythingElse,
    when: Condition::Always,
    does: Action::Nothing,
    ends: Conclusion::Done,
};

/// The row at a place, counted from 0, if there is one.
fn row_in(table: Table, place: usize) -> Option<&'static Row>
    ensures { row_lent result ≡ slice_get (rows_in table) place }
{
    match table {
        Table::Mode(mode) => row_at(mode, place),
        Table::Foreign => rows_of_foreign_content().get(place),
    }
}

impl NamedToken<'_> {
    /// How many rows of a table are passed over, since none of them is for the token. Only those of tags in the modes are noted.
    fn rows_passed(&self, table: Table) -> usize
        requires { IsNamed self.now }
        ensures { (s : State) → first_fit (drop result (rows_in table)) (token_of self.now.content) s
            ≡ first_fit (rows_in table) (token_of self.now.content) s }
    {
        match table {
            Table::Mode(mode) => match self.content {
                Content::Tag(tag) => rows_before(mode, tag.kind, self.class.known),
                _ => 0,
            },
            Table::Foreign => 0,
        }
    }
}

impl Spot {
    /// Whether a row is for a token.
    fn fits(&self, row: &Row, token: &NamedToken<'_>) -> bool
        requires { IsNamed token.now }
        ensures { result ≡ fits (row_of row.now) (token_of token.now.content) (hollow (spot_of self.now)) }
    {
        token.fits(row.on) && self.holds(&row.when, token)
    }

    /// The first row that is for a token, or what a token takes that no row is for.
    pub(crate) fn first_row(&self, table: Table, token: &NamedToken<'_>) -> &'static Row
        requires { IsNamed token.now }
        ensures { row_of result.now ≡ first_fit (rows_in table) (token_of token.now.content) (hollow (spot_of self.now)) }
    {
        let mut place = token.rows_passed(table);
        while let Some(row) = row_in(table, place) {
            if self.fits(row, token) {
                return row;
            }
            place += 1;
        }
        NO_ROW
    }
}
