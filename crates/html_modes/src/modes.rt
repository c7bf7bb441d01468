//! The rows of each insertion mode and of foreign content (HTML Standard, sections 13.2.6.4 and 13.2.6.5).
mod after_after_body;
mod after_after_frameset;
mod after_body;
mod after_frameset;
mod after_head;
mod before_head;
mod before_html;
mod foreign;
mod in_body;
mod in_caption;
mod in_cell;
mod in_column_group;
mod in_frameset;
mod in_head;
mod in_head_noscript;
mod in_row;
mod in_table;
mod in_table_body;
mod in_table_text;
mod in_template;
mod initial;
mod text;

ghost use Rattle.std.specs.Prelude.{◌≡◌, slice_get};
ghost use Rattle.html_rules.specs.Rules.{rows};
ghost use Rattle.html_rules.specs.Modes.Foreign.{in_foreign_content};
ghost use Rattle.html_modes.specs.Tables.{row_lent, rows_of};

use crate::table::Row;
use html_rules::InsertionMode;

/// The row of a mode at a place, counted from 0, if there is one.
#[tactic(auto, unfolding(html_rules::specs::Rules::rows))]
pub fn row_at(mode: InsertionMode, place: usize) -> Option<&'static Row>
    ensures { row_lent result ≡ slice_get (rows mode) place }
{
    match mode {
        InsertionMode::Initial => initial::rows().get(place),
        InsertionMode::BeforeHtml => before_html::rows().get(place),
        InsertionMode::BeforeHead => before_head::rows().get(place),
        InsertionMode::InHead => in_head::rows().get(place),
        InsertionMode::InHeadNoscript => in_head_noscript::rows().get(place),
        InsertionMode::AfterHead => after_head::rows().get(place),
        InsertionMode::InBody => in_body::row_at(place),
        InsertionMode::Text => text::rows().get(place),
        InsertionMode::InTable => in_table::rows().get(place),
        InsertionMode::InTableText => in_table_text::rows().get(place),
        InsertionMode::InCaption => in_caption::rows().get(place),
        InsertionMode::InColumnGroup => in_column_group::rows().get(place),
        InsertionMode::InTableBody => in_table_body::rows().get(place),
        InsertionMode::InRow => in_row::rows().get(place),
        InsertionMode::InCell => in_cell::rows().get(place),
        InsertionMode::InTemplate => in_template::rows().get(place),
        InsertionMode::AfterBody => after_body::rows().get(place),
        InsertionMode::InFrameset => in_frameset::rows().get(place),
        InsertionMode::AfterFrameset => after_frameset::rows().get(place),
        InsertionMode::AfterAfterBody => after_after_body::rows().get(place),
        InsertionMode::AfterAfterFrameset => after_after_frameset::rows().get(place),
    }
}

/// The rows of foreign content.
pub fn rows_of_foreign_content() -> &'static [Row]
    ensures { rows_of result.now ≡ in_foreign_content }
{
    foreign::rows()
}
