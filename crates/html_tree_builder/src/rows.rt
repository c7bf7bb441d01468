//! Which row of a table a token takes (HTML Standard, section 13.2.6).
ghost use Rattle.std.specs.Prelude.{◌≡◌, ◌++◌, List, drop};
ghost use Rattle.markup.specs.Forest.{Forest};
ghost use Rattle.html_rules.specs.Conditions.{holds};
ghost use Rattle.html_rules.specs.Modes.Foreign.{in_foreign_content};
ghost use Rattle.html_rules.specs.Rules.{first_fit, fits, rows};
ghost use Rattle.html_rules.specs.State.{Answers, State};
ghost use Rattle.html_rules.specs.Table.{Row as RuleRow};
ghost use Rattle.html_modes.specs.Tables.{condition_of, row_of, rows_of};
ghost use Rattle.html_tree_builder.specs.Rows.{row_or};
ghost use Rattle.html_tree_builder.specs.States.{state_of};
ghost use Rattle.html_tree_builder.specs.Told.{IsTold, token_of};

use crate::construction::Construction;
use crate::told::{Content, NamedToken};
use html_modes::{
    Action, Class, Conclusion, Condition, Row, row_at, rows_before, rows_of_foreign_content,
};
use html_rules::{InsertionMode, Rules};
use markup::TreeSink;

/// What a token takes that no row is for.
const NO_ROW: &Row = &Row {
    on: Class::AnythingElse,
    when: Condition::Always,
    does: Action::Nothing,
    ends: Conclusion::Done,
};

impl NamedToken<'_> {
    /// How many rows of a mode are passed over, since none of them is for the token. Only those of tags are noted.
    fn rows_passed(&self, mode: InsertionMode) -> usize
        requires { IsTold self.now }
        ensures { (s : State) → first_fit (drop result (rows mode)) (token_of self.now.content) s ≡ first_fit
            (rows mode) (token_of self.now.content) s }
    {
        match self.content {
            Content::Tag(tag) => rows_before(mode, tag.kind, self.class.known),
            _ => 0,
        }
    }
}

impl<Sink: TreeSink> Construction<Sink> {
    /// Whether a condition holds for a token.
    pub(crate) fn holds(&self, sink: &Sink, condition: &Condition, told: &NamedToken<'_>) -> bool
        requires { IsTold told.now }
        ensures { (a : Answers) (f : Forest) → result ≡ holds (condition_of condition.now)
            (token_of told.now.content) (state_of a self.now f) }
    {
        match condition {
            Condition::Always => true,
            Condition::Not(other) => !self.holds(sink, other, told),
            Condition::Both(one, other) => {
                self.holds(sink, one, told) && self.holds(sink, other, told)
            }
            Condition::ScriptingEnabled => self.opts.scripting_enabled,
            Condition::IframeSrcdoc => self.opts.iframe_srcdoc,
            Condition::ByStandard => self.stack.rules() == Rules::Standard,
            Condition::InFragment => self.is_fragment(),
            Condition::ContextIs(set) => self.context_is(*set),
            Condition::InQuirksMode => self.is_quirks(),
            Condition::FramesetOk => self.frameset_ok,
            Condition::CurrentIs(set) => self.current_is(*set),
            Condition::CurrentIsToken => self.current_is_named(told.class, told.name),
            Condition::RootAlone => self.is_root_alone(),
            Condition::SecondIsBody => self.is_second_body(),
            Condition::TemplateOpen => self.has_open_template(),
            Condition::HasTemplateModes => self.has_template_modes(),
            Condition::InScope(scope, set) => self.stack.in_scope(*scope, *set),
            Condition::TokenInScope(scope) => {
                self.stack.in_scope_named(*scope, told.class, told.name)
            }
            Condition::HasFormElem => self.has_form_elem(),
            Condition::FormElemInScope => self.is_form_in_scope(sink),
            Condition::FormElemIsCurrent => self.is_form_current(sink),
            Condition::AListed => self.lists_a(),
            Condition::TypeHidden => told.is_type_hidden(),
            Condition::FontAttributes => told.has_font_attributes(),
            Condition::EndsInHtml => self.ends_in_html(told.name),
            Condition::ForeignEndError => self.is_foreign_end_error(told.name),
        }
    }

    /// The same. Most rows ask for nothing, and that is seen at once.
    fn is_met(&self, sink: &Sink, condition: &Condition, told: &NamedToken<'_>) -> bool
        requires { IsTold told.now }
        ensures { (a : Answers) (f : Forest) → result ≡ holds (condition_of condition.now)
            (token_of told.now.content) (state_of a self.now f) }
    {
        match condition {
            Condition::Always => true,
            _ => self.holds(sink, condition, told),
        }
    }

    /// Whether a row is for a token.
    fn fits(&self, sink: &Sink, row: &Row, told: &NamedToken<'_>) -> bool
        requires { IsTold told.now }
        ensures { (a : Answers) (f : Forest) → result ≡ fits (row_of row.now) (token_of told.now.content) (state_of a self.now f) }
    {
        told.fits(row.on) && self.is_met(sink, &row.when, told)
    }

    /// The first row that is for a token, if there is one.
    fn find(&self, sink: &Sink, rows: &'static [Row], told: &NamedToken<'_>) -> Option<&'static Row>
        requires { IsTold told.now }
        ensures { (a : Answers) (f : Forest) (rest : List RuleRow) → first_fit (rows_of rows.now ++ rest)
            (token_of told.now.content) (state_of a self.now f) ≡ row_or result
            (first_fit rest (token_of told.now.content) (state_of a self.now f)) }
    {
        for row in rows {
            if self.fits(sink, row, told) {
                return Some(row);
            }
        }
        None
    }

    /// The first row that is for a token, or what a token takes that no row is for.
    fn first_in(&self, sink: &Sink, rows: &'static [Row], told: &NamedToken<'_>) -> &'static Row
        requires { IsTold told.now }
        ensures { (a : Answers) (f : Forest) → row_of result.now ≡ first_fit (rows_of rows.now)
            (token_of told.now.content) (state_of a self.now f) }
    {
        match self.find(sink, rows, told) {
            Some(row) => row,
            None => NO_ROW,
        }
    }

    /// The first row of a mode that is for a token, after so many others, or what a token takes that no row is for.
    fn first_after(
        &self,
        sink: &Sink,
        mode: InsertionMode,
        passed: usize,
        told: &NamedToken<'_>,
    ) -> &'static Row
        requires { IsTold told.now }
        ensures { (a : Answers) (f : Forest) → row_of result.now ≡ first_fit (drop passed (rows mode))
            (token_of told.now.content) (state_of a self.now f) }
    {
        let mut place = passed;
        while let Some(row) = row_at(mode, place) {
            if self.fits(sink, row, told) {
                return row;
            }
            place += 1;
        }
        NO_ROW
    }

    /// The row of a mode that a token takes. It is mostly the first that is not passed over.
    pub(crate) fn first_row(
        &self,
        sink: &Sink,
        mode: InsertionMode,
        told: &NamedToken<'_>,
    ) -> &'static Row
        requires { IsTold told.now }
        ensures { (a : Answers) (f : Forest) → row_of result.now ≡ first_fit (rows mode) (token_of told.now.content)
            (state_of a self.now f) }
    {
        let passed = told.rows_passed(mode);
        match row_at(mode, passed) {
            Some(row) if self.fits(sink, row, told) => row,
            _ => self.first_after(sink, mode, passed, told),
        }
    }

    /// The row of foreign content that a token takes.
    pub(crate) fn first_foreign_row(&self, sink: &Sink, told: &NamedToken<'_>) -> &'static Row
        requires { IsTold told.now }
        ensures { (a : Answers) (f : Forest) → row_of result.now ≡ first_fit in_foreign_content
            (token_of told.now.content) (state_of a self.now f) }
    {
        self.first_in(sink, rows_of_foreign_content(), told)
    }
}
