//! What the rules make of a token where a node stands, by the row that they meet.
ghost use Rattle.std.specs.Prelude.{◌≡◌, List, Option, IfErr, IfOk};
ghost use Rattle.html_rules.specs.Choice.{choose};
ghost use Rattle.html_rules.specs.ForeignContent.{is_foreign};
ghost use Rattle.html_rules.specs.Modes.Foreign.{in_foreign_content};
ghost use Rattle.html_rules.specs.Rules.{rows};
ghost use Rattle.html_faithful.specs.Spots.{hollow};
ghost use Rattle.markup.specs.declared.fault.ParseFault.TheVariants.{Memory};
ghost use Rattle.html_rules.specs.Table.{Reprocess, Row};
ghost use Rattle.html_modes.specs.Tables.{conclusion_of};
ghost use Rattle.html_faithful.specs.Harmless.{Made as HarmlessMade, by_rows, concludes, made_of, may_go_on, nothing_yet, provided};
ghost use Rattle.html_faithful_judge.specs.Mades.{again_if, made_as, next_by};
ghost use Rattle.html_faithful_judge.specs.Rows.{rows_in};
ghost use Rattle.html_faithful_judge.specs.Spots.{spot_of};
ghost use Rattle.html_faithful_judge.specs.Tokens.{IsNamed, token_of};

use crate::made::{Change, FormChange, Made};
use crate::rows::Table;
use crate::spot::Spot;
use crate::tokens::NamedToken;
use html_modes::Conclusion;
use html_rules::{InsertionMode, TagSet};
use html_tokens::states::RawKind;
use markup::ParseFault;
use std::alloc::Global;

/// How it goes on after a row.
#[derive(Clone, Copy)]
pub(crate) enum Next {
    /// The token is done with; raw text of this kind follows, or none.
    Done(Option<RawKind>),
    /// The token is taken by the rows of a table.
    Again(Table),
    /// The token may do more than to put a node or to close the current one.
    Stop,
}

/// Where a mode's rules take a token, if nothing was done yet.
fn again_if(may: bool, mode: InsertionMode) -> Next
    ensures { result ≡ again_if may mode }
{
    if may {
        Next::Again(Table::Mode(mode))
    } else {
        Next::Stop
    }
}

impl Made {
    /// Nothing came of a token yet.
    pub fn nothing_yet(spot: Spot) -> Made
        ensures { made_as result ≡ nothing_yet (spot_of spot) }
    {
        Made {
            spot,
            put: None,
            closed: false,
            change: Change::Unchanged,
            form: FormChange::FormKept,
            raw: None,
            drops_line_feed: false,
        }
    }

    /// Nothing came yet of the token that is next.
    pub fn restart(&mut self)
        ensures { made_as self.new ≡ nothing_yet (made_as self.old).spot }
    {
        if self.put.is_some() {
            self.put = None;
        }
        self.closed = false;
        self.change = Change::Unchanged;
        self.form = FormChange::FormKept;
        self.raw = None;
        self.drops_line_feed = false;
    }

    /// Whether a token may be taken again by the rules of the mode.
    fn may_go_on(&self, token: &NamedToken<'_>) -> bool
        requires { IsNamed token.now }
        ensures { result ≡ may_go_on (token_of token.now.content) (made_as self.now) }
    {
        self.is_untouched()
            && (!self.spot.is_foreign(token)
                && !self.spot.as_stack().has_open(TagSet::AnnotationXml))
    }

    /// The token is taken again in another mode, if it may.
    fn reprocess(&mut self, mode: InsertionMode, token: &NamedToken<'_>) -> Next
        requires { IsNamed token.now }
        ensures { (again : List Row → HarmlessMade → Option HarmlessMade)
            → concludes again (token_of token.now.content) (Reprocess mode) (made_as self.old) ≡ next_by again result (made_as self.new) }
    {
        self.spot.mode = mode;
        again_if(self.may_go_on(token), mode)
    }

    /// How it goes on after a row's actions.
    fn conclude(&mut self, ends: &Conclusion, token: &NamedToken<'_>) -> Next
        requires { IsNamed token.now }
        ensures { (again : List Row → HarmlessMade → Option HarmlessMade)
            → concludes again (token_of token.now.content) (conclusion_of ends.now) (made_as self.old)
            ≡ next_by again result (made_as self.new) }
    {
        match ends {
            Conclusion::Done => Next::Done(None),
            Conclusion::Acknowledged => Next::Done(None),
            Conclusion::ReportEncoding => Next::Done(None),
            Conclusion::RunScript => Next::Done(None),
            Conclusion::RawText(kind) => Next::Done(Some(*kind)),
            Conclusion::Using(mode) => again_if(self.is_untouched(), *mode),
            Conclusion::Reprocess(mode) => self.reprocess(*mode, token),
            Conclusion::ReprocessInOriginal => Next::Stop,
            Conclusion::ReprocessInMode => Next::Stop,
            Conclusion::UsingThen(..) => Next::Stop,
            Conclusion::UsingCurrentMode => Next::Stop,
            Conclusion::PlainText => Next::Stop,
        }
    }

    /// What the rows of a table make of a token, where at most so many tables are gone through; answers whether they do no harm.
    fn by_rows(
        &mut self,
        alloc: Global,
        count: usize,
        table: Table,
        token: &NamedToken<'_>,
    ) -> Result<bool, ParseFault>
        requires { IsNamed token.now }
        ensures ok { IfOk result (λ goes_on. by_rows count (rows_in table) (token_of token.now.content) (made_as self.old)
            ≡ provided goes_on (made_as self.new)) }
        ensures fault { IfErr result (λ fault. fault ≡ Memory) }
    {
        if count == 0 {
            return Ok(false);
        }
        let row = self.spot.first_row(table, token);
        if !self.does(alloc, &row.does, token)? {
            return Ok(false);
        }
        match self.conclude(&row.ends, token) {
            Next::Done(raw) => {
                self.raw = raw;
                Ok(true)
            }
            Next::Again(table) => self.by_rows(alloc, count - 1, table, token),
            Next::Stop => Ok(false),
        }
    }
}

impl Spot {
    /// Whose rows take a token.
    fn table(&self, token: &NamedToken<'_>) -> Table
        requires { IsNamed token.now }
        ensures { rows_in result ≡ choose (is_foreign (hollow (spot_of self.now)) (token_of token.now.content))
            (λ _. in_foreign_content) (λ _. rows self.now.mode) }
    {
        if self.is_foreign(token) {
            Table::Foreign
        } else {
            Table::Mode(self.mode)
        }
    }
}

impl Made {
    /// The next token is taken where the last one led; answers whether the rules do no harm, as this has it then.
    pub fn take(&mut self, alloc: Global, token: &NamedToken<'_>) -> Result<bool, ParseFault>
        requires { IsNamed token.now }
        ensures ok { IfOk result (λ goes_on. made_of (token_of token.now.content) (made_as self.old).spot
            ≡ provided goes_on (made_as self.new)) }
        ensures fault { IfErr result (λ fault. fault ≡ Memory) }
    {
        self.restart();
        let table = self.spot.table(token);
        self.by_rows(alloc, 4, table, token)
    }
}
