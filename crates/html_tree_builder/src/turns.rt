//! One turn of a token: the rules of foreign content take it, or those of the mode (HTML Standard, section 13.2.6).
ghost use Rattle.std.specs.Prelude.{◌≡◌, IfErr, IfOk, OnOk};
ghost use Rattle.markup.specs.declared.fault.ParseFault.TheVariants.{Memory};
ghost use Rattle.html_rules.specs.Rules.{turn, turn_by_row, turn_of, using_rules_for};
ghost use Rattle.html_modes.specs.Tables.{row_of};
ghost use Rattle.html_tree_builder.specs.Rows.{ending_of, next_turn};
ghost use Rattle.html_tree_builder.specs.States.{Stands, built};
ghost use Rattle.html_tree_builder.specs.Told.{IsTold, token_of};
ghost use Rattle.html_tree_builder.specs.Turning.{MayGoOn, MayTakeRow, MayTurn, MayUse};

use crate::conclusions::{Ending, Next};
use crate::construction::Construction;
use crate::told::NamedToken;
use html_modes::Row;
use html_rules::InsertionMode;
use markup::{ParseFault, TreeSink};

/// No mode uses the rules of a mode that uses the rules of a mode that uses the rules of a mode that uses others.
pub(crate) const MOST_MODES: u8 = 4;

impl<Sink: TreeSink> Construction<Sink> {
    /// What the rules of a mode make of a token, where at most so many modes use one another's rules.
    #[cycle(chain)]
    fn use_rules_for(
        &mut self,
        sink: &mut Sink,
        mode: InsertionMode,
        told: &NamedToken<'_>,
        left: u8,
    ) -> Result<Ending<Sink::Handle>, ParseFault>
        requires told { IsTold told.now }
        requires stands { Stands (Sink.forest sink.old) self.old }
        requires may { MayUse left mode (token_of told.now.content) (built Sink.TreeSink self.old (Sink.forest sink.old)) }
        ensures ok { IfOk result (λ ending. turn_of (built Sink.TreeSink self.new (Sink.forest sink.new))
            (ending_of Sink.node ending) ≡ using_rules_for left mode (token_of told.now.content)
            (built Sink.TreeSink self.old (Sink.forest sink.old))) }
        ensures stands { OnOk result (Stands (Sink.forest sink.new) self.new) }
        ensures fault { IfErr result (λ fault. fault ≡ Memory) }
    {
        if left == 0 {
            return Ok(Ending::Finished(false));
        }
        let row = self.first_row(sink, mode, told);
        self.apply_row(sink, row, told, left - 1)
    }

    /// What a row makes of a token, where the rules of that many other modes may be used.
    #[cycle(chain)]
    pub(crate) fn apply_row(
        &mut self,
        sink: &mut Sink,
        row: &'static Row,
        told: &NamedToken<'_>,
        left: u8,
    ) -> Result<Ending<Sink::Handle>, ParseFault>
        requires told { IsTold told.now }
        requires stands { Stands (Sink.forest sink.old) self.old }
        requires may { MayTakeRow (MayUse left) (using_rules_for left) (row_of row.now) (token_of told.now.content)
            (built Sink.TreeSink self.old (Sink.forest sink.old)) }
        ensures ok { IfOk result (λ ending. turn_of (built Sink.TreeSink self.new (Sink.forest sink.new))
            (ending_of Sink.node ending) ≡ turn_by_row (using_rules_for left) (row_of row.now)
            (token_of told.now.content) (built Sink.TreeSink self.old (Sink.forest sink.old))) }
        ensures stands { OnOk result (Stands (Sink.forest sink.new) self.new) }
        ensures fault { IfErr result (λ fault. fault ≡ Memory) }
    {
        let script = self.current_handle(sink);
        self.perform(sink, &row.does, told)?;
        let next = self.conclude(&row.ends, script, told)?;
        self.go_on(sink, next, told, left)
    }

    /// What comes next is done.
    #[cycle(chain)]
    fn go_on(
        &mut self,
        sink: &mut Sink,
        next: Next<Sink::Handle>,
        told: &NamedToken<'_>,
        left: u8,
    ) -> Result<Ending<Sink::Handle>, ParseFault>
        requires told { IsTold told.now }
        requires stands { Stands (Sink.forest sink.old) self.old }
        requires may { MayGoOn (MayUse left) (using_rules_for left) next (token_of told.now.content)
            (built Sink.TreeSink self.old (Sink.forest sink.old)) }
        ensures ok { IfOk result (λ ending. turn_of (built Sink.TreeSink self.new (Sink.forest sink.new))
            (ending_of Sink.node ending) ≡ next_turn Sink.node (using_rules_for left) next
            (token_of told.now.content) (built Sink.TreeSink self.old (Sink.forest sink.old))) }
        ensures stands { OnOk result (Stands (Sink.forest sink.new) self.new) }
        ensures fault { IfErr result (λ fault. fault ≡ Memory) }
    {
        match next {
            Next::Ends(ending) => Ok(ending),
            Next::Using(mode) => self.use_rules_for(sink, mode, told, left),
            Next::UsingThen(mode, after) => {
                let ending = self.use_rules_for(sink, mode, told, left)?;
                self.perform(sink, after, told)?;
                Ok(ending)
            }
        }
    }

    /// One turn of a token.
    pub(crate) fn turn(
        &mut self,
        sink: &mut Sink,
        told: &NamedToken<'_>,
    ) -> Result<Ending<Sink::Handle>, ParseFault>
        requires told { IsTold told.now }
        requires stands { Stands (Sink.forest sink.old) self.old }
        requires may { MayTurn (token_of told.now.content) (built Sink.TreeSink self.old (Sink.forest sink.old)) }
        ensures ok { IfOk result (λ ending. turn_of (built Sink.TreeSink self.new (Sink.forest sink.new))
            (ending_of Sink.node ending) ≡ turn (token_of told.now.content) (built Sink.TreeSink self.old (Sink.forest sink.old))) }
        ensures stands { OnOk result (Stands (Sink.forest sink.new) self.new) }
        ensures fault { IfErr result (λ fault. fault ≡ Memory) }
    {
        if self.is_foreign(sink, told) {
            let row = self.first_foreign_row(sink, told);
            return self.apply_row(sink, row, told, MOST_MODES);
        }
        let mode = self.mode;
        self.use_rules_for(sink, mode, told, MOST_MODES)
    }
}
