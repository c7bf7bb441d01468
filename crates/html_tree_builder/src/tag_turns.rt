//! A tag is taken in turns where it stands (HTML Standard, section 13.2.6).
ghost use Rattle.std.specs.Prelude.{◌≡◌, ◌≤◌, ◌+◌, true, IfErr, IfOk, OnOk};
ghost use Rattle.markup.specs.declared.fault.ParseFault.TheVariants.{Memory};
ghost use Rattle.html_modes.specs.Tables.{row_of};
ghost use Rattle.html_names.specs.Classes.{IsClassOf};
ghost use Rattle.html_tokens.specs.Sink.{numbered};
ghost use Rattle.html_tokens.specs.declared.token.Token.TheVariants.{TagToken};
ghost use Rattle.html_rules.specs.Names.{Html};
ghost use Rattle.html_rules.specs.Rules.{Again, settle, turn, turn_by_row, turn_of, using_rules_for};
ghost use Rattle.html_rules_laws.specs.Upright.{MayCome};
ghost use Rattle.html_tree_builder.specs.Rows.{ending_of};
ghost use Rattle.html_tree_builder.specs.States.{Stands, built};
ghost use Rattle.html_tree_builder.specs.Told.{IsTold, token_of};
ghost use Rattle.html_tree_builder.specs.Turning.{MayTakeRow, MayTurn, MayUse};

use crate::conclusions::Ending;
use crate::construction::Construction;
use crate::settling::is_self_closing;
use crate::told::NamedToken;
use crate::turns::MOST_MODES;
use html_modes::{Action, Conclusion, Row};
use html_names::ElementClass;
use html_tokens::{Tag, TokenSinkResult};
use markup::count::Count;
use markup::{ParseFault, TreeSink};

impl<Sink: TreeSink> Construction<Sink> {
    /// The row that a token takes at first, and how many modes may use one another's rules after it. A row that only uses the rules of
    /// another mode is passed over.
    fn row_of_turn(&self, sink: &Sink, told: &NamedToken<'_>) -> (&'static Row, u8)
        requires told { IsTold told.now }
        requires stands { Stands (Sink.forest sink.now) self.now }
        ensures turned { turn_by_row (using_rules_for result.1) (row_of result.0.now) (token_of told.now.content)
            (built Sink.TreeSink self.now (Sink.forest sink.now)) ≡ turn (token_of told.now.content)
            (built Sink.TreeSink self.now (Sink.forest sink.now)) }
        ensures may { MayTurn (token_of told.now.content) (built Sink.TreeSink self.now (Sink.forest sink.now))
            → MayTakeRow (MayUse result.1) (using_rules_for result.1) (row_of result.0.now)
            (token_of told.now.content) (built Sink.TreeSink self.now (Sink.forest sink.now)) }
    {
        if self.is_foreign(sink, told) {
            return (self.first_foreign_row(sink, told), MOST_MODES);
        }
        let row = self.first_row(sink, self.mode, told);
        match row.ends {
            Conclusion::Using(mode) if matches!(row.does, Action::Nothing) => {
                (self.first_row(sink, mode, told), MOST_MODES - 2)
            }
            _ => (row, MOST_MODES - 1),
        }
    }

    /// The same of a tag, as of any token.
    #[inline(never)]
    fn row_of_any_tag(&self, sink: &Sink, tag: &Tag, class: &ElementClass) -> (&'static Row, u8)
        requires class { IsClassOf Html tag.now.name class.now }
        requires stands { Stands (Sink.forest sink.now) self.now }
        ensures turned { turn_by_row (using_rules_for result.1) (row_of result.0.now) (TagToken tag.now)
            (built Sink.TreeSink self.now (Sink.forest sink.now)) ≡ turn (TagToken tag.now)
            (built Sink.TreeSink self.now (Sink.forest sink.now)) }
        ensures may { MayTurn (TagToken tag.now) (built Sink.TreeSink self.now (Sink.forest sink.now))
            → MayTakeRow (MayUse result.1) (using_rules_for result.1) (row_of result.0.now)
            (TagToken tag.now) (built Sink.TreeSink self.now (Sink.forest sink.now)) }
    {
        self.row_of_turn(sink, &NamedToken::of_class(tag, *class))
    }

    /// The same of a tag. Mostly its row is found at once.
    #[inline(always)]
    fn row_of_tag(&self, sink: &Sink, tag: &Tag, class: &ElementClass) -> (&'static Row, u8)
        requires class { IsClassOf Html tag.now.name class.now }
        requires stands { Stands (Sink.forest sink.now) self.now }
        ensures turned { turn_by_row (using_rules_for result.1) (row_of result.0.now) (TagToken tag.now)
            (built Sink.TreeSink self.now (Sink.forest sink.now)) ≡ turn (TagToken tag.now)
            (built Sink.TreeSink self.now (Sink.forest sink.now)) }
        ensures may { MayTurn (TagToken tag.now) (built Sink.TreeSink self.now (Sink.forest sink.now))
            → MayTakeRow (MayUse result.1) (using_rules_for result.1) (row_of result.0.now)
            (TagToken tag.now) (built Sink.TreeSink self.now (Sink.forest sink.now)) }
    {
        match self.row_at_hand(tag, class) {
            Some(found) => found,
            None => self.row_of_any_tag(sink, tag, class),
        }
    }

    /// What a row makes of a tag that is not moved, where the rules of that many other modes may be used.
    #[inline(never)]
    fn apply_row_to_tag(
        &mut self,
        sink: &mut Sink,
        row: &'static Row,
        tag: &Tag,
        class: &ElementClass,
        left: u8,
    ) -> Result<Ending<Sink::Handle>, ParseFault>
        requires class { IsClassOf Html tag.now.name class.now }
        requires stands { Stands (Sink.forest sink.old) self.old }
        requires may { MayTakeRow (MayUse left) (using_rules_for left) (row_of row.now) (TagToken tag.now)
            (built Sink.TreeSink self.old (Sink.forest sink.old)) }
        ensures ok { IfOk result (λ ending. turn_of (built Sink.TreeSink self.new (Sink.forest sink.new))
            (ending_of Sink.node ending) ≡ turn_by_row (using_rules_for left) (row_of row.now)
            (TagToken tag.now) (built Sink.TreeSink self.old (Sink.forest sink.old))) }
        ensures stands { OnOk result (Stands (Sink.forest sink.new) self.new) }
        ensures fault { IfErr result (λ fault. fault ≡ Memory) }
    {
        self.apply_row(sink, row, &NamedToken::of_class(tag, *class), left)
    }

    /// One turn of a tag of that class, which may be moved to its element where the turn is the last.
    #[inline(always)]
    fn turn_of_tag(
        &mut self,
        sink: &mut Sink,
        tag: &mut Tag,
        class: ElementClass,
    ) -> Result<Ending<Sink::Handle>, ParseFault>
        requires class { IsClassOf Html tag.old.name class }
        requires stands { Stands (Sink.forest sink.old) self.old }
        requires may { MayTurn (TagToken tag.old) (built Sink.TreeSink self.old (Sink.forest sink.old)) }
        ensures ok { IfOk result (λ ending. turn_of (built Sink.TreeSink self.new (Sink.forest sink.new))
            (ending_of Sink.node ending) ≡ turn (TagToken tag.old) (built Sink.TreeSink self.old (Sink.forest sink.old))) }
        ensures stands { IfOk result (λ ending. ending_of Sink.node ending ≡ Again → Stands (Sink.forest sink.new) self.new) }
        ensures kept { IfOk result (λ ending. ending_of Sink.node ending ≡ Again → tag.new ≡ tag.old) }
        ensures fault { IfErr result (λ fault. fault ≡ Memory) }
    {
        let (row, left) = self.row_of_tag(sink, tag, &class);
        let acknowledged = match row.ends {
            Conclusion::Done => false,
            Conclusion::Acknowledged => true,
            _ => return self.apply_row_to_tag(sink, row, tag, &class, left),
        };
        self.act_on_tag(sink, &row.does, tag, &class)?;
        Ok(Ending::Finished(acknowledged))
    }

    /// What a tag of that class comes to, turn by turn; it may be moved to its element. Each turn is counted, and they are no more than
    /// sixteen, and four for each open element.
    pub(crate) fn settle_tag(
        &mut self,
        sink: &mut Sink,
        tag: &mut Tag,
        class: ElementClass,
        turns: &mut Count,
    ) -> Result<TokenSinkResult<Sink::Handle>, ParseFault>
        requires class { IsClassOf Html tag.old.name class }
        requires stands { Stands (Sink.forest sink.old) self.old }
        requires may { MayCome (TagToken tag.old) (built Sink.TreeSink self.old (Sink.forest sink.old)) }
        requires settled { (settle (TagToken tag.old) (built Sink.TreeSink self.old (Sink.forest sink.old))).is_settled ≡ true }
        ensures state { OnOk result
            (built Sink.TreeSink self.new (Sink.forest sink.new) ≡
            (settle (TagToken tag.old) (built Sink.TreeSink self.old (Sink.forest sink.old))).state) }
        ensures reply { IfOk result
            (λ reply. numbered Sink.node reply ≡ (settle (TagToken tag.old) (built Sink.TreeSink self.old (Sink.forest sink.old))).reply) }
        ensures counted { OnOk result
            (turns.new.count ≡ turns.old.count + (settle (TagToken tag.old) (built Sink.TreeSink self.old (Sink.forest sink.old))).turns) }
        ensures most { turns.new.count ≤ turns.old.count +
            (settle (TagToken tag.old) (built Sink.TreeSink self.old (Sink.forest sink.old))).turns }
        ensures fault { IfErr result (λ fault. fault ≡ Memory) }
    {
        let closes = is_self_closing(tag);
        loop {
            turns.add_one();
            match self.turn_of_tag(sink, tag, class)? {
                Ending::Again => {}
                Ending::Finished(acknowledged) => {
                    self.check_acknowledged(sink, acknowledged, closes);
                    return Ok(TokenSinkResult::Continue);
                }
                Ending::Replied(reply) => return Ok(reply),
            }
        }
    }
}
