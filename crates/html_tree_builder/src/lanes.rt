//! The row that a tag takes, where it is found at once (HTML Standard, section 13.2.6).
//!
//! Most tags stand in HTML content, and the first row of the mode that is for a tag of that name has no condition, or asks for an element
//! in scope that is the current node. Such a row is a lane: it is found by one look-up of its place (`rows_before`), without the walk over
//! the rows that come after it, without a token made for the tag, and without a question to the sink. Everything else goes the way of all
//! tokens, from the same state (`row_of_turn`): this file finds no other row than that, so that without it the builder does the same, more
//! slowly. What a row in a lane does is read from the table of rows as ever, so a row that comes or changes is taken as it is.
ghost use Rattle.std.specs.Prelude.{◌≡◌, ◌<◌, IfSome, true, false, length};
ghost use Rattle.markup.specs.Forest.{Forest};
ghost use Rattle.html_modes.specs.Tables.{class_of, condition_of, row_of};
ghost use Rattle.html_names.specs.Classes.{IsClassOf};
ghost use Rattle.html_tokens.specs.declared.token.Token.{Token};
ghost use Rattle.html_tokens.specs.declared.token.Token.TheVariants.{TagToken};
ghost use Rattle.html_rules.specs.Conditions.{holds};
ghost use Rattle.html_rules.specs.ForeignContent.{is_foreign};
ghost use Rattle.html_rules.specs.Names.{Html};
ghost use Rattle.html_rules.specs.Rules.{first_fit, fits, rows};
ghost use Rattle.html_rules.specs.State.{Answers};
ghost use Rattle.html_rules.specs.Tokens.{class_fits};
ghost use Rattle.html_tree_builder.specs.States.{state_of};
ghost use Rattle.html_tree_builder.specs.Turning.{IsRowOfTurn};

use crate::construction::Construction;
use crate::turns::MOST_MODES;
use html_modes::{Action, Class, Conclusion, Condition, Row, row_at, rows_before};
use html_names::ElementClass;
use html_rules::InsertionMode;
use html_tokens::{Tag, TagKind};
use markup::TreeSink;

/// Whether a class of tokens has a tag of a class of names.
#[inline(always)]
fn has_tag(on: Class, tag: &Tag, class: &ElementClass) -> bool
    requires { IsClassOf Html tag.now.name class.now }
    ensures { result ≡ class_fits (class_of on) (TagToken tag.now) }
{
    match on {
        Class::StartTags(set) => tag.kind == TagKind::StartTag && class.is_in(set),
        Class::EndTags(set) => tag.kind == TagKind::EndTag && class.is_in(set),
        Class::AnyStartTag => tag.kind == TagKind::StartTag,
        Class::AnyEndTag => tag.kind == TagKind::EndTag,
        Class::AnythingElse => true,
        _ => false,
    }
}

impl<Sink: TreeSink> Construction<Sink> {
    /// Whether no token is taken by the rules of foreign content, since the adjusted current node is one of HTML.
    #[inline(always)]
    fn is_in_html(&self) -> bool
        ensures { result ≡ true → (a : Answers) (f : Forest) (t : Token) → is_foreign (state_of a self.now f) t ≡ false }
    {
        match self.adjusted_current_node() {
            Some(element) => element.name.is_html(),
            None => false,
        }
    }

    /// Whether a condition holds for a tag, where the current node says so: no walk over the open elements is done here, since it would
    /// be done again where there is no lane.
    #[inline(always)]
    fn holds_at_once(&self, condition: &Condition, tag: &Tag, class: &ElementClass) -> bool
        requires { IsClassOf Html tag.now.name class.now }
        ensures { result ≡ true → (a : Answers) (f : Forest) → holds (condition_of condition.now) (TagToken tag.now)
            (state_of a self.now f) ≡ true }
    {
        match condition {
            Condition::Always => true,
            Condition::InScope(_, set) => self.current_is(*set),
            Condition::TokenInScope(_) => self.current_is_named(*class, &tag.name),
            _ => false,
        }
    }

    /// The row of a mode that a tag takes, if it is the first that is for such a tag.
    #[inline(always)]
    fn first_at_hand(
        &self,
        mode: InsertionMode,
        tag: &Tag,
        class: &ElementClass,
    ) -> Option<&'static Row>
        requires { IsClassOf Html tag.now.name class.now }
        ensures { IfSome result (λ row. (a : Answers) (f : Forest) → row_of row.now ≡ first_fit (rows mode)
            (TagToken tag.now) (state_of a self.now f)) }
    {
        let row = row_at(mode, rows_before(mode, tag.kind, class.known))?;
        if has_tag(row.on, tag, class) && self.holds_at_once(&row.when, tag, class) {
            Some(row)
        } else {
            None
        }
    }

    /// The row that a tag takes at first, and how many modes may use one another's rules after it, where it is found at once. A row that
    /// only uses the rules of another mode is passed over.
    #[inline(always)]
    pub(crate) fn row_at_hand(&self, tag: &Tag, class: &ElementClass) -> Option<(&'static Row, u8)>
        requires { IsClassOf Html tag.now.name class.now }
        ensures { IfSome result (λ found. (a : Answers) (f : Forest) → IsRowOfTurn found.1 (row_of found.0.now)
            (TagToken tag.now) (state_of a self.now f)) }
    {
        if !self.is_in_html() {
            return None;
        }
        let row = self.first_at_hand(self.mode, tag, class)?;
        match row.ends {
            Conclusion::Using(mode) if matches!(row.does, Action::Nothing) => {
                Some((self.first_at_hand(mode, tag, class)?, MOST_MODES - 2))
            }
            _ => Some((row, MOST_MODES - 1)),
        }
    }
}
