//! What the rules make of a token where a node stands, where they do nothing but put one node there, or close the current node.
ghost use Rattle.std.specs.Prelude.{◌≡◌, Bool, IfErr, IfOk, OnOk};
ghost use Rattle.markup.specs.declared.fault.ParseFault.TheVariants.{Memory};
ghost use Rattle.html_rules.specs.State.{Open, current_is};
ghost use Rattle.html_rules.specs.Names.{namespace_of};
ghost use Rattle.html_faithful.specs.Harmless.{changes, closes_if, ends_current, is_fresh, is_untouched, opens, provided, puts};
ghost use Rattle.html_faithful_judge.specs.Mades.{change_of, made_as, popped, pushed, put_as};
ghost use Rattle.html_faithful_judge.specs.Tokens.{token_of};

use crate::spot::Spot;
use crate::tokens::{Content, NamedToken};
use html_names::ElementClass;
use html_tokens::TagKind;
use html_tokens::states::RawKind;
use markup::{Attributes, LocalName, Namespace, ParseFault};
use std::alloc::Global;

/// What was put into the tree.
#[derive(Drop)]
pub enum Put {
    /// An element, which was opened or was not.
    Element {
        /// Its namespace.
        namespace: Namespace,
        /// Its local name.
        name: LocalName,
        /// Its attributes.
        attributes: Attributes,
        /// Whether it was opened.
        opened: bool,
    },
    /// A text, last in the current node.
    TextHere,
    /// A comment, last in the current node.
    CommentHere,
    /// A comment, last in the root.
    InRoot,
    /// A comment, last in the document.
    InDocument,
}

/// What became of the list of active formatting elements.
#[derive(Clone, Copy, PartialEq, Eq)]
pub enum Change {
    /// Nothing.
    Unchanged,
    /// An element was listed.
    EntryPushed,
    /// A marker was listed.
    MarkerPushed,
    /// An element left the list.
    EntryLeft,
    /// A marker left it, with what was listed after it.
    MarkerLeft,
}

/// What became of the form element pointer.
#[derive(Clone, Copy, PartialEq, Eq)]
pub enum FormChange {
    /// Nothing.
    FormKept,
    /// It was set.
    FormSet,
    /// It was cleared.
    FormForgotten,
}

/// What came of a token so far.
#[derive(Drop)]
pub struct Made {
    /// Where the next node stands.
    pub spot: Spot,
    /// What was put into the tree.
    pub put: Option<Put>,
    /// Whether the current node was closed.
    pub closed: bool,
    /// What became of the list of active formatting elements.
    pub change: Change,
    /// What became of the form element pointer.
    pub form: FormChange,
    /// The kind of raw text that follows.
    pub raw: Option<RawKind>,
    /// Whether a line feed that comes next is dropped.
    pub drops_line_feed: bool,
}

impl Made {
    /// Whether nothing was put or closed yet.
    pub(crate) fn is_fresh(&self) -> bool
        ensures { result ≡ is_fresh (made_as self.now) }
    {
        self.put.is_none() && !self.closed
    }

    /// Nor did the list change.
    pub(crate) fn is_untouched(&self) -> bool
        ensures { result ≡ is_untouched (made_as self.now) }
    {
        self.is_fresh() && self.change == Change::Unchanged
    }

    /// The list changes, if it did not yet.
    pub(crate) fn changes(&mut self, change: Change) -> bool
        ensures { changes (change_of change) (made_as self.old) ≡ provided result (made_as self.new) }
    {
        if self.change != Change::Unchanged {
            return false;
        }
        self.change = change;
        true
    }

    /// A node is put, if nothing was put or closed yet.
    pub(crate) fn puts(&mut self, put: Put) -> bool
        ensures { puts (put_as put) (made_as self.old) ≡ provided result (made_as self.new) }
    {
        if !self.is_fresh() {
            return false;
        }
        self.put = Some(put);
        true
    }

    /// An element is opened in the stack alone.
    fn push(
        &mut self,
        alloc: Global,
        namespace: &Namespace,
        name: &LocalName,
    ) -> Result<(), ParseFault>
        ensures ok { OnOk result (made_as self.new ≡ pushed (namespace_of namespace.now) name.now (made_as self.old)) }
        ensures fault { IfErr result (λ fault. fault ≡ Memory) }
    {
        let class = ElementClass::named(namespace, name);
        self.spot.open(alloc, class, namespace, name)
    }

    /// An element is put, and opened, if nothing was put or closed yet.
    pub(crate) fn opens(
        &mut self,
        alloc: Global,
        namespace: Namespace,
        name: LocalName,
        attributes: Attributes,
    ) -> Result<bool, ParseFault>
        ensures ok { IfOk result (λ goes_on. opens (namespace_of namespace) name attributes (made_as self.old)
            ≡ provided goes_on (made_as self.new)) }
        ensures fault { IfErr result (λ fault. fault ≡ Memory) }
    {
        if !self.is_fresh() {
            return Ok(false);
        }
        self.push(alloc, &namespace, &name)?;
        self.put = Some(Put::Element {
            namespace,
            name,
            attributes,
            opened: true,
        });
        Ok(true)
    }

    /// Whether a token is the end tag of the current node.
    pub(crate) fn ends_current(&self, token: &NamedToken<'_>) -> bool
        ensures { result ≡ ends_current (token_of token.now.content) (made_as self.now).spot.path }
    {
        match (token.content, self.spot.as_stack().open_elems().last()) {
            (Content::Tag(tag), Some(element)) => {
                tag.kind == TagKind::EndTag && element.name.is_named_any_case(&tag.name)
            }
            _ => false,
        }
    }

    /// The current node leaves the stack.
    fn pop(&mut self)
        ensures { made_as self.new ≡ popped (made_as self.old) }
    {
        self.spot.close_current();
    }

    /// The current node, which passes a test or does not, is closed by its own end tag, if nothing was put or closed yet.
    pub(crate) fn closes(&mut self, passes: bool, token: &NamedToken<'_>) -> bool
        ensures { (p : Open → Bool) → passes ≡ current_is p (made_as self.old).spot.path
            → closes_if p (token_of token.now.content) (made_as self.old) ≡ provided result (made_as self.new) }
    {
        if !(passes && self.ends_current(token)) {
            return false;
        }
        if !self.is_fresh() {
            return false;
        }
        self.pop();
        self.closed = true;
        true
    }
}
