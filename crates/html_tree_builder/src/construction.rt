//! The state of tree construction (HTML Standard, section 13.2.4).
ghost use Rattle.std.specs.Prelude.{◌≡◌, ℕ};
ghost use Rattle.html_stack.specs.Inserting.{context_of as lent_of};
ghost use Rattle.html_tree_builder.specs.States.{context_of};

use crate::options::TreeBuilderOpts;
use html_rules::InsertionMode;
use html_stack::{OpenElement, Stack};
use markup::{QuirksMode, Text, TreeSink};
use std::alloc::Global;
use std::marker::Model;

/// What the rules go by beside the tree. A contract sees it as the definitions have it.
#[derive(Drop)]
pub(crate) struct Construction<Sink: TreeSink> {
    /// The open elements, the active formatting elements and the template insertion modes.
    pub(crate) stack: Stack<Sink>,
    /// The insertion mode.
    pub(crate) mode: InsertionMode,
    /// The original insertion mode.
    pub(crate) orig_mode: Option<InsertionMode>,
    /// The head element pointer.
    pub(crate) head_elem: Option<Sink::Handle>,
    /// The form element pointer.
    pub(crate) form_elem: Option<Sink::Handle>,
    /// The frameset-ok flag.
    pub(crate) frameset_ok: bool,
    /// Whether a line feed that comes next is dropped.
    pub(crate) ignore_lf: bool,
    /// Whether foster parenting is enabled.
    pub(crate) foster_parenting: bool,
    /// The pending table character tokens.
    pub(crate) pending_table_text: Text,
    /// The quirks mode.
    pub(crate) quirks_mode: QuirksMode,
    /// The context of a fragment.
    pub(crate) context_elem: Option<OpenElement<Sink::Handle>>,
    /// Whether the end was told.
    pub(crate) has_ended: bool,
    /// How the builder is set up.
    pub(crate) opts: TreeBuilderOpts,
    /// What gives memory.
    pub(crate) alloc: Global,
}

impl<Sink: TreeSink> Model for Construction<Sink> {
    ghost use Rattle.html_tree_builder.specs.States.{Building, context_of, number_if, options_of};

    ghost Value = { Building };

    ghost view = { λ c. record {
      stack = c.stack;
      mode = c.mode;
      orig_mode = c.orig_mode;
      head_elem = number_if Sink.node c.head_elem;
      form_elem = number_if Sink.node c.form_elem;
      frameset_ok = c.frameset_ok;
      ignore_lf = c.ignore_lf;
      foster_parenting = c.foster_parenting;
      pending_table_text = c.pending_table_text;
      quirks_mode = c.quirks_mode;
      context_elem = context_of Sink.node c.context_elem;
      has_ended = c.has_ended;
      opts = options_of c.opts;
    } };
}

/// A context, lent.
pub(crate) fn lent<Handle>(context: &Option<OpenElement<Handle>>) -> Option<&OpenElement<Handle>>
    ensures { (node : Handle → ℕ) → lent_of node result ≡ context_of node context.now }
{
    match context {
        Some(context) => Some(context),
        None => None,
    }
}
