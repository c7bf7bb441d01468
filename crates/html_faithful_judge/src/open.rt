//! The open elements of a spot.
ghost use Rattle.std.specs.Prelude.{◌≡◌, ◌≤◌, ◌∷◌, [], List, IfErr, MatchOption, OnErr, OnOk, length, take};
ghost use Rattle.markup.specs.declared.fault.ParseFault.TheVariants.{Memory};
ghost use Rattle.html_rules.specs.Stack.{without_current};
ghost use Rattle.html_rules.specs.State.{Open};
ghost use Rattle.html_rules.specs.declared.rules.Rules.TheVariants.{Html5ever};
ghost use Rattle.html_stack.specs.Stacks.{open_of};
ghost use Rattle.html_faithful_judge.specs.Contexts.{context_of, kept_of, number_of};

use crate::context::{Context, is_usual};
use html_forest::{Forest, NodeId};
use html_rules::{InsertionMode, Rules};
use html_stack::{OpenElement, Stack};
use markup::ParseFault;
use std::alloc::Global;
use std::marker::Model;

/// What the open elements up to one are asked together.
#[derive(Clone, Copy)]
pub(crate) struct Kept {
    /// How many are open below it.
    pub below: usize,
    /// What they are asked.
    pub context: Context,
}

/// The open elements and the template insertion modes. What the open elements up to one are asked together is kept beside it where that
/// differs from what those below it are, so that a token which asks for that does not walk over all of them. A contract sees the stack.
#[derive(Drop)]
pub struct OpenElements {
    stack: Stack<Forest>,
    contexts: Vec<Kept>,
}

impl Model for OpenElements {
    ghost use Rattle.std.specs.Prelude.{◌≡◌};
    ghost use Rattle.html_stack.specs.Stacks.{Stacked};
    ghost use Rattle.html_faithful_judge.specs.Contexts.{kept_of};

    ghost Value = { Stacked };

    ghost view = { λ s. s.stack };

    ghost invariant = { λ s. s.contexts.items ≡ kept_of s.stack.open_elems };
}

/// What open elements are asked together, by what is kept.
fn context_in(contexts: &[Kept]) -> Context
    ensures { (xs : List Open) → contexts.now ≡ kept_of xs → result ≡ context_of xs }
{
    match contexts.last() {
        Some(kept) => kept.context,
        None => Context::new(),
    }
}

/// Whether all open elements may be open where the body ends, by what is kept.
fn ends_with_body(contexts: &[Kept]) -> bool
    ensures { (xs : List Open) → contexts.now ≡ kept_of xs → result ≡ (context_of xs).ends_with_body }
{
    match contexts.last() {
        Some(kept) => kept.context.ends_with_body,
        None => true,
    }
}

/// How much is kept of the elements below the current node, where so many are open below it.
fn kept_below(contexts: &[Kept], below: usize) -> usize
    ensures kept { (xs : List Open) → contexts.now ≡ kept_of xs → below ≡ length (without_current xs)
        → take result contexts.now ≡ kept_of (without_current xs) }
    ensures within { result ≤ length contexts.now }
{
    match contexts.last() {
        Some(kept) => {
            if kept.below == below {
                contexts.len() - 1
            } else {
                contexts.len()
            }
        }
        None => 0,
    }
}

/// What the open elements are asked together is kept, with one more element open above so many, if that changes it.
#[inline(always)]
fn keep(
    contexts: &mut Vec<Kept>,
    element: &OpenElement<NodeId>,
    below: usize,
) -> Result<(), ParseFault>
    ensures ok { OnOk result ((xs : List Open) → contexts.old.items ≡ kept_of xs → below ≡ length xs
        → contexts.new.items ≡ kept_of (open_of number_of element.now ∷ xs)) }
    ensures front { take (length contexts.old.items) contexts.new.items ≡ contexts.old.items }
    ensures err { OnErr result (contexts.new.items ≡ contexts.old.items) }
    ensures fault { IfErr result (λ fault. fault ≡ Memory) }
{
    if !ends_with_body(contexts.as_slice()) && is_usual(element) {
        return Ok(());
    }
    let context = context_in(contexts.as_slice()).with(element);
    contexts.push(Kept { below, context })?;
    Ok(())
}

impl OpenElements {
    /// No open elements.
    pub fn new(alloc: Global) -> OpenElements
        ensures { result ≡ record { open_elems = []; active_formatting = []; template_modes = []; rules = Html5ever } }
    {
        OpenElements {
            stack: Stack::new(alloc, Rules::Html5ever),
            contexts: Vec::new(alloc),
        }
    }

    /// The stack, lent.
    pub fn as_stack(&self) -> &Stack<Forest>
        ensures { result.now ≡ self.now }
    {
        &self.stack
    }

    /// What the open elements are asked together.
    pub(crate) fn context(&self) -> Context
        ensures { result ≡ context_of self.now.open_elems }
    {
        context_in(self.contexts.as_slice())
    }

    /// How many elements are open below the current node.
    fn below(&self) -> usize
        ensures { result ≡ length (without_current self.now.open_elems) }
    {
        self.stack.open_elems().len().saturating_sub(1)
    }

    /// What the open elements but the current node are asked together.
    pub(crate) fn context_below(&self) -> Context
        ensures { result ≡ context_of (without_current self.now.open_elems) }
    {
        let contexts = self.contexts.as_slice();
        let kept = kept_below(contexts, self.below());
        context_in(&contexts[..kept])
    }

    /// Opens an element.
    #[inline(always)]
    pub(crate) fn push(&mut self, element: OpenElement<NodeId>) -> Result<(), ParseFault>
        ensures ok { OnOk result (self.new ≡ record self.old { open_elems = open_of number_of element ∷ self.old.open_elems }) }
        ensures fault { IfErr result (λ fault. fault ≡ Memory) }
    {
        let kept = self.contexts.len();
        let below = self.stack.open_elems().len();
        keep(&mut self.contexts, &element, below)?;
        match self.stack.push(element) {
            Ok(()) => Ok(()),
            Err(fault) => {
                self.contexts.truncate(kept);
                Err(fault)
            }
        }
    }

    /// Closes the current node, if an element is open.
    pub(crate) fn pop(&mut self)
        ensures { self.new ≡ record self.old { open_elems = without_current self.old.open_elems } }
    {
        let below = self.below();
        let kept = kept_below(self.contexts.as_slice(), below);
        self.contexts.truncate(kept);
        self.stack.truncate(below);
    }

    /// Makes a template insertion mode the current one.
    pub(crate) fn push_template_mode(&mut self, mode: InsertionMode) -> Result<(), ParseFault>
        ensures ok { OnOk result (self.new ≡ record self.old { template_modes = mode ∷ self.old.template_modes }) }
        ensures err { OnErr result (self.new ≡ self.old) }
        ensures fault { IfErr result (λ fault. fault ≡ Memory) }
    {
        self.stack.push_template_mode(mode)
    }

    /// Takes the current template insertion mode away.
    pub(crate) fn pop_template_mode(&mut self) -> Option<InsertionMode>
        ensures { MatchOption result ((self.old.template_modes ≡ []) × (self.new ≡ self.old))
            (λ mode. (self.old.template_modes ≡ mode ∷ self.new.template_modes)
            × (self.new ≡ record self.old { template_modes = self.new.template_modes })) }
    {
        self.stack.pop_template_mode()
    }
}
