//! The states before the first token of a document and of a fragment (HTML Standard, sections 13.2 and 13.4).
ghost use Rattle.std.specs.Prelude.{◌≡◌, ℕ, IfErr, IfOk, IfSome, None, OnOk, Some};
ghost use Rattle.markup.specs.Forest.{Forest, IsNode, above_of};
ghost use Rattle.markup.specs.Named.{IsTree};
ghost use Rattle.markup.specs.declared.fault.ParseFault.TheVariants.{Memory};
ghost use Rattle.html_rules.specs.Documents.{before_document, before_fragment, form_of_context, tokenizer_state};
ghost use Rattle.html_rules.specs.State.{Answers};
ghost use Rattle.html_stack.specs.Stacks.{open_of};
ghost use Rattle.html_tree_builder.specs.States.{number_if, setting_of, state_of, with_mode_of};

use crate::construction::Construction;
use crate::options::TreeBuilderOpts;
use html_names::ElementName;
use html_rules::{InsertionMode, Rules, TagSet};
use html_stack::{OpenElement, Stack};
use html_tokens::State;
use html_tokens::states::RawKind;
use markup::{ParseFault, Text, TreeSink};
use std::alloc::Global;

/// The text state in which the tokenizer begins a fragment, by the name of its context.
pub(crate) fn tokenizer_state(name: &ElementName, scripting: bool) -> State
    ensures { (n : ℕ) → result ≡ tokenizer_state (record { number = n; namespace = name.now.namespace; name = name.now.name; rules = name.now.rules }) scripting }
{
    if name.is_in(TagSet::RcdataContext) {
        State::RawData(RawKind::Rcdata)
    } else if name.is_in(TagSet::RawtextContext) {
        State::RawData(RawKind::Rawtext)
    } else if name.is_in(TagSet::Script) {
        State::RawData(RawKind::ScriptData)
    } else if name.is_in(TagSet::Noscript) {
        if scripting {
            State::RawData(RawKind::Rawtext)
        } else {
            State::Data
        }
    } else if name.is_in(TagSet::Plaintext) {
        State::Plaintext
    } else {
        State::Data
    }
}

/// The form element pointer of a fragment: by the Standard, it is the context itself where that is a form (section 13.4).
fn form_of_context<Handle: Copy>(
    rules: Rules,
    context: &OpenElement<Handle>,
    form: Option<Handle>,
) -> Option<Handle>
    ensures { (node : Handle → ℕ) → number_if node result ≡ form_of_context rules (open_of node context.now) (number_if node form) }
{
    match rules {
        Rules::Html5ever => form,
        Rules::Standard => {
            if context.name.is_in(TagSet::Form) {
                Some(context.handle)
            } else {
                form
            }
        }
    }
}

impl<Sink: TreeSink> Construction<Sink> {
    /// The state before the first token of a document.
    pub(crate) fn new(alloc: Global, opts: TreeBuilderOpts) -> Construction<Sink>
        ensures { (a : Answers) (f : Forest) → state_of a result f ≡ before_document (setting_of a opts) f }
    {
        Construction {
            stack: Stack::new(alloc, opts.rules),
            mode: InsertionMode::Initial,
            orig_mode: None,
            head_elem: None,
            form_elem: None,
            frameset_ok: true,
            ignore_lf: false,
            foster_parenting: false,
            pending_table_text: Text::empty(alloc),
            quirks_mode: opts.quirks_mode,
            context_elem: None,
            has_ended: false,
            opts,
            alloc,
        }
    }

    /// A context that is a template has a template insertion mode.
    fn push_mode_of_context(&mut self, context: &ElementName) -> Result<(), ParseFault>
        ensures ok { OnOk result ((a : Answers) (f : Forest) (n : ℕ) → state_of a self.new f ≡ with_mode_of
            (record { number = n; namespace = context.now.namespace; name = context.now.name; rules = context.now.rules }) (state_of a self.old f)) }
        ensures fault { IfErr result (λ fault. fault ≡ Memory) }
    {
        if context.is_in(TagSet::Template) {
            self.push_template_mode(InsertionMode::InTemplate)?;
        }
        Ok(())
    }

    /// A fragment has its context, and the form that the context stands in.
    fn set_context(&mut self, context: OpenElement<Sink::Handle>, form: Option<Sink::Handle>)
        ensures { (a : Answers) (f : Forest) → state_of a self.new f ≡ record (state_of a self.old f)
            { context_elem = Some (open_of Sink.node context); form_elem = number_if Sink.node form } }
    {
        self.context_elem = Some(context);
        self.form_elem = form;
    }

    /// The state before the first token of a fragment, with its context and with the form that the context stands in. Its root is put into
    /// the document.
    pub(crate) fn for_fragment(
        alloc: Global,
        sink: &mut Sink,
        context: OpenElement<Sink::Handle>,
        form: Option<Sink::Handle>,
        opts: TreeBuilderOpts,
    ) -> Result<Construction<Sink>, ParseFault>
        requires tree { IsTree (Sink.forest sink.old) }
        requires top { above_of (Sink.forest sink.old) 0 ≡ None }
        requires context { IsNode (Sink.forest sink.old) (Sink.node context.handle) }
        requires form { IfSome (form_of_context opts.rules (open_of Sink.node context) (number_if Sink.node form))
            (IsNode (Sink.forest sink.old)) }
        ensures ok { IfOk result (λ made. (a : Answers) → state_of a made (Sink.forest sink.new) ≡ before_fragment
            (setting_of a opts) (open_of Sink.node context) (number_if Sink.node form) (Sink.forest sink.old)) }
        ensures fault { IfErr result (λ fault. fault ≡ Memory) }
    {
        let mut made = Construction::new(alloc, opts);
        made.push_mode_of_context(&context.name)?;
        let form = form_of_context(opts.rules, &context, form);
        made.set_context(context, form);
        made.create_new_root(sink)?;
        made.reset_mode();
        Ok(made)
    }
}
