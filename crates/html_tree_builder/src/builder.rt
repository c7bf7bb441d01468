//! The tree builder.
ghost use Rattle.std.specs.Prelude.{◌≡◌, false, IfErr, IfOk, IfSome, IsSome, None, Some, codes};
ghost use Rattle.markup.specs.Forest.{above_of, data_of, element_name};
ghost use Rattle.markup.specs.declared.fault.ParseFault.TheVariants.{Memory};
ghost use Rattle.html_rules_laws.specs.Usable.{Usable};
ghost use Rattle.html_rules.specs.Documents.{before_document, before_fragment, form_of_context, tokenizer_state};
ghost use Rattle.html_stack.specs.Stacks.{open_of};
ghost use Rattle.html_rules.specs.Names.{Html, element_name_of};
ghost use Rattle.html_rules.specs.State.{hushed, is_fragment_by};
ghost use Rattle.html_tree_builder.specs.States.{answers_of, built, context_in, number_if, setting_of};

use crate::beginnings::tokenizer_state;
use crate::construction::Construction;
use crate::options::TreeBuilderOpts;
use html_names::ElementName;
use html_rules::Rules;
use html_stack::OpenElement;
use html_tokens::State;
use markup::count::Count;
use markup::{ParseFault, TreeSink};
use std::alloc::Global;

/// Builds a tree of the tokens that it is told (HTML Standard, section 13.2.6): a sink of tokens over a sink that builds trees.
///
/// After [`ParseFault::Memory`] it answers [`ParseFault::Failed`] to every token.
///
/// `turns` has how many turns its tokens took, of all that are no text: one for each row that was chosen for a token, at first
/// and each time that the token was taken again. Contracts alone see the number.
#[derive(Drop)]
pub struct TreeBuilder<Sink: TreeSink> {
    /// Who builds the tree.
    pub sink: Sink,
    pub(crate) construction: Construction<Sink>,
    pub(crate) current_line: u64,
    pub(crate) has_failed: bool,
    pub(crate) turns: Count,
}

/// The context of a fragment, with the name that its sink says it has.
fn context_of<Sink: TreeSink>(
    alloc: Global,
    rules: Rules,
    sink: &Sink,
    context: Sink::Handle,
) -> Result<OpenElement<Sink::Handle>, ParseFault>
    requires { IsSome (element_name (data_of (Sink.forest sink.now) (Sink.node context))) }
    ensures ok { IfOk result (λ made. open_of Sink.node made ≡ context_in rules (Sink.forest sink.now) (Sink.node context)) }
    ensures fault { IfErr result (λ fault. fault ≡ Memory) }
{
    let name = sink.elem_name(&context);
    let name = ElementName::new(alloc, rules, &name.ns, &name.local)?;
    Ok(OpenElement {
        handle: context,
        name,
    })
}

impl<Sink: TreeSink> TreeBuilder<Sink> {
    /// A builder for a document, over a sink whose document stands under nothing. The quirks mode to begin with is not told to the sink.
    pub fn new(alloc: Global, sink: Sink, opts: TreeBuilderOpts) -> TreeBuilder<Sink>
        requires top { above_of (Sink.forest sink) 0 ≡ None }
        ensures begun { built Sink.TreeSink result.construction (Sink.forest result.sink) ≡ before_document
            (setting_of (answers_of Sink.integration_point Sink.allows_shadow_roots Sink.attaches_shadow) opts) (Sink.forest sink) }
        ensures usable { Usable (hushed (built Sink.TreeSink result.construction (Sink.forest result.sink))) }
        ensures works { result.has_failed ≡ false }
        ensures turns { result.turns.count ≡ 0 }
    {
        let mut sink = sink;
        let _ = sink.get_document();
        TreeBuilder {
            sink,
            construction: Construction::new(alloc, opts),
            current_line: 1,
            has_failed: false,
            turns: Count::new(),
        }
    }

    /// A builder for a fragment in a context, which may stand in a form (HTML Standard, section 13.4). Its root is put into the document.
    /// A sink for which memory is wanting is dropped.
    pub fn new_for_fragment(
        alloc: Global,
        sink: Sink,
        context: Sink::Handle,
        form: Option<Sink::Handle>,
        opts: TreeBuilderOpts,
    ) -> Result<TreeBuilder<Sink>, ParseFault>
    where
        Sink: Drop,
        requires top { above_of (Sink.forest sink) 0 ≡ None }
        requires context { IsSome (element_name (data_of (Sink.forest sink) (Sink.node context))) }
        requires form { IfSome (form_of_context opts.rules (context_in opts.rules (Sink.forest sink) (Sink.node context))
            (number_if Sink.node form)) (λ n. element_name (data_of (Sink.forest sink) n) ≡ Some (element_name_of Html (codes "form"))) }
        ensures begun { IfOk result
            (λ builder. built Sink.TreeSink builder.construction (Sink.forest builder.sink) ≡ before_fragment
            (setting_of (answers_of Sink.integration_point Sink.allows_shadow_roots Sink.attaches_shadow) opts)
            (context_in opts.rules (Sink.forest sink) (Sink.node context)) (number_if Sink.node form) (Sink.forest sink)) }
        ensures usable { IfOk result (λ builder. Usable (hushed (built Sink.TreeSink builder.construction (Sink.forest builder.sink)))) }
        ensures works { IfOk result (λ builder. builder.has_failed ≡ false) }
        ensures turns { IfOk result (λ builder. builder.turns.count ≡ 0) }
        ensures fault { IfErr result (λ fault. fault ≡ Memory) }
    {
        let mut sink = sink;
        let _ = sink.get_document();
        let context = context_of(alloc, opts.rules, &sink, context)?;
        let construction = Construction::for_fragment(alloc, &mut sink, context, form, opts)?;
        Ok(TreeBuilder {
            sink,
            construction,
            current_line: 1,
            has_failed: false,
            turns: Count::new(),
        })
    }

    /// Whether a fragment is parsed.
    pub fn is_fragment(&self) -> bool
        ensures { result ≡ is_fragment_by self.now.construction.context_elem }
    {
        self.construction.is_fragment()
    }

    /// The text state in which the tokenizer begins a fragment (HTML Standard, section 13.4); `scripting` says how its context was
    /// scripted.
    pub fn tokenizer_state_for_context_elem(&self, scripting: bool) -> State
        requires { IsSome self.now.construction.context_elem }
        ensures { IfSome self.now.construction.context_elem (λ context. result ≡ tokenizer_state context scripting) }
    {
        match &self.construction.context_elem {
            Some(context) => tokenizer_state(&context.name, scripting),
            None => State::Data,
        }
    }
}
