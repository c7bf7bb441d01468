//! Parsers of fragments (HTML Standard, section 13.4).
ghost use Rattle.std.specs.Prelude.{◌≡◌, IfErr, IfOk, IfSome, IsSome, None, Some, codes};
ghost use Rattle.markup.specs.Forest.{above_of, data_of, element_name};
ghost use Rattle.markup.specs.declared.fault.ParseFault.TheVariants.{Memory};
ghost use Rattle.html_rules.specs.Names.{Html, element_name_of};
ghost use Rattle.html_tree_builder.specs.States.{answers_of, context_in, number_if, setting_of};
ghost use Rattle.html_parser.specs.Documents.{Begins, new_context, of_fragment, of_new_context};
ghost use Rattle.html_rules.specs.Documents.{form_of_context};

use crate::documents::over;
use crate::options::ParseOpts;
use crate::parser::Parser;
use html_rules_laws::laws::each_text_has_a_document;
use html_stack::create_element;
use html_tokenizer::{References, TokenizerOpts};
use html_tree_builder::TreeBuilder;
use markup::{Attributes, ParseFault, QualName, TreeSink};
use std::alloc::Global;

/// A parser of what stands in an element of the sink, the context, which may stand in a form; `scripting` says how the context was
/// scripted. The sink's document stands under nothing; a root is put into it, and what is parsed stands in that root. The text state in
/// which reading begins is the context's, whatever the options say.
///
/// Errors: [`ParseFault::Memory`]; the sink is then dropped.
pub fn parse_fragment_for_element<Sink: TreeSink + Drop>(
    alloc: Global,
    sink: Sink,
    opts: ParseOpts,
    context: Sink::Handle,
    scripting: bool,
    form: Option<Sink::Handle>,
    table: References,
) -> Result<Parser<Sink>, ParseFault>
    requires top { above_of (Sink.forest sink) 0 ≡ None }
    requires context { IsSome (element_name (data_of (Sink.forest sink) (Sink.node context))) }
    requires form { IfSome (form_of_context opts.tree_builder.rules
        (context_in opts.tree_builder.rules (Sink.forest sink) (Sink.node context)) (number_if Sink.node form))
        (λ n. element_name (data_of (Sink.forest sink) n) ≡ Some (element_name_of Html (codes "form"))) }
    ensures begins { IfOk result
        (λ parser. Begins Sink.TreeSink
        (of_fragment table opts.tokenizer
        (setting_of (answers_of Sink.integration_point Sink.allows_shadow_roots Sink.attaches_shadow)
        opts.tree_builder) (context_in opts.tree_builder.rules (Sink.forest sink) (Sink.node context)) (number_if Sink.node form)
        scripting (Sink.forest sink)) parser.has_failed parser.tokenizer parser.input_buffer) }
    ensures fault { IfErr result (λ fault. fault ≡ Memory) }
{
    each_text_has_a_document();
    let mut sink = sink;
    let _ = sink.get_document();
    let builder = TreeBuilder::new_for_fragment(alloc, sink, context, form, opts.tree_builder)?;
    let state = builder.tokenizer_state_for_context_elem(scripting);
    let opts = TokenizerOpts {
        initial_state: Some(state),
        ..opts.tokenizer
    };
    Ok(over(alloc, builder, opts, table))
}

/// A parser of what stands in a new element, the context, which is made in the sink and stands in no form; all else as for
/// [`parse_fragment_for_element`]. By the Standard's rules a context that is HTML's `form` has no prefix.
///
/// Errors: [`ParseFault::Memory`]; the sink is then dropped.
pub fn parse_fragment<Sink: TreeSink + Drop>(
    alloc: Global,
    sink: Sink,
    opts: ParseOpts,
    context_name: QualName,
    context_attrs: Attributes,
    scripting: bool,
    table: References,
) -> Result<Parser<Sink>, ParseFault>
    requires top { above_of (Sink.forest sink) 0 ≡ None }
    requires form { IfSome (form_of_context opts.tree_builder.rules
        (new_context opts.tree_builder.rules context_name (Sink.forest sink)) None)
        (λ n. context_name ≡ element_name_of Html (codes "form")) }
    ensures begins { IfOk result
        (λ parser. Begins Sink.TreeSink
        (of_new_context table opts.tokenizer
        (setting_of (answers_of Sink.integration_point Sink.allows_shadow_roots Sink.attaches_shadow)
        opts.tree_builder) context_name context_attrs scripting (Sink.forest sink)) parser.has_failed
        parser.tokenizer parser.input_buffer) }
    ensures fault { IfErr result (λ fault. fault ≡ Memory) }
{
    let mut sink = sink;
    let _ = sink.get_document();
    let context = create_element(&mut sink, context_name, context_attrs)?;
    parse_fragment_for_element(alloc, sink, opts, context, scripting, None, table)
}
