//! Parsers of documents (HTML Standard, section 13.2).
ghost use Rattle.std.specs.Prelude.{◌≡◌, IfOk, IfSome, IsOk, None, false, true};
ghost use Rattle.markup.specs.Forest.{above_of};
ghost use Rattle.html_rules_laws.specs.Usable.{Usable};
ghost use Rattle.html_rules.specs.State.{hushed};
ghost use Rattle.html_tokens.specs.TextState.{is_text_state};
ghost use Rattle.html_tree_builder.specs.States.{answers_of, built, setting_of};
ghost use Rattle.html_parser.specs.Documents.{Begins, Starts, from_state, of_document};

use crate::feeding::begin;
use crate::options::ParseOpts;
use crate::parser::Parser;
use html_rules_laws::laws::each_text_has_a_document;
use html_tokenizer::{BufferQueue, References, TokenizerOpts};
use html_tree_builder::TreeBuilder;
use markup::{ParseFault, TreeSink};
use std::alloc::Global;

/// A parser over a builder that has taken nothing yet.
pub(crate) fn over<Sink: TreeSink>(
    alloc: Global,
    builder: TreeBuilder<Sink>,
    opts: TokenizerOpts,
    table: References,
) -> Parser<Sink>
    requires text { IfSome opts.initial_state (λ st. is_text_state st ≡ true) }
    requires usable { Usable (hushed (built Sink.TreeSink builder.construction (Sink.forest builder.sink))) }
    requires works { builder.has_failed ≡ false }
    ensures { Starts Sink.TreeSink
        (from_state table opts (built Sink.TreeSink builder.construction (Sink.forest builder.sink)))
        result.has_failed result.tokenizer result.input_buffer }
{
    Parser {
        tokenizer: begin(alloc, builder, opts, table),
        input_buffer: BufferQueue::new(),
        has_failed: false,
    }
}

/// A parser of a document, over a sink whose document stands under nothing.
pub fn parse_document<Sink: TreeSink>(
    alloc: Global,
    sink: Sink,
    opts: ParseOpts,
    table: References,
) -> Result<Parser<Sink>, ParseFault>
    requires text { IfSome opts.tokenizer.initial_state (λ st. is_text_state st ≡ true) }
    requires top { above_of (Sink.forest sink) 0 ≡ None }
    ensures begins { IfOk result
        (λ parser. Begins Sink.TreeSink
        (of_document table opts.tokenizer
        (setting_of (answers_of Sink.integration_point Sink.allows_shadow_roots Sink.attaches_shadow)
        opts.tree_builder) (Sink.forest sink)) parser.has_failed parser.tokenizer parser.input_buffer) }
    ensures ok { IsOk result }
{
    each_text_has_a_document();
    let mut sink = sink;
    let _ = sink.get_document();
    let builder = TreeBuilder::new(alloc, sink, opts.tree_builder);
    Ok(over(alloc, builder, opts.tokenizer, table))
}
