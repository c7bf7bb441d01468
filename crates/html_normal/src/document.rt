//! The document of what a reader has.
ghost use Rattle.std.specs.Prelude.{◌≡◌, ℕ, List, Some, IfOk, IfErr, OnOk};
ghost use Rattle.markup.specs.TreeLaws.{with_errors};
ghost use Rattle.html_normal.specs.Document.{default_opts, default_setting, forest_answers, setting_by};
ghost use Rattle.html_rules.specs.declared.rules.Rules.TheVariants.{Html5ever};
ghost use Rattle.html_tree_builder.specs.States.{setting_of};
ghost use Rattle.html_normal.specs.Normal.{CountsReads, IsInputFault, IsRead, IsReadBy};
ghost use Rattle.html_normal.specs.Parsing.{HasReadAll, IsAtRest, MayRefuse};

use crate::fault::NormalFault;
use crate::report::Exact;
use devices::Source;
use html_forest::Forest;
use html_input::{PIECE, split_text};
use html_parser::{ParseOpts, Parser, parse_document};
use html_references::References;
use html_rules::Rules;
use html_tokenizer::TokenizerOpts;
use html_tree_builder::TreeBuilderOpts;
use markup::TreeSink;
use std::alloc::Global;

/// Has a parser take all that a reader has, in reads of at most [`PIECE`] bytes. A character that a read cuts is held until the
/// rest of it comes.
pub(crate) fn read_into<R: Source, Sink: TreeSink>(
    alloc: Global,
    reader: &mut R,
    parser: &mut Parser<Sink>,
) -> Result<(), NormalFault>
    requires rest { IsAtRest Sink.TreeSink parser.old.has_failed parser.old.tokenizer parser.old.input_buffer }
    ensures ok { OnOk result (HasReadAll Sink.TreeSink (R.left reader.old) (R.left reader.new) parser.old.tokenizer parser.new.tokenizer) }
    ensures rest { OnOk result (IsAtRest Sink.TreeSink parser.new.has_failed parser.new.tokenizer parser.new.input_buffer) }
    ensures err { IfErr result (IsInputFault (MayRefuse Sink.TreeSink parser.old.tokenizer) (R.left reader.old) (R.left reader.new)) }
    ensures counted { CountsReads result (R.left reader.old) (R.left reader.new) (R.failures reader.old) (R.failures reader.new) }
    ensures same_references { R.references reader.new ≡ R.references reader.old }
{
    let mut held = Vec::new(alloc);
    let mut taken = 0u64;
    let mut buffer = [0; PIECE];
    loop {
        let Ok(count) = reader.read_some(&mut buffer) else {
            return Err(NormalFault::Read);
        };
        if count == 0 {
            break;
        }
        held.extend_from_slice(&buffer[..count])?;
        if held.len() as u64 > u64::MAX - taken {
            return Err(NormalFault::Read);
        }
        let (text, cut) = split_text(held, taken)?;
        taken += text.len() as u64;
        held = cut;
        parser.process(text)?;
    }
    if held.is_empty() {
        return Ok(());
    }
    Err(NormalFault::NotUtf8 { at: taken })
}

/// The options of a parser of documents: the default ones, but for which parse errors are reported and for the rules of tree construction.
pub fn options_with(exact: Exact, rules: Rules) -> ParseOpts
    ensures tokenizer { result.tokenizer ≡ record default_opts { exact_errors = exact.tokenizer } }
    ensures tree_builder { setting_of forest_answers result.tree_builder ≡ setting_by rules }
    ensures rules { result.tree_builder.rules ≡ rules }
{
    ParseOpts {
        tokenizer: TokenizerOpts {
            exact_errors: exact.tokenizer,
            ..TokenizerOpts::default()
        },
        tree_builder: TreeBuilderOpts {
            exact_errors: exact.tree_builder,
            rules,
            ..TreeBuilderOpts::default()
        },
    }
}

/// The same by html5ever's rules.
pub fn options(exact: Exact) -> ParseOpts
    ensures tokenizer { result.tokenizer ≡ record default_opts { exact_errors = exact.tokenizer } }
    ensures tree_builder { setting_of forest_answers result.tree_builder ≡ default_setting }
    ensures rules { result.tree_builder.rules ≡ Html5ever }
{
    options_with(exact, Rules::Html5ever)
}

/// The document of what a reader has, read to its end, by html5ever's rules. Errors: those of [`crate::normalise`].
pub fn read_document<R: Source>(
    alloc: Global,
    reader: &mut R,
    references: References,
    exact: Exact,
) -> Result<Forest, NormalFault>
    ensures ok { IfOk result (λ forest. (whole : List ℕ) → R.left reader.old ≡ Some whole
        → IsRead references exact.tokenizer whole (R.left reader.new) (with_errors 0 forest) forest.errors) }
    ensures err { IfErr result (IsInputFault ⊥ (R.left reader.old) (R.left reader.new)) }
    ensures counted { CountsReads result (R.left reader.old) (R.left reader.new) (R.failures reader.old) (R.failures reader.new) }
    ensures same_references { R.references reader.new ≡ R.references reader.old }
{
    read_document_with(alloc, reader, references, exact, Rules::Html5ever)
}

/// The document of what a reader has, read to its end, by these rules of tree construction. Errors: those of [`crate::normalise`].
pub fn read_document_with<R: Source>(
    alloc: Global,
    reader: &mut R,
    references: References,
    exact: Exact,
    rules: Rules,
) -> Result<Forest, NormalFault>
    ensures ok { IfOk result (λ forest. (whole : List ℕ) → R.left reader.old ≡ Some whole
        → IsReadBy rules references exact.tokenizer whole (R.left reader.new) (with_errors 0 forest) forest.errors) }
    ensures err { IfErr result (IsInputFault ⊥ (R.left reader.old) (R.left reader.new)) }
    ensures counted { CountsReads result (R.left reader.old) (R.left reader.new) (R.failures reader.old) (R.failures reader.new) }
    ensures same_references { R.references reader.new ≡ R.references reader.old }
{
    let forest = Forest::new(alloc)?;
    let mut parser = parse_document(alloc, forest, options_with(exact, rules), references)?;
    read_into(alloc, reader, &mut parser)?;
    Ok(parser.finish()?)
}
