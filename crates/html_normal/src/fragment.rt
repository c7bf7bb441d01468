//! The fragment of what a reader has.
ghost use Rattle.std.specs.Prelude.{◌≡◌, ℕ, List, Some, IfOk, IfErr};
ghost use Rattle.markup.specs.TreeLaws.{with_errors};
ghost use Rattle.html_normal.specs.Document.{forest_answers, setting_by};
ghost use Rattle.html_normal.specs.Fragment.{IsFragmentRead, fragment_opts};
ghost use Rattle.html_normal.specs.Normal.{CountsReads, IsInputFault};
ghost use Rattle.html_tree_builder.specs.States.{setting_of};

use crate::document::{options, options_with, read_into};
use crate::fault::NormalFault;
use crate::report::Exact;
use devices::Source;
use html_forest::Forest;
use html_parser::{ParseOpts, parse_fragment};
use html_references::References;
use html_rules::Rules;
use html_tokenizer::TokenizerOpts;
use markup::{Attributes, QualName};
use std::alloc::Global;

/// How a fragment is parsed: as a document is, but that by the Standard its first U+FEFF is kept.
pub fn fragment_options(exact: Exact, rules: Rules) -> ParseOpts
    ensures tokenizer { result.tokenizer ≡ record (fragment_opts rules) { exact_errors = exact.tokenizer } }
    ensures tree_builder { setting_of forest_answers result.tree_builder ≡ setting_by rules }
    ensures rules { result.tree_builder.rules ≡ rules }
{
    let opts = options_with(exact, rules);
    match rules {
        Rules::Html5ever => opts,
        Rules::Standard => ParseOpts {
            tokenizer: TokenizerOpts {
                discard_bom: false,
                ..opts.tokenizer
            },
            tree_builder: opts.tree_builder,
        },
    }
}

/// The fragment of what a reader has, read to its end, as it stands in a new element of a name, where scripts run (HTML Standard, section
/// 13.4). It stands in the first child of the forest's document. Errors: those of [`crate::normalise`].
pub fn read_fragment<R: Source>(
    alloc: Global,
    reader: &mut R,
    references: References,
    exact: Exact,
    context: QualName,
) -> Result<Forest, NormalFault>
    ensures ok { IfOk result (λ forest. (whole : List ℕ) → R.left reader.old ≡ Some whole
        → IsFragmentRead references context whole (R.left reader.new) (with_errors 0 forest)) }
    ensures err { IfErr result (IsInputFault ⊥ (R.left reader.old) (R.left reader.new)) }
    ensures counted { CountsReads result (R.left reader.old) (R.left reader.new) (R.failures reader.old) (R.failures reader.new) }
    ensures same_references { R.references reader.new ≡ R.references reader.old }
{
    let forest = Forest::new(alloc)?;
    let mut parser = parse_fragment(
        alloc,
        forest,
        options(exact),
        context,
        Attributes::new(alloc),
        true,
        references,
    )?;
    read_into(alloc, reader, &mut parser)?;
    Ok(parser.finish()?)
}
