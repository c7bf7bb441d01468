//! From bytes to bytes.
ghost use Rattle.std.specs.Prelude.{◌≡◌, ℕ, List, Some, IfOk, IfErr};
ghost use Rattle.devices.specs.Devices.{count_after};
ghost use Rattle.html_normal.specs.Normal.{CountsReads, IsFailed, IsFailedBy, IsNormalised, IsNormalisedBy, is_write_fault};

use crate::document::read_document_with;
use crate::fault::NormalFault;
use crate::report::{Exact, Report};
use devices::{Source, Target};
use html_forest::ForestNode;
use html_references::References;
use html_rules::Rules;
use html_serialize::{SerializeOpts, serialize};
use markup::TreeSink;
use std::alloc::Global;

/// Reads an HTML document to its end by html5ever's rules, and writes its normal text.
///
/// Nothing is written before the input has ended. After an error the reader and the writer stand where they stopped: after
/// `Write`, or after `Memory` while writing, a prefix of the text was written; after any other error nothing.
pub fn normalise<R: Source, W: Target>(
    alloc: Global,
    reader: &mut R,
    writer: &mut W,
    references: References,
    exact: Exact,
) -> Result<Report, NormalFault>
    ensures ok { IfOk result (λ report. (whole : List ℕ) → R.left reader.old ≡ Some whole
        → IsNormalised references exact.tokenizer whole (R.left reader.new) (W.written writer.old) (W.written writer.new) report) }
    ensures err { IfErr result (IsFailed references (R.left reader.old) (R.left reader.new) (W.written writer.old) (W.written writer.new)) }
    ensures read_failures { CountsReads result (R.left reader.old) (R.left reader.new) (R.failures reader.old) (R.failures reader.new) }
    ensures write_failures { W.failures writer.new ≡ count_after (is_write_fault result) (W.failures writer.old) }
    ensures same_reader { R.references reader.new ≡ R.references reader.old }
    ensures same_writer { W.references writer.new ≡ W.references writer.old }
{
    normalise_with(alloc, reader, writer, references, exact, Rules::Html5ever)
}

/// Reads an HTML document to its end by these rules of tree construction, and writes its normal text.
///
/// Nothing is written before the input has ended. After an error the reader and the writer stand where they stopped: after
/// `Write`, or after `Memory` while writing, a prefix of the text was written; after any other error nothing.
pub fn normalise_with<R: Source, W: Target>(
    alloc: Global,
    reader: &mut R,
    writer: &mut W,
    references: References,
    exact: Exact,
    rules: Rules,
) -> Result<Report, NormalFault>
    ensures ok { IfOk result (λ report. (whole : List ℕ) → R.left reader.old ≡ Some whole
        → IsNormalisedBy rules references exact.tokenizer whole (R.left reader.new) (W.written writer.old) (W.written writer.new) report) }
    ensures err { IfErr result (IsFailedBy rules references (R.left reader.old) (R.left reader.new) (W.written writer.old)
        (W.written writer.new)) }
    ensures read_failures { CountsReads result (R.left reader.old) (R.left reader.new) (R.failures reader.old) (R.failures reader.new) }
    ensures write_failures { W.failures writer.new ≡ count_after (is_write_fault result) (W.failures writer.old) }
    ensures same_reader { R.references reader.new ≡ R.references reader.old }
    ensures same_writer { W.references writer.new ≡ W.references writer.old }
{
    let mut forest = read_document_with(alloc, reader, references, exact, rules)?;
    let plain = forest.is_plain()?;
    let id = forest.get_document();
    let node = ForestNode {
        forest: &forest,
        id,
    };
    serialize(alloc, writer, &node, SerializeOpts::default())?;
    Ok(Report {
        plain,
        quirks: forest.quirks(),
        errors: forest.error_count(),
    })
}
