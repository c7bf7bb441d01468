//! Texts to documents and to fragments.
ghost use Rattle.std.specs.Prelude.{◌≡◌, IfErr, IfOk, false, length, true};
ghost use Rattle.std.specs.Str.{chars};
ghost use Rattle.std.specs.Str.Lossy.{utf8_lossy};
ghost use Rattle.std.specs.String.{string_bytes};
ghost use Rattle.html_normal.specs.declared.fault.NormalFault.TheVariants.{Memory};
ghost use Rattle.html_parser.specs.Documents.{Begins, IsBuilt, builder};
ghost use Rattle.html_parser.specs.Read.{Beginning, stopped_by};
ghost use Rattle.html_rules.specs.State.{State};
ghost use Rattle.html_tokenizer.specs.Calls.{IsReadyIf, refusal_of};
ghost use Rattle.html_places.specs.Noted.{IsPlaced};
ghost use Rattle.html_pages.specs.Pages.{IsFragment, IsFragmentBy, IsPage, IsPageBy, html_name};

use crate::forbidden::exact_for;
use crate::pieces::whole_in_pieces;
use html_forest::Forest;
use html_normal::{Exact, NormalFault, References, fragment_options, options, options_with};
use html_parser::{Parser, parse_document, parse_fragment};
use html_places::{NotedForest, Pieces};
use html_rules::Rules;
use markup::{Attributes, KnownNamespace, LocalName, Namespace, QualName, TreeSink};
use std::alloc::Global;

// Nobody looks at the errors.
const FEW_ERRORS: Exact = Exact {
    tokenizer: false,
    tree_builder: false,
};

// What a parser that has begun makes of a whole text.
fn whole<Sink: TreeSink + Drop>(
    parser: Parser<Sink>,
    text: String,
) -> Result<Sink::Output, NormalFault>
    requires { IsReadyIf (builder Sink.TreeSink) (stopped_by parser.has_failed (refusal_of parser.tokenizer)) parser.tokenizer }
    ensures ok { IfOk result (λ out. (begin : Beginning State) → Begins Sink.TreeSink begin parser.has_failed
        parser.tokenizer parser.input_buffer → IsBuilt Sink.TreeSink begin (chars (string_bytes text)) out) }
    ensures fault { IfErr result (λ fault. (begin : Beginning State) → Begins Sink.TreeSink begin parser.has_failed
        parser.tokenizer parser.input_buffer → fault ≡ Memory) }
{
    Ok(parser.one(text)?)
}

/// The document of a text, by html5ever's rules.
///
/// Errors: [`NormalFault::Memory`].
pub fn document(alloc: Global, references: References, page: String) -> Result<Forest, NormalFault>
    ensures ok { IfOk result (IsPage references false (string_bytes page)) }
    ensures fault { IfErr result (λ fault. fault ≡ Memory) }
{
    document_with(alloc, references, Rules::Html5ever, page)
}

/// The document of a text, by these rules of tree construction.
///
/// Errors: [`NormalFault::Memory`].
pub fn document_with(
    alloc: Global,
    references: References,
    rules: Rules,
    page: String,
) -> Result<Forest, NormalFault>
    ensures ok { IfOk result (IsPageBy rules references false (string_bytes page)) }
    ensures fault { IfErr result (λ fault. fault ≡ Memory) }
{
    let forest = Forest::new(alloc)?;
    let parser = parse_document(alloc, forest, options_with(FEW_ERRORS, rules), references)?;
    whole(parser, page)
}

/// The document of bytes that are to be UTF-8: what isn't stands as U+FFFD, as in a page that is decoded (Encoding Standard, section
/// 4.1). [`read_document`](html_normal::read_document) refuses such bytes, and tells where they are.
///
/// Errors: [`NormalFault::Memory`].
pub fn document_lossy(
    alloc: Global,
    references: References,
    bytes: &[u8],
) -> Result<Forest, NormalFault>
    ensures ok { IfOk result (IsPage references false (utf8_lossy bytes.now)) }
    ensures fault { IfErr result (λ fault. fault ≡ Memory) }
{
    let page = String::from_utf8_lossy(alloc, bytes)?;
    document(alloc, references, page)
}

/// What a text makes in an element of HTML of that name, as `td`, as where `innerHTML` is set: it stands in the only child of the
/// document (HTML Standard, section 13.4). As in a document, scripts run: what stands in a `noscript` is its text.
///
/// Errors: [`NormalFault::Memory`].
pub fn fragment(
    alloc: Global,
    references: References,
    context: &str,
    text: String,
) -> Result<Forest, NormalFault>
    ensures ok { IfOk result (IsFragment references (html_name (chars context.now)) (chars (string_bytes text))) }
    ensures fault { IfErr result (λ fault. fault ≡ Memory) }
{
    fragment_with(alloc, references, Rules::Html5ever, context, text)
}

/// What [`fragment`] does, by these rules of tree construction. By the Standard's, a context that is a `form` is the form element pointer,
/// and a U+FEFF at the beginning is kept.
///
/// Errors: [`NormalFault::Memory`].
pub fn fragment_with(
    alloc: Global,
    references: References,
    rules: Rules,
    context: &str,
    text: String,
) -> Result<Forest, NormalFault>
    ensures ok { IfOk result (IsFragmentBy rules references (html_name (chars context.now)) (chars (string_bytes text))) }
    ensures fault { IfErr result (λ fault. fault ≡ Memory) }
{
    let local = LocalName::from_str(alloc, context)?;
    let html = Namespace::from_known(KnownNamespace::Html);
    let name = QualName::new(None, html, local);
    let forest = Forest::new(alloc)?;
    let parser = parse_fragment(
        alloc,
        forest,
        fragment_options(FEW_ERRORS, rules),
        name,
        Attributes::new(alloc),
        true,
        references,
    )?;
    whole(parser, text)
}

/// The document of a text with the places of its nodes, and with all its parse errors, in the order in which they were found.
///
/// Errors: [`NormalFault::Memory`].
pub fn noted_document(
    alloc: Global,
    references: References,
    page: String,
) -> Result<NotedForest, NormalFault>
    ensures ok { IfOk result (λ made. IsPage references true (string_bytes page) made.forest) }
    ensures all { IfOk result (λ made. length made.errors.items ≡ made.forest.errors) }
    ensures places { IfOk result (IsPlaced (chars (string_bytes page))) }
    ensures fault { IfErr result (λ fault. fault ≡ Memory) }
{
    let text = page.as_str();
    let sink = NotedForest::new(alloc)?;
    let exact = exact_for(text);
    let parser = parse_document(alloc, sink, options(exact), references)?;
    let mut pieces = Pieces::new(alloc, text, exact.tokenizer);
    let built = whole_in_pieces(alloc, parser, &mut pieces)?;
    let made = pieces.end(built)?;
    if !made.is_complete() {
        return Err(NormalFault::Memory);
    }
    Ok(made)
}
