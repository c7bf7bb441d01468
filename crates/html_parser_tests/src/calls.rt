//! Each public call once, a form, a text that a script writes, and errors.
ghost use Rattle.std.specs.Prelude.{◌≡◌, IfOk, OnOk, None, Some, codes};
ghost use Rattle.markup.specs.Forest.{above_of, data_of, element_name};
ghost use Rattle.html_rules.specs.Names.{Html, element_name_of};
ghost use Rattle.html_tokenizer.specs.Calls.{IsReadyIf, refusal_of};
ghost use Rattle.html_parser.specs.Documents.{builder};
ghost use Rattle.html_parser.specs.Read.{stopped_by};

use crate::fragments::root_of;
use crate::parsing::{five, is_written};
use html_forest::Forest;
use html_parser::{ParseOpts, Parser, parse_document, parse_fragment_for_element};
use html_stack::create_element;
use html_tokenizer::References;
use markup::{
    Attributes, KnownNamespace, LocalName, Namespace, ParseFault, QualName, TokenizerResult,
    TreeSink,
};
use std::alloc::Global;
use std::borrow::CowStr;

/// Above the number of pauses in any text below.
const PAUSES: u32 = 8;

/// Whether options are those by default.
fn are_default(opts: &ParseOpts) -> bool {
    !opts.tokenizer.exact_errors
        && opts.tokenizer.discard_bom
        && !opts.tree_builder.exact_errors
        && opts.tree_builder.scripting_enabled
}

/// Whether options are copied.
fn are_copied(alloc: Global) -> Result<bool, ParseFault> {
    let mut opts = ParseOpts::default();
    opts.tree_builder.drop_doctype = true;
    let copied = opts.copy(alloc)?;
    Ok(are_default(&copied) && copied.tree_builder.drop_doctype)
}

#[test]
fn options_are_copied(rt: HostRuntime) {
    assert!(rt; are_default(&ParseOpts::default()));
    assert!(rt; are_copied(rt.alloc()) == Ok(true));
}

/// A new form, which stands nowhere.
fn new_form<Sink: TreeSink>(alloc: Global, sink: &mut Sink) -> Result<Sink::Handle, ParseFault>
    requires { above_of (Sink.forest sink.old) 0 ≡ None }
    ensures top { OnOk result (above_of (Sink.forest sink.new) 0 ≡ None) }
    ensures named { IfOk result (λ form. element_name (data_of (Sink.forest sink.new) (Sink.node form)) ≡ Some
        (element_name_of Html (codes "form"))) }
{
    let _ = sink.get_document();
    let local = LocalName::from_str(alloc, "form")?;
    let ns = Namespace::from_known(KnownNamespace::Html);
    let name = QualName::new(None, ns, local);
    let attributes = Attributes::new(alloc);
    create_element(sink, name, attributes)
}

/// Parses a text as the contents of a form, which is its form owner.
fn parse_in_form<Sink: TreeSink + Drop>(
    alloc: Global,
    sink: Sink,
    table: References,
    text: String,
) -> Result<Sink::Output, ParseFault>
    requires { above_of (Sink.forest sink) 0 ≡ None }
{
    let mut sink = sink;
    let form = new_form(alloc, &mut sink)?;
    let opts = ParseOpts::default();
    let parser = parse_fragment_for_element(alloc, sink, opts, form, true, Some(form), table)?;
    parser.one(text)
}

/// Whether a form in a form is left out.
fn is_form_left_out(alloc: Global) -> Result<bool, ParseFault> {
    let text = String::from_str(alloc, "<form><input>")?;
    let table = five(alloc)?;
    let forest = Forest::new(alloc)?;
    let forest = parse_in_form(alloc, forest, table, text)?;
    is_written(alloc, &forest, root_of(&forest), "<input>")
}

#[test]
fn forms_stand_in_no_form(rt: HostRuntime) {
    assert!(rt; is_form_left_out(rt.alloc()) == Ok(true));
}

/// Has a tokenizer take a text; at each script another is put before what follows.
fn feed_scripts<Sink: TreeSink>(
    alloc: Global,
    parser: &mut Parser<Sink>,
    text: String,
    written: &str,
) -> Result<(), ParseFault>
    requires { IsReadyIf (builder Sink.TreeSink) (refusal_of parser.old.tokenizer) parser.old.tokenizer }
    ensures { IsReadyIf (builder Sink.TreeSink) (refusal_of parser.new.tokenizer) parser.new.tokenizer }
{
    parser.input_buffer.push_back(text)?;
    'pauses: for _pause in 0..PAUSES {
        match parser.tokenizer.feed(&mut parser.input_buffer)? {
            TokenizerResult::Done => return Ok(()),
            TokenizerResult::Script(_) => {
                let written = String::from_str(alloc, written)?;
                parser.input_buffer.push_front(written)?;
            }
            TokenizerResult::EncodingIndicator(_) => {}
        }
    }
    Ok(())
}

/// Parses a document whose scripts write a text.
fn parse_scripts<Sink: TreeSink + Drop>(
    alloc: Global,
    sink: Sink,
    table: References,
    text: String,
    written: &str,
) -> Result<Sink::Output, ParseFault>
    requires { above_of (Sink.forest sink) 0 ≡ None }
{
    let mut parser = parse_document(alloc, sink, ParseOpts::default(), table)?;
    drop(feed_scripts(alloc, &mut parser, text, written));
    parser.finish()
}

const SCRIPTS: &str = "<!DOCTYPE html><p><script>1</script>b<script>2</script>c";

const WITH_WRITTEN: &str =
    "<!DOCTYPE html><html><head></head><body><p><script>1</script><i>w</i>&amp;amb<script>2</script><i>w</i>&amp;amc</p></body></html>";

/// Whether scripts write into the text.
fn are_written_into(alloc: Global) -> Result<bool, ParseFault> {
    let text = String::from_str(alloc, SCRIPTS)?;
    let table = five(alloc)?;
    let forest = Forest::new(alloc)?;
    let forest = parse_scripts(alloc, forest, table, text, "<i>w</i>&am")?;
    is_written(alloc, &forest, forest.document(), WITH_WRITTEN)
}

#[test]
fn scripts_write_into_the_text(rt: HostRuntime) {
    assert!(rt; are_written_into(rt.alloc()) == Ok(true));
}

/// Reports to a parser an error of its caller's own.
fn report_error<Sink: TreeSink>(parser: &mut Parser<Sink>)
    requires { IsReadyIf (builder Sink.TreeSink) (stopped_by parser.old.has_failed (refusal_of parser.old.tokenizer)) parser.old.tokenizer }
    ensures { IsReadyIf (builder Sink.TreeSink) (stopped_by parser.new.has_failed (refusal_of parser.new.tokenizer)) parser.new.tokenizer }
{
    parser.error(CowStr::Borrowed("an encoding was changed"));
}

/// Parses a document of two pieces, with two errors of the caller's own between them.
fn parse_with_errors<Sink: TreeSink + Drop>(
    alloc: Global,
    sink: Sink,
    table: References,
    first: String,
    second: String,
) -> Result<Sink::Output, ParseFault>
    requires { above_of (Sink.forest sink) 0 ≡ None }
{
    let mut parser = parse_document(alloc, sink, ParseOpts::default(), table)?;
    // After a fault the last call is refused too.
    drop(parser.process(first));
    report_error(&mut parser);
    report_error(&mut parser);
    parser.one(second)
}

/// Whether the errors of a caller are counted, and change nothing else.
fn are_errors_counted(alloc: Global) -> Result<bool, ParseFault> {
    let first = String::from_str(alloc, "<!DOCTYPE html>a&am")?;
    let second = String::from_str(alloc, "p;b")?;
    let table = five(alloc)?;
    let forest = Forest::new(alloc)?;
    let forest = parse_with_errors(alloc, forest, table, first, second)?;
    let written = "<!DOCTYPE html><html><head></head><body>a&amp;b</body></html>";
    Ok(forest.error_count() == 2 && is_written(alloc, &forest, forest.document(), written)?)
}

#[test]
fn errors_are_told(rt: HostRuntime) {
    assert!(rt; are_errors_counted(rt.alloc()) == Ok(true));
}
