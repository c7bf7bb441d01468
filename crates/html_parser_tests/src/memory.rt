//! Out of memory: what a parser answers then and after it.
ghost use Rattle.html_tokenizer.specs.Calls.{IsReadyIf, refusal_of};
ghost use Rattle.html_parser.specs.Documents.{builder};
ghost use Rattle.html_parser.specs.Read.{stopped_by};

use crate::fragments::{html_name, root_of};
use crate::parsing::{five, is_written};
use html_forest::Forest;
use html_parser::{ParseOpts, Parser, parse_document, parse_fragment};
use markup::{Attributes, ParseFault, TreeSink};
use std::alloc::Global;

/// Whether a parser refuses all calls, since an earlier one failed.
fn has_failed<Sink: TreeSink + Drop>(alloc: Global, parser: Parser<Sink>) -> bool
where
    Sink::Output: Drop,
    requires { IsReadyIf (builder Sink.TreeSink) (stopped_by parser.has_failed (refusal_of parser.tokenizer)) parser.tokenizer }
{
    let mut parser = parser;
    let refuses_text = parser.process(String::new(alloc)) == Err(ParseFault::Failed);
    let refuses_end = matches!(parser.finish(), Err(ParseFault::Failed));
    refuses_text && refuses_end
}

/// Has a parser take a text and the end. One that is refused memory for a text is to have failed.
fn take_or_fail<Sink: TreeSink + Drop>(
    alloc: Global,
    parser: Parser<Sink>,
    text: String,
) -> Result<Sink::Output, ParseFault>
where
    Sink::Output: Drop,
    requires { IsReadyIf (builder Sink.TreeSink) (stopped_by parser.has_failed (refusal_of parser.tokenizer)) parser.tokenizer }
{
    let mut parser = parser;
    let Err(fault) = parser.process(text) else {
        return parser.finish();
    };
    if has_failed(alloc, parser) {
        Err(fault)
    } else {
        Err(ParseFault::Shape)
    }
}

/// The document of a text.
fn built(alloc: Global, text: &str) -> Result<Forest, ParseFault> {
    let text = String::from_str(alloc, text)?;
    let table = five(alloc)?;
    let forest = Forest::new(alloc)?;
    let parser = parse_document(alloc, forest, ParseOpts::default(), table)?;
    take_or_fail(alloc, parser, text)
}

/// The fragment of a text in a title.
fn built_in_title(alloc: Global, text: &str) -> Result<Forest, ParseFault> {
    let text = String::from_str(alloc, text)?;
    let table = five(alloc)?;
    let context = html_name(alloc, "title")?;
    let forest = Forest::new(alloc)?;
    let opts = ParseOpts::default();
    let attributes = Attributes::new(alloc);
    let parser = parse_fragment(alloc, forest, opts, context, attributes, true, table)?;
    take_or_fail(alloc, parser, text)
}

/// A text, and what is written of its document, or of what stands in the root of its fragment.
type Row = (&'static str, &'static str);

/// Whether a row is right.
fn is_document(alloc: Global, row: &Row) -> Result<bool, ParseFault> {
    let forest = built(alloc, row.0)?;
    is_written(alloc, &forest, forest.document(), row.1)
}

/// Whether a row of a fragment in a title is right.
fn is_in_title(alloc: Global, row: &Row) -> Result<bool, ParseFault> {
    let forest = built_in_title(alloc, row.0)?;
    is_written(alloc, &forest, root_of(&forest), row.1)
}

/// Whether a row is right, or memory was refused.
fn is_right_or_memory(answer: Result<bool, ParseFault>) -> bool {
    match answer {
        Ok(is_right) => is_right,
        Err(fault) => fault == ParseFault::Memory,
    }
}

const ROWS: &[Row] = &[
    (
        "<!DOCTYPE html><p>a<br>b",
        "<!DOCTYPE html><html><head></head><body><p>a<br>b</p></body></html>",
    ),
    (
        "<!DOCTYPE html><table>x<tr><td>y</table>",
        "<!DOCTYPE html><html><head></head><body>x<table><tbody><tr><td>y</td></tr></tbody></table></body></html>",
    ),
    (
        "<meta charset=\"UTF-8\" /><script>a</script><svg xlink:href=b>c&am;<title>d</title></svg><b>e<p>f</b>g",
        "<html><head><meta charset=\"UTF-8\"><script>a</script></head><body><svg xlink:href=\"b\">c&amp;am;<title>d</title></svg><b>e</b><p><b>f</b>g</p></body></html>",
    ),
    (
        "<!doctype html><title>a</title><p class=b>c<!--d-->",
        "<!DOCTYPE html><html><head><title>a</title></head><body><p class=\"b\">c<!--d--></p></body></html>",
    ),
    (
        "<b>1<i>2<p>3</b>4</i>5",
        "<html><head></head><body><b>1<i>2</i></b><i></i><p><i><b>3</b>4</i>5</p></body></html>",
    ),
    (
        "<table>a<tr><td>b<table> c",
        "<html><head></head><body>a<table><tbody><tr><td>b c<table></table></td></tr></tbody></table></body></html>",
    ),
    (
        "<svg viewbox=a><g/></svg><math><mi>b",
        "<html><head></head><body><svg viewBox=\"a\"><g></g></svg><math><mi>b</mi></math></body></html>",
    ),
    (
        "<template><tr><td>a</template><frameset><frame>",
        "<html><head><template><tr><td>a</td></tr></template></head><frameset><frame></frameset></html>",
    ),
    (
        "<a href=b>c<a>d<form><select><option>e</form><script>f",
        "<html><head></head><body><a href=\"b\">c</a><a>d<form><select><option>e<script>f</script></option></select></form></a></body></html>",
    ),
];

const IN_TITLE: &[Row] = &[("<b>&lt;</title>", "&lt;b&gt;&lt;&lt;/title&gt;")];

#[test]
fn memory_may_want(rt: HostRuntime) {
    for row in ROWS {
        assert!(rt;
            is_right_or_memory(is_document(rt.alloc(), row)),
            "{}",
            row.0
        );
    }
}

#[test]
fn memory_may_want_in_a_fragment(rt: HostRuntime) {
    for row in IN_TITLE {
        assert!(rt;
            is_right_or_memory(is_in_title(rt.alloc(), row)),
            "{}",
            row.0
        );
    }
}
