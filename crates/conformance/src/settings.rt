//! What the settings of a row say.
ghost use Rattle.std.specs.Prelude.{◌≡◌, true, IfOk, IfSome, None};
ghost use Rattle.html_rules.specs.declared.rules.Rules.TheVariants.{Html5ever};
ghost use Rattle.html_tokens.specs.TextState.{is_text_state};

use devices::MemReader;
use html_input::read_table;
use html_parser::ParseOpts;
use html_standard_references::standard;
use html_tokenizer::states::RawKind;
use html_tokenizer::{References, State, TokenizerOpts};
use html_tree_builder::TreeBuilderOpts;
use markup::{KnownNamespace, LocalName, Namespace, ParseFault, QualName, Text};
use row_format::{Heading, Row};
use std::alloc::Global;

/// The table of the lines of a file.
fn table_of(alloc: Global, lines: &str) -> Result<References, ParseFault> {
    let bytes = Vec::from_slice(alloc, lines.as_bytes())?;
    let Ok(table) = read_table(alloc, &mut MemReader::new(bytes, 4_096, None)) else {
        return Err(ParseFault::Shape);
    };
    Ok(table)
}

/// The Standard's table.
fn standard_table(alloc: Global) -> Result<References, ParseFault> {
    let Ok(table) = standard(alloc) else {
        return Err(ParseFault::Memory);
    };
    Ok(table)
}

/// The five names of references that a written text needs.
pub fn five(alloc: Global) -> Result<References, ParseFault> {
    let Ok(table) = References::five(alloc) else {
        return Err(ParseFault::Memory);
    };
    Ok(table)
}

/// The named references of a row that says nothing of them: the Standard's, where there are any.
fn usual_references(alloc: Global, row: &Row) -> Result<References, ParseFault> {
    if row.data(alloc)?.as_str().contains('&') {
        standard_table(alloc)
    } else {
        five(alloc)
    }
}

/// The named references of a row.
pub fn references(alloc: Global, row: &Row) -> Result<References, ParseFault> {
    let Some(lines) = row.setting(alloc, Heading::References)? else {
        return usual_references(alloc, row);
    };
    if lines.as_str() == "five" {
        return five(alloc);
    }
    table_of(alloc, lines.as_str())
}

/// Whether scripts run.
pub fn scripting(row: &Row) -> bool {
    !row.has(Heading::ScriptOff)
}

/// The options of a parser.
pub fn parse_opts(row: &Row, exact: bool) -> ParseOpts
    ensures state { result.tokenizer.initial_state ≡ None }
    ensures rules { result.tree_builder.rules ≡ Html5ever }
{
    ParseOpts {
        tokenizer: TokenizerOpts {
            exact_errors: exact,
            discard_bom: !row.has(Heading::KeepMark),
            ..TokenizerOpts::default()
        },
        tree_builder: TreeBuilderOpts {
            exact_errors: exact,
            scripting_enabled: scripting(row),
            iframe_srcdoc: row.has(Heading::Srcdoc),
            drop_doctype: row.has(Heading::DropDoctype),
            ..TreeBuilderOpts::default()
        },
    }
}

/// The namespace of a word before a name.
fn namespace_of(alloc: Global, word: &str) -> Result<Namespace, ParseFault> {
    Ok(match word {
        "svg" => Namespace::from_known(KnownNamespace::Svg),
        "math" => Namespace::from_known(KnownNamespace::MathMl),
        _ => Namespace::new(String::from_str(alloc, word)?),
    })
}

/// The name of an element around a fragment.
pub fn context(alloc: Global, words: &str) -> Result<QualName, ParseFault> {
    let Some((word, name)) = words.split_once(' ') else {
        let html = Namespace::from_known(KnownNamespace::Html);
        return Ok(QualName::new(None, html, LocalName::from_str(alloc, words)?));
    };
    let namespace = namespace_of(alloc, word)?;
    Ok(QualName::new(None, namespace, LocalName::from_str(alloc, name)?))
}

/// The state of a text that words name.
fn state_of(words: &str) -> Option<State>
    ensures { IfSome result (λ st. is_text_state st ≡ true) }
{
    match words {
        "data" => Some(State::Data),
        "PLAINTEXT" => Some(State::Plaintext),
        "RCDATA" => Some(State::RawData(RawKind::Rcdata)),
        "RAWTEXT" => Some(State::RawData(RawKind::Rawtext)),
        "script data" => Some(State::RawData(RawKind::ScriptData)),
        _ => None,
    }
}

/// The state in which a tokenizer begins.
fn first_state(alloc: Global, row: &Row) -> Result<Option<State>, ParseFault>
    ensures { IfOk result (λ first. IfSome first (λ st. is_text_state st ≡ true)) }
{
    let Some(words) = row.setting(alloc, Heading::State)? else {
        return Ok(None);
    };
    match state_of(words.as_str()) {
        Some(state) => Ok(Some(state)),
        None => Err(ParseFault::Shape),
    }
}

/// The name of the last start tag.
fn last_start_tag(alloc: Global, row: &Row) -> Result<Option<Text>, ParseFault> {
    match row.setting(alloc, Heading::LastStartTag)? {
        Some(name) => Ok(Some(Text::new(name))),
        None => Ok(None),
    }
}

/// The options of a tokenizer.
pub fn tokenizer_opts(alloc: Global, row: &Row, exact: bool) -> Result<TokenizerOpts, ParseFault>
    ensures { IfOk result (λ opts. IfSome opts.initial_state (λ st. is_text_state st ≡ true)) }
{
    let initial_state = first_state(alloc, row)?;
    let last_start_tag_name = last_start_tag(alloc, row)?;
    Ok(TokenizerOpts {
        exact_errors: exact,
        discard_bom: !row.has(Heading::KeepMark),
        initial_state,
        last_start_tag_name,
    })
}
