//! Texts made by chance are cleaned, and what comes out is read again, as a document and as fragments, with scripts and without: it has
//! no element and no attribute but those of the policy, and elements that the rules make by themselves.

use devices::{MemReader, VecWriter};
use html_clean::Policy;
use html_clean_document::clean_fragment;
use html_forest::{Forest, ForestNode};
use html_normal::{Exact, References};
use html_parser::{ParseOpts, parse_document, parse_fragment};
use html_tokenizer::TokenizerOpts;
use html_tree_builder::TreeBuilderOpts;
use markup::{
    Attribute, Attributes, KnownNamespace, LocalName, Namespace, ParseFault, QualName, Serialize,
    SerializeFault, Serializer, TraversalScope, TreeSink,
};
use std::alloc::{AllocError, Global};
use std::test::Fail;

/// Numbers that only look like chance: the same in each run.
#[derive(Drop)]
struct Dice {
    state: usize,
}

impl Dice {
    /// A number below `sides`, or 0 where there is no side.
    fn roll(&mut self, sides: usize) -> usize {
        self.state = self
            .state
            .wrapping_mul(6_364_136_223_846_793_005)
            .wrapping_add(1_442_695_040_888_963_407);
        (self.state >> 33) % sides.max(1)
    }
}

/// Parts of texts.
const PARTS: &[&str] = &[
    "a",
    " ",
    "<",
    ">",
    "\"",
    "'",
    "=",
    "/",
    "&",
    "&lt;",
    "&amp;lt;",
    "&#13;",
    "&#0;",
    "&#xFEFF;",
    "\0",
    "\u{FEFF}",
    "\r",
    "\n",
    "--",
    "!",
    "<!--",
    "-->",
    "<![CDATA[",
    "]]>",
    "<?x",
    "<p>",
    "</p>",
    "<br>",
    "</br>",
    "<b>",
    "</b>",
    "<i>",
    "<a href=\"javascript:x\">",
    "<a href=b>",
    "</a>",
    "<img src=x onerror=y>",
    "<image src=x>",
    "<table>",
    "</table>",
    "<tr>",
    "<td>",
    "<caption>",
    "<col>",
    "<select>",
    "<option>",
    "</select>",
    "<form>",
    "<input>",
    "<ul>",
    "<li>",
    "<dl>",
    "<dt>",
    "<h1>",
    "</h1>",
    "<pre>\n",
    "<center>",
    "<ruby>",
    "<rt>",
    "<details open>",
    "<summary>",
    "<script>",
    "</script>",
    "<style>",
    "</style>",
    "<title>",
    "</title>",
    "<textarea>",
    "</textarea>",
    "<noscript>",
    "</noscript>",
    "<template>",
    "</template>",
    "<xmp>",
    "<iframe>",
    "</iframe>",
    "<noembed>",
    "<plaintext>",
    "<svg>",
    "</svg>",
    "<math>",
    "</math>",
    "<mtext>",
    "<mglyph>",
    "<annotation-xml encoding=text/html>",
    "<foreignobject>",
    "<desc>",
    "<mi>",
    "<svg:a>",
    "<p title=\"",
    "<b lang='",
    " id=x ",
    " onclick=y ",
    " title=z ",
    " style=w ",
    "<body onload=x>",
    "<html lang=a>",
    "<head>",
    "<frameset>",
    "<x-y a=b>",
    "<nobr>",
    "<font color=x>",
    "<math href=\"javascript:x\">",
];

/// Adds a text of some parts.
fn add_parts(dice: &mut Dice, page: &mut String) -> Result<(), AllocError> {
    for _ in 0..=dice.roll(24) {
        if let Some(part) = PARTS.get(dice.roll(PARTS.len())) {
            page.push_str(part)?;
        }
    }
    Ok(())
}

/// Elements that the rules make by themselves.
const MADE: [&str; 6] = ["html", "head", "body", "tbody", "colgroup", "tr"];

/// Whether an attribute of an element is one of the policy.
fn is_attribute(policy: &Policy, element: &str, attribute: &Attribute) -> bool {
    let name = attribute.name.local.as_str();
    policy.everywhere.iter().any(|other| other.as_str() == name)
        || policy.kept.iter().any(|rule| {
            rule.element.as_str() == element
                && rule.attributes.iter().any(|other| other.as_str() == name)
        })
}

/// Whether an element is one of the policy or made by the rules.
fn is_element(policy: &Policy, name: &str) -> bool {
    MADE.iter().any(|made| *made == name)
        || policy.kept.iter().any(|rule| rule.element.as_str() == name)
}

/// Whether it was told nothing but what a policy keeps.
#[derive(Drop)]
struct Judge<'a> {
    policy: &'a Policy,
    is_right: bool,
}

impl<'a> Serializer for Judge<'a> {
    ghost use Rattle.std.specs.Prelude.{Ok};

    ghost State = { Unit {0} };

    ghost view = { λ _. tt };

    ghost step = { λ s _. Ok s };

    ghost refuses = { λ _ _ _ _. Unit {0} };

    fn start_elem(&mut self, name: &QualName, attrs: &[Attribute]) -> Result<(), SerializeFault> {
        let element = name.local.as_str();
        let policy = self.policy;
        if !is_element(policy, element) || !attrs.iter().all(|a| is_attribute(policy, element, a)) {
            self.is_right = false;
        }
        Ok(())
    }

    fn end_elem(&mut self, _name: &QualName) -> Result<(), SerializeFault> {
        Ok(())
    }

    fn write_text(&mut self, _text: &str) -> Result<(), SerializeFault> {
        Ok(())
    }

    fn write_comment(&mut self, _text: &str) -> Result<(), SerializeFault> {
        self.is_right = false;
        Ok(())
    }

    fn write_doctype(&mut self, _name: &str) -> Result<(), SerializeFault> {
        self.is_right = false;
        Ok(())
    }

    fn write_processing_instruction(
        &mut self,
        _target: &str,
        _contents: &str,
    ) -> Result<(), SerializeFault> {
        self.is_right = false;
        Ok(())
    }
}

/// Where a text is read: in a document, or in an element.
type Context = Option<(KnownNamespace, &'static str)>;

const CONTEXTS: [Context; 7] = [
    None,
    Some((KnownNamespace::Html, "div")),
    Some((KnownNamespace::Html, "td")),
    Some((KnownNamespace::Html, "p")),
    Some((KnownNamespace::Html, "table")),
    Some((KnownNamespace::Svg, "svg")),
    Some((KnownNamespace::Html, "select")),
];

/// The tree of a text in a context.
fn tree(
    alloc: Global,
    text: String,
    context: Context,
    scripting: bool,
) -> Result<Forest, ParseFault> {
    let opts = ParseOpts {
        tokenizer: TokenizerOpts::default(),
        tree_builder: TreeBuilderOpts {
            scripting_enabled: scripting,
            ..TreeBuilderOpts::default()
        },
    };
    let Ok(five) = References::five(alloc) else {
        return Err(ParseFault::Memory);
    };
    let forest = Forest::new(alloc)?;
    match context {
        None => parse_document(alloc, forest, opts, five)?.one(text),
        Some((namespace, name)) => {
            let name = QualName::new(
                None,
                Namespace::from_known(namespace),
                LocalName::from_str(alloc, name)?,
            );
            let none = Attributes::new(alloc);
            parse_fragment(alloc, forest, opts, name, none, scripting, five)?.one(text)
        }
    }
}

/// Whether a text, read in a context, has only what the policy keeps.
fn has_only_kept(
    alloc: Global,
    policy: &Policy,
    text: &str,
    context: Context,
    scripting: bool,
) -> bool {
    let Ok(text) = String::from_str(alloc, text) else {
        return false;
    };
    let Ok(mut forest) = tree(alloc, text, context, scripting) else {
        return false;
    };
    let id = forest.get_document();
    let forest = &forest;
    let mut judge = Judge {
        policy,
        is_right: true,
    };
    let scope = TraversalScope::ChildrenOnly(None);
    let answer = ForestNode { forest, id }.serialize(alloc, &mut judge, scope);
    answer.is_ok() && judge.is_right
}

/// The cleaned text of a fragment.
fn cleaned(alloc: Global, policy: &Policy, page: String) -> Option<String> {
    let Ok(five) = References::five(alloc) else {
        return None;
    };
    let mut reader = MemReader::new(page.into_bytes(), 4096, None);
    let mut writer = VecWriter::new(alloc);
    let answer = clean_fragment(
        alloc,
        &mut reader,
        &mut writer,
        five,
        Exact::default(),
        policy,
    );
    if answer.is_err() {
        return None;
    }
    String::from_utf8(writer.into_bytes()).ok()
}

/// Whether what comes out of a text has only what the policy keeps, wherever it is put.
fn is_kept_anywhere(alloc: Global, policy: &Policy, page: String) -> bool {
    let Some(text) = cleaned(alloc, policy, page) else {
        return false;
    };
    CONTEXTS.iter().all(|context| {
        has_only_kept(alloc, policy, text.as_str(), *context, true)
            && has_only_kept(alloc, policy, text.as_str(), *context, false)
    })
}

/// The first of so many texts of which something else comes out, or their number.
fn first_wrong(alloc: Global, policy: &Policy, count: usize) -> Result<usize, AllocError> {
    let mut dice = Dice { state: 7 };
    for place in 0..count {
        let mut page = String::new(alloc);
        add_parts(&mut dice, &mut page)?;
        if !is_kept_anywhere(alloc, policy, page) {
            return Ok(place);
        }
    }
    Ok(count)
}

#[test]
fn what_was_cleaned_is_read_as_it_was_passed_on(rt: HostRuntime) -> Result<(), Fail> {
    let alloc = rt.alloc();
    let policy = Policy::text_and_links(alloc)?;
    assert_eq!(rt; first_wrong(alloc, &policy, 2000)?, 2000);
    Ok(())
}
