//! Page templates: pages with holes `{{name}}` in texts, in attributes and among blocks, into which values are put.
//!
//! The template is judged once, with its holes as they are (`figpliers::first_unfaithful`). Then, with any text in a hole for text, any
//! value in that of an attribute, and any list where blocks stand, what is written is read as just the page that was meant: it need not
//! be judged again. That is proved: `texts_are_alike` and `values_are_alike` of `html_faithful`, `plain_trees_are_alike` and
//! `templates_are_filled` of `html_faithful_plain`, and `filled_pages_are_read_back` of `html_faithful_documents`. What is asked of a
//! value is that it has no U+0000 and no U+000D.
//!
//! In `script` and `style` nothing is escaped: `<b>` is written as it is, and `</script>` ends the script. So a value there is asked for
//! more, by `figpliers::is_raw_text`. And a value that a program reads, as a script, a style sheet or a URL, means there what that
//! program takes it for: a quote ends a script's string. Escape it for that program first.

use figpliers::{
    Attribute, Forest, ForestNode, HtmlSerializer, KnownNamespace, LocalName, Namespace, QualName,
    RawKind, Serialize, SerializeFault, SerializeOpts, Serializer, Text, TraversalScope, VecWriter,
    is_kept, is_raw_text,
};
use std::alloc::Global;

/// What is put into a hole.
#[derive(Clone, Copy)]
pub enum Value<'a> {
    /// A text, in a text or in an attribute.
    Text(&'a str),
    /// A list of texts, where blocks may stand: as a text by itself in `body`, `div`, `li`, a cell and the like, in no paragraph.
    List(&'a [&'a str]),
}

/// A hole, by its name, and what is put into it.
#[derive(Clone, Copy)]
pub struct Filling<'a> {
    pub name: &'a str,
    pub value: Value<'a>,
}

/// A page that was filled.
#[derive(Drop)]
pub struct Filled {
    /// Its text, in UTF-8.
    pub bytes: Vec<u8>,
    /// Whether it is read back as just that page: whether each value is one that may be put there.
    pub fits: bool,
}

/// What writes a template, with values in its holes.
#[derive(Drop)]
struct Filler<'a> {
    alloc: Global,
    fillings: &'a [Filling<'a>],
    page: HtmlSerializer<VecWriter>,
    /// The element whose text is not escaped, where one is open. It has nothing else in it.
    raw: Option<(RawKind, &'static str)>,
    fits: bool,
}

/// What is put into a hole.
fn value_of<'a>(fillings: &'a [Filling<'a>], name: &str) -> Value<'a> {
    for filling in fillings {
        if filling.name == name {
            return filling.value;
        }
    }
    Value::Text("")
}

/// The list that stands in place of a text, if the text is a hole for one.
fn list_in<'a>(fillings: &'a [Filling<'a>], text: &str) -> Option<&'a [&'a str]> {
    let name = text.strip_prefix("{{")?.strip_suffix("}}")?;
    match value_of(fillings, name) {
        Value::List(items) => Some(items),
        Value::Text(_) => None,
    }
}

/// A text with values in its holes. What is put in is not looked through for holes.
fn with_values<'a>(
    alloc: Global,
    fillings: &'a [Filling<'a>],
    text: &str,
) -> Result<String, SerializeFault> {
    let mut whole = String::new(alloc);
    let mut rest = text;
    for _ in 0..u64::MAX {
        let Some((before, hole)) = rest.split_once("{{") else {
            break;
        };
        let Some((name, behind)) = hole.split_once("}}") else {
            break;
        };
        whole.push_str(before)?;
        if let Value::Text(value) = value_of(fillings, name) {
            whole.push_str(value)?;
        }
        rest = behind;
    }
    whole.push_str(rest)?;
    Ok(whole)
}

/// The name of an element of HTML.
fn html_name(alloc: Global, name: &str) -> Result<QualName, SerializeFault> {
    let Ok(local) = LocalName::from_str(alloc, name) else {
        return Err(SerializeFault::Memory);
    };
    Ok(QualName::new(None, Namespace::from_known(KnownNamespace::Html), local))
}

/// The elements whose text is not escaped, but for those that are out of use.
fn raw_of(name: &QualName) -> Option<(RawKind, &'static str)> {
    if !name.ns.is_known(KnownNamespace::Html) {
        return None;
    }
    match name.local.as_str() {
        "script" => Some((RawKind::ScriptData, "script")),
        "style" => Some((RawKind::Rawtext, "style")),
        _ => None,
    }
}

impl<'a> Filler<'a> {
    /// A list, an element for each of its texts.
    fn list(&mut self, items: &[&str]) -> Result<(), SerializeFault> {
        let list = html_name(self.alloc, "ul")?;
        let item = html_name(self.alloc, "li")?;
        self.page.start_elem(&list, &[])?;
        for text in items {
            self.fits = self.fits && is_kept(*text);
            self.page.start_elem(&item, &[])?;
            self.page.write_text(*text)?;
            self.page.end_elem(&item)?;
        }
        self.page.end_elem(&list)
    }

    /// A text with values in its holes, which is escaped or not.
    fn text(&mut self, text: &str) -> Result<(), SerializeFault> {
        let whole = with_values(self.alloc, self.fillings, text)?;
        let whole = whole.as_str();
        self.fits = self.fits && is_kept(whole);
        if let Some((kind, name)) = self.raw {
            let Ok(comes_back) = is_raw_text(self.alloc, kind, name, whole) else {
                return Err(SerializeFault::Memory);
            };
            self.fits = self.fits && comes_back;
        }
        self.page.write_text(whole)
    }

    /// An attribute with values in the holes of its value.
    fn attribute(&mut self, attribute: &Attribute) -> Result<Attribute, SerializeFault> {
        let whole = with_values(self.alloc, self.fillings, attribute.value.as_str())?;
        self.fits = self.fits && is_kept(whole.as_str());
        let Ok(name) = attribute.name.copy(self.alloc) else {
            return Err(SerializeFault::Memory);
        };
        let Ok(value) = Text::from_str(self.alloc, whole.as_str()) else {
            return Err(SerializeFault::Memory);
        };
        Ok(Attribute { name, value })
    }
}

impl<'a> Serializer for Filler<'a> {
    ghost use Rattle.std.specs.Prelude.{Ok};

    ghost State = { Unit {0} };

    ghost view = { λ _. tt };

    ghost step = { λ s _. Ok s };

    ghost refuses = { λ _ _ _ _. Unit {0} };

    fn start_elem(&mut self, name: &QualName, attrs: &[Attribute]) -> Result<(), SerializeFault> {
        let mut attributes = Vec::new(self.alloc);
        for attribute in attrs {
            attributes.push(self.attribute(attribute)?)?;
        }
        self.raw = raw_of(name);
        self.page.start_elem(name, attributes.as_slice())
    }

    fn end_elem(&mut self, name: &QualName) -> Result<(), SerializeFault> {
        self.raw = None;
        self.page.end_elem(name)
    }

    fn write_text(&mut self, text: &str) -> Result<(), SerializeFault> {
        match list_in(self.fillings, text) {
            Some(items) if self.raw.is_none() => self.list(items),
            _ => self.text(text),
        }
    }

    fn write_comment(&mut self, text: &str) -> Result<(), SerializeFault> {
        self.page.write_comment(text)
    }

    fn write_doctype(&mut self, name: &str) -> Result<(), SerializeFault> {
        self.page.write_doctype(name)
    }

    fn write_processing_instruction(
        &mut self,
        target: &str,
        contents: &str,
    ) -> Result<(), SerializeFault> {
        self.page.write_processing_instruction(target, contents)
    }
}

/// The text of a template with values in its holes, and whether it is read back as just that page. A hole without a value stays empty.
pub fn fill<'a>(
    alloc: Global,
    template: &Forest,
    fillings: &'a [Filling<'a>],
) -> Result<Filled, SerializeFault> {
    let page = HtmlSerializer::new(alloc, VecWriter::new(alloc), SerializeOpts::default())?;
    let mut filler = Filler {
        alloc,
        fillings,
        page,
        raw: None,
        fits: true,
    };
    let id = template.document();
    let node = ForestNode {
        forest: template,
        id,
    };
    node.serialize(alloc, &mut filler, TraversalScope::IncludeNode)?;
    let Filler { page, fits, .. } = filler;
    Ok(Filled {
        bytes: page.writer.into_bytes(),
        fits,
    })
}
