//! Calls of a serializer, as rows have them, and what they come to.
ghost use Rattle.std.specs.Prelude.{◌<◌};

use devices::MemWriter;
use html_serialize::{HtmlSerializer, SerializeOpts};
use markup::{
    Attribute, LocalName, Namespace, ParseFault, QualName, SerializeFault, Serializer, Text,
    TraversalScope, namespaces,
};
use std::alloc::{AllocError, Global};

/// An attribute: its namespace, its name and its value.
pub type Row<'a> = (&'a str, &'a str, &'a str);

/// A call. Elements are HTML's.
#[derive(Clone, Copy)]
pub enum Call<'a> {
    Start(&'a str, &'a [Row<'a>]),
    End(&'a str),
    Text(&'a str),
    Comment(&'a str),
    Doctype(&'a str),
    Instruction(&'a str, &'a str),
}

/// How the writer takes bytes, and how the serializer is set.
#[derive(Clone, Copy)]
pub struct Way<'a> {
    pub piece: usize,
    pub fail_at: Option<u64>,
    pub zero: bool,
    pub scripting: bool,
    pub creates: bool,
    pub under: Option<&'a str>,
}

pub const PLAIN: Way<'static> = Way {
    piece: 4096,
    fail_at: None,
    zero: false,
    scripting: true,
    creates: false,
    under: None,
};

/// What the first call that was refused answered, or the last one; and what was written.
#[derive(Drop)]
pub struct Outcome {
    pub answer: Result<(), SerializeFault>,
    pub written: Vec<u8>,
}

pub fn name(alloc: Global, ns: &str, local: &str) -> Result<QualName, ParseFault> {
    Ok(QualName::new(
        None,
        Namespace::new(String::from_str(alloc, ns)?),
        LocalName::from_str(alloc, local)?,
    ))
}

fn attributes(alloc: Global, rows: &[Row<'_>]) -> Result<Vec<Attribute>, ParseFault> {
    let mut made = Vec::new(alloc);
    for &(ns, local, value) in rows {
        made.push(Attribute {
            name: name(alloc, ns, local)?,
            value: Text::from_str(alloc, value)?,
        })?;
    }
    Ok(made)
}

fn start<S: Serializer>(
    alloc: Global,
    serializer: &mut S,
    local: &str,
    rows: &[Row<'_>],
) -> Result<Result<(), SerializeFault>, ParseFault> {
    let name = name(alloc, namespaces::HTML, local)?;
    let attrs = attributes(alloc, rows)?;
    Ok(serializer.start_elem(&name, attrs.as_slice()))
}

fn end<S: Serializer>(
    alloc: Global,
    serializer: &mut S,
    local: &str,
) -> Result<Result<(), SerializeFault>, ParseFault> {
    let name = name(alloc, namespaces::HTML, local)?;
    Ok(serializer.end_elem(&name))
}

/// Makes a call.
pub fn make<S: Serializer>(
    alloc: Global,
    serializer: &mut S,
    call: Call<'_>,
) -> Result<Result<(), SerializeFault>, ParseFault> {
    match call {
        Call::Start(local, rows) => start(alloc, serializer, local, rows),
        Call::End(local) => end(alloc, serializer, local),
        Call::Text(text) => Ok(serializer.write_text(text)),
        Call::Comment(text) => Ok(serializer.write_comment(text)),
        Call::Doctype(name) => Ok(serializer.write_doctype(name)),
        Call::Instruction(target, data) => {
            Ok(serializer.write_processing_instruction(target, data))
        }
    }
}

/// Makes calls up to the first that is refused: its answer, or the last one's.
pub fn make_each<S: Serializer>(
    alloc: Global,
    serializer: &mut S,
    calls: &[Call<'_>],
) -> Result<Result<(), SerializeFault>, ParseFault> {
    let mut answer = Ok(());
    for call in calls {
        if answer.is_ok() {
            answer = make(alloc, serializer, *call)?;
        }
    }
    Ok(answer)
}

/// The options of a way.
pub fn options(alloc: Global, way: &Way<'_>) -> Result<SerializeOpts, ParseFault> {
    let scope = match way.under {
        None => TraversalScope::ChildrenOnly(None),
        Some(local) => TraversalScope::ChildrenOnly(Some(name(alloc, namespaces::HTML, local)?)),
    };
    Ok(SerializeOpts {
        scripting_enabled: way.scripting,
        traversal_scope: scope,
        create_missing_parent: way.creates,
    })
}

/// A new serializer over memory.
pub fn started(alloc: Global, way: &Way<'_>) -> Result<HtmlSerializer<MemWriter>, ParseFault> {
    let opts = options(alloc, way)?;
    let writer = MemWriter::new(alloc, 1000, way.piece.max(1), way.fail_at, way.zero)?;
    match HtmlSerializer::new(alloc, writer, opts) {
        Ok(serializer) => Ok(serializer),
        Err(_) => Err(ParseFault::Memory),
    }
}

/// Makes calls of a new serializer, up to the first that is refused.
pub fn written_by(alloc: Global, way: &Way<'_>, calls: &[Call<'_>]) -> Result<Outcome, ParseFault> {
    let mut serializer = started(alloc, way)?;
    let answer = make_each(alloc, &mut serializer, calls)?;
    let written = Vec::from_slice(alloc, serializer.writer.written())?;
    Ok(Outcome { answer, written })
}
