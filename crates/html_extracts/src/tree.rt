//! A tree line by line.
ghost use Rattle.std.specs.Prelude.{◌≡◌, ◌++◌, [], codes};
ghost use Rattle.markup.specs.Calls.{calls_of};
ghost use Rattle.markup.specs.declared.serializer.TraversalScope.TheVariants.{IncludeNode};
ghost use Rattle.html_forest.specs.Walk.{walked};
ghost use Rattle.html_serialize.specs.Puts.{Puts, told_by};
ghost use Rattle.html_serialize.specs.Serializing.{Writes};
ghost use Rattle.html_extracts.specs.Lines.{all_lines, doctype_line, element_lines, line, node_lines, tree_lines, walk_lines};

use crate::lines::{inside, push_doctype, push_element, push_instruction, push_line};
use devices::{Target, write_whole};
use html_forest::{Forest, ForestNode, NodeData, NodeId};
use markup::{Attribute, QualName, Serialize, SerializeFault, Serializer, TraversalScope};
use std::alloc::Global;

/// Writes a line for each node that it is told.
#[derive(Drop)]
struct LineWriter<W: Target> {
    alloc: Global,
    writer: W,
    // How far the next line is moved in, and room for the lines that are not yet written.
    indent: Vec<u8>,
    lines: Vec<u8>,
}

impl<W: Target> LineWriter<W> {
    // Writes the lines that are not yet written.
    fn pass_on(&mut self) -> Result<(), SerializeFault>
        ensures puts { Puts (told_by W.written W.failures self.old.writer) self.old.lines.items result
            (told_by W.written W.failures self.new.writer) }
        ensures indent { self.new.indent ≡ self.old.indent }
        ensures same_references { W.references self.new.writer ≡ W.references self.old.writer }
    {
        match write_whole(&mut self.writer, self.lines.as_slice()) {
            Ok(()) => Ok(()),
            Err(_) => Err(SerializeFault::Write),
        }
    }

    // Writes the line of a text between others.
    fn put_line(&mut self, before: &str, text: &str, after: &str) -> Result<(), SerializeFault>
        ensures writes { Writes (line self.old.indent.items (before.now ++ text.now ++ after.now))
            (told_by W.written W.failures self.old.writer) result (told_by W.written W.failures self.new.writer) }
        ensures indent { self.new.indent ≡ self.old.indent }
        ensures same_references { W.references self.new.writer ≡ W.references self.old.writer }
    {
        self.lines.clear();
        push_line(&mut self.lines, self.indent.as_slice(), before, text, after)?;
        self.pass_on()
    }

    // Writes the line of a processing instruction.
    fn put_instruction(&mut self, target: &str, text: &str) -> Result<(), SerializeFault>
        ensures writes { Writes (line self.old.indent.items (codes "<?" ++ target.now ++ codes " " ++ text.now ++ codes ">"))
            (told_by W.written W.failures self.old.writer) result (told_by W.written W.failures self.new.writer) }
        ensures indent { self.new.indent ≡ self.old.indent }
        ensures same_references { W.references self.new.writer ≡ W.references self.old.writer }
    {
        self.lines.clear();
        push_instruction(&mut self.lines, self.indent.as_slice(), target, text)?;
        self.pass_on()
    }

    // Writes the lines of an element and of its attributes.
    fn put_element(&mut self, name: &QualName, attrs: &[Attribute]) -> Result<(), SerializeFault>
        ensures writes { Writes (element_lines self.old.indent.items name.now attrs.now)
            (told_by W.written W.failures self.old.writer) result (told_by W.written W.failures self.new.writer) }
        ensures indent { self.new.indent ≡ self.old.indent }
        ensures same_references { W.references self.new.writer ≡ W.references self.old.writer }
    {
        self.lines.clear();
        push_element(
            self.alloc,
            &mut self.lines,
            self.indent.as_slice(),
            name,
            attrs,
        )?;
        self.pass_on()
    }

    // Writes the line of a doctype, which stands in no element.
    fn doctype(
        &mut self,
        name: &str,
        public_id: &str,
        system_id: &str,
    ) -> Result<(), SerializeFault>
        ensures writes { Writes (doctype_line name.now public_id.now system_id.now)
            (told_by W.written W.failures self.old.writer) result (told_by W.written W.failures self.new.writer) }
        ensures same_references { W.references self.new.writer ≡ W.references self.old.writer }
    {
        self.lines.clear();
        push_doctype(&mut self.lines, name, public_id, system_id)?;
        self.pass_on()
    }
}

impl<W: Target> Serializer for LineWriter<W> {
    ghost use Rattle.html_extracts.specs.Lines.{Lines, listed, refuses};

    ghost State = { Lines };

    ghost view = { λ lines. record { indent = lines.indent.items; told = told_by W.written W.failures lines.writer } };

    ghost step = { listed };

    ghost refuses = { refuses };

    ghost references = { λ lines. W.references lines.writer };

    fn start_elem(&mut self, name: &QualName, attrs: &[Attribute]) -> Result<(), SerializeFault> {
        self.put_element(name, attrs)?;
        self.indent.extend_from_slice(inside(name))?;
        Ok(())
    }

    fn end_elem(&mut self, name: &QualName) -> Result<(), SerializeFault> {
        let length = self.indent.len().saturating_sub(inside(name).len());
        self.indent.truncate(length);
        Ok(())
    }

    fn write_text(&mut self, text: &str) -> Result<(), SerializeFault> {
        self.put_line("\"", text, "\"")
    }

    fn write_comment(&mut self, text: &str) -> Result<(), SerializeFault> {
        self.put_line("<!-- ", text, " -->")
    }

    fn write_doctype(&mut self, name: &str) -> Result<(), SerializeFault> {
        self.put_line("<!DOCTYPE ", name, ">")
    }

    fn write_processing_instruction(
        &mut self,
        target: &str,
        contents: &str,
    ) -> Result<(), SerializeFault> {
        self.put_instruction(target, contents)
    }
}

// Writes the lines of a node that is no doctype, and of what stands in it.
fn write_walk<W: Target>(
    forest: &Forest,
    id: NodeId,
    lines: &mut LineWriter<W>,
) -> Result<(), SerializeFault>
    ensures writes { Writes (walk_lines [] (calls_of (walked forest.now id IncludeNode)))
        (told_by W.written W.failures lines.old.writer) result (told_by W.written W.failures lines.new.writer) }
    ensures same_references { W.references lines.new.writer ≡ W.references lines.old.writer }
{
    lines.indent.clear();
    let node = ForestNode { forest, id };
    node.serialize(lines.alloc, lines, TraversalScope::IncludeNode)
}

// Writes the lines of a node, and of what stands in it.
fn write_node<W: Target>(
    forest: &Forest,
    id: NodeId,
    lines: &mut LineWriter<W>,
) -> Result<(), SerializeFault>
    ensures writes { Writes (node_lines forest.now id)
        (told_by W.written W.failures lines.old.writer) result (told_by W.written W.failures lines.new.writer) }
    ensures same_references { W.references lines.new.writer ≡ W.references lines.old.writer }
{
    if let Some(
        NodeData::Doctype {
            name,
            public_id,
            system_id,
        },
    ) = forest.node(id)
    {
        return lines.doctype(name.as_str(), public_id.as_str(), system_id.as_str());
    }
    write_walk(forest, id, lines)
}

// Writes the lines of what stands in a node.
fn write_below<W: Target>(
    forest: &Forest,
    top: NodeId,
    lines: &mut LineWriter<W>,
) -> Result<(), SerializeFault>
    ensures writes { Writes (tree_lines forest.now top)
        (told_by W.written W.failures lines.old.writer) result (told_by W.written W.failures lines.new.writer) }
    ensures same_references { W.references lines.new.writer ≡ W.references lines.old.writer }
{
    for id in forest.children(top) {
        write_node(forest, id, lines)?;
    }
    Ok(())
}

// A writer after the lines of a tree, with the answer.
#[derive(Drop)]
struct Answered<W> {
    writer: W,
    answer: Result<(), SerializeFault>,
}

// Writes the lines of what stands in a node, and gives the writer back.
fn list<W: Target>(alloc: Global, forest: &Forest, top: NodeId, writer: W) -> Answered<W>
    ensures writes { Writes (tree_lines forest.now top)
        (told_by W.written W.failures writer) result.answer (told_by W.written W.failures result.writer) }
    ensures same_references { W.references result.writer ≡ W.references writer }
{
    let mut lines = LineWriter {
        alloc,
        writer,
        indent: Vec::new(alloc),
        lines: Vec::new(alloc),
    };
    let answer = write_below(forest, top, &mut lines);
    let LineWriter { writer, .. } = lines;
    Answered { writer, answer }
}

/// Writes what stands in a node line by line, as the tests of html5lib print trees: a line for each node, `| ` and two spaces for each
/// node around it before what it is, as `<p>`, `"text"`, `<!-- comment -->` or `<!DOCTYPE html>`. An element's attributes follow in the
/// order of their names, and what stands in a template follows the line `content`. A line break of a text is a line break. The writer is
/// not flushed.
///
/// Errors: [`SerializeFault::Write`] and [`SerializeFault::Memory`], after a beginning of the lines was written. Who nests elements deeply
/// makes lines as long as they are deep.
pub fn write_tree<W: Target>(
    alloc: Global,
    forest: &Forest,
    top: NodeId,
    writer: &mut W,
) -> Result<(), SerializeFault>
    ensures writes { Writes (tree_lines forest.now top)
        (told_by W.written W.failures writer.old) result (told_by W.written W.failures writer.new) }
    ensures same_references { W.references writer.new ≡ W.references writer.old }
{
    list(alloc, forest, top, writer).answer
}
