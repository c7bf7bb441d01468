//! The serializer.
ghost use Rattle.std.specs.Prelude.{◌≡◌, ◌∷◌, [], IfOk, IfErr};
ghost use Rattle.markup.specs.declared.serializer.SerializeFault.TheVariants.{Memory};
ghost use Rattle.markup.specs.Calls.{calls_of};
ghost use Rattle.markup.specs.Trees.{Trees};
ghost use Rattle.html_serialize.specs.Puts.{told_by};
ghost use Rattle.html_serialize.specs.Serializing.{Serializes, Writes, bytes_in, entry_for, is_fatal, serializing_by, started};

use crate::calls;
use crate::entries::Entries;
use crate::names::first_entry;
use crate::opts::SerializeOpts;
use crate::put::{put_five, put_three};
use markup::devices::Target;
use markup::{Attribute, QualName, Serialize, SerializeFault, Serializer, TraversalScope};
use std::alloc::Global;

/// Writes elements, texts and the rest as HTML, call by call, to a writer (HTML Standard, section 13.3).
///
/// Want of memory and a failed write fail it: from then on each call answers `Failed` and writes nothing. A call that is
/// refused by `NoParent` or `NoElemInfo` has changed and written nothing.
#[derive(Drop)]
pub struct HtmlSerializer<Wr: Target> {
    /// Where the text goes.
    pub writer: Wr,
    scripting_enabled: bool,
    create_missing_parent: bool,
    stack: Entries,
    failed: bool,
}

/// Whether a call fails the serializer.
fn is_fatal(answer: &Result<(), SerializeFault>) -> bool
    ensures { result ≡ is_fatal answer.now }
{
    match answer {
        Err(SerializeFault::Write) | Err(SerializeFault::Memory) => true,
        _ => false,
    }
}

/// The entry around all that is written.
fn first_entries(
    alloc: Global,
    scripting: bool,
    scope: &TraversalScope,
) -> Result<Entries, SerializeFault>
    ensures ok { IfOk result (λ entries. entries ≡ entry_for scripting scope.now ∷ []) }
    ensures fault { IfErr result (λ fault. fault ≡ Memory) }
{
    let mut entries = Entries::new(alloc);
    entries.push(first_entry(scripting, scope))?;
    Ok(entries)
}

impl<Wr: Target + Drop> HtmlSerializer<Wr> {
    /// A serializer that has written nothing, in the scope of the options. Its entries grow in the memory of `alloc`; the
    /// only fault is `Memory`.
    pub fn new(
        alloc: Global,
        writer: Wr,
        opts: SerializeOpts,
    ) -> Result<HtmlSerializer<Wr>, SerializeFault>
        ensures started { IfOk result
            (λ made. serializing_by Wr.written Wr.failures made.writer made.scripting_enabled
            made.create_missing_parent made.stack made.failed ≡ started opts.scripting_enabled
            opts.create_missing_parent opts.traversal_scope (told_by Wr.written Wr.failures writer)) }
        ensures writer { IfOk result (λ made. made.writer ≡ writer) }
        ensures fault { IfErr result (λ fault. fault ≡ Memory) }
    {
        let stack = first_entries(alloc, opts.scripting_enabled, &opts.traversal_scope)?;
        Ok(HtmlSerializer {
            writer,
            scripting_enabled: opts.scripting_enabled,
            create_missing_parent: opts.create_missing_parent,
            stack,
            failed: false,
        })
    }
}

impl<Wr: Target> HtmlSerializer<Wr> {
    /// As [`HtmlSerializer::new`], but where memory is wanting the writer is given back.
    pub fn new_or_back(
        alloc: Global,
        writer: Wr,
        opts: SerializeOpts,
    ) -> Result<HtmlSerializer<Wr>, Wr>
        ensures started { IfOk result
            (λ made. serializing_by Wr.written Wr.failures made.writer made.scripting_enabled
            made.create_missing_parent made.stack made.failed ≡ started opts.scripting_enabled
            opts.create_missing_parent opts.traversal_scope (told_by Wr.written Wr.failures writer)) }
        ensures writer { IfOk result (λ made. made.writer ≡ writer) }
        ensures back { IfErr result (λ back. back ≡ writer) }
    {
        let scripting = opts.scripting_enabled;
        let creates = opts.create_missing_parent;
        match first_entries(alloc, scripting, &opts.traversal_scope) {
            Ok(stack) => Ok(HtmlSerializer {
                writer,
                scripting_enabled: scripting,
                create_missing_parent: creates,
                stack,
                failed: false,
            }),
            Err(_) => Err(writer),
        }
    }
}

impl<Wr: Target> Serializer for HtmlSerializer<Wr> {
    ghost use Rattle.html_serialize.specs.Serializing.{Serializing, refuses, serializing_by, step};

    ghost State = { Serializing };

    ghost view = { λ s. serializing_by Wr.written Wr.failures s.writer s.scripting_enabled s.create_missing_parent s.stack s.failed };

    ghost step = { step };

    ghost refuses = { refuses };

    ghost references = { λ s. Wr.references s.writer };

    fn start_elem(&mut self, name: &QualName, attrs: &[Attribute]) -> Result<(), SerializeFault> {
        if self.failed {
            return Err(SerializeFault::Failed);
        }
        let answer = calls::start_elem(
            &mut self.writer,
            &mut self.stack,
            self.create_missing_parent,
            self.scripting_enabled,
            name,
            attrs,
        );
        self.failed = is_fatal(&answer);
        answer
    }

    fn end_elem(&mut self, name: &QualName) -> Result<(), SerializeFault> {
        if self.failed {
            return Err(SerializeFault::Failed);
        }
        let answer = calls::end_elem(
            &mut self.writer,
            &mut self.stack,
            self.create_missing_parent,
            name,
        );
        self.failed = is_fatal(&answer);
        answer
    }

    fn write_text(&mut self, text: &str) -> Result<(), SerializeFault> {
        if self.failed {
            return Err(SerializeFault::Failed);
        }
        let answer = calls::write_text(
            &mut self.writer,
            &mut self.stack,
            self.create_missing_parent,
            text,
        );
        self.failed = is_fatal(&answer);
        answer
    }

    fn write_comment(&mut self, text: &str) -> Result<(), SerializeFault> {
        if self.failed {
            return Err(SerializeFault::Failed);
        }
        let answer = put_three(&mut self.writer, "<!--", text, "-->");
        self.failed = is_fatal(&answer);
        answer
    }

    fn write_doctype(&mut self, name: &str) -> Result<(), SerializeFault> {
        if self.failed {
            return Err(SerializeFault::Failed);
        }
        let answer = put_three(&mut self.writer, "<!DOCTYPE ", name, ">");
        self.failed = is_fatal(&answer);
        answer
    }

    fn write_processing_instruction(
        &mut self,
        target: &str,
        data: &str,
    ) -> Result<(), SerializeFault> {
        if self.failed {
            return Err(SerializeFault::Failed);
        }
        let answer = put_five(&mut self.writer, "<?", target, " ", data, ">");
        self.failed = is_fatal(&answer);
        answer
    }
}

/// A writer after a walk, with the walk's answer.
#[derive(Drop)]
struct Walked<Wr> {
    writer: Wr,
    answer: Result<(), SerializeFault>,
}

/// Writes a node of a tree, or what stands in it, and gives the writer back.
fn walk<Wr: Target, T: Serialize>(
    alloc: Global,
    writer: Wr,
    node: &T,
    opts: SerializeOpts,
) -> Walked<Wr>
    ensures serializes { Serializes opts.scripting_enabled opts.create_missing_parent opts.traversal_scope
        (T.calls node.now opts.traversal_scope) (told_by Wr.written Wr.failures writer) result.answer
        (told_by Wr.written Wr.failures result.writer) }
    ensures same_references { Wr.references result.writer ≡ Wr.references writer }
{
    let SerializeOpts {
        scripting_enabled,
        traversal_scope,
        create_missing_parent,
    } = opts;
    match first_entries(alloc, scripting_enabled, &traversal_scope) {
        Err(fault) => Walked {
            writer,
            answer: Err(fault),
        },
        Ok(stack) => {
            let mut serializer = HtmlSerializer {
                writer,
                scripting_enabled,
                create_missing_parent,
                stack,
                failed: false,
            };
            let answer = node.serialize(alloc, &mut serializer, traversal_scope);
            let HtmlSerializer { writer, .. } = serializer;
            Walked { writer, answer }
        }
    }
}

/// Writes a node of a tree, or what stands in it, as HTML. Once a call of the node's walk is refused, or a write fails, a
/// beginning of the text was written.
pub fn serialize<Wr: Target, T: Serialize>(
    alloc: Global,
    writer: &mut Wr,
    node: &T,
    opts: SerializeOpts,
) -> Result<(), SerializeFault>
    ensures text { (trees : Trees) → T.calls node.now opts.traversal_scope ≡ calls_of trees
        → Writes (bytes_in opts.scripting_enabled opts.traversal_scope trees)
        (told_by Wr.written Wr.failures writer.old) result (told_by Wr.written Wr.failures writer.new) }
    ensures serializes { Serializes opts.scripting_enabled opts.create_missing_parent opts.traversal_scope
        (T.calls node.now opts.traversal_scope) (told_by Wr.written Wr.failures writer.old) result
        (told_by Wr.written Wr.failures writer.new) }
    ensures same_references { Wr.references writer.new ≡ Wr.references writer.old }
{
    walk(alloc, writer, node, opts).answer
}
