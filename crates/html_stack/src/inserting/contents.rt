//! Text, comments and the doctype are put into the tree (HTML Standard, sections 13.2.6.1 and 13.2.6.4.1).
ghost use Rattle.std.specs.Prelude.{◌≡◌, ◌≤◌, IfErr, OnErr, OnOk};
ghost use Rattle.markup.specs.Forest.{node_count, put, with_node};
ghost use Rattle.markup.specs.Forest.NodeData.{Comment};
ghost use Rattle.markup.specs.Named.{IsTree};
ghost use Rattle.markup.specs.declared.fault.ParseFault.TheVariants.{Memory};
ghost use Rattle.html_rules.specs.Places.{append_comment, append_comment_to_doc, append_comment_to_html};
ghost use Rattle.html_rules.specs.Places.{append_doctype_to_document, append_text, or_empty};
ghost use Rattle.html_rules.specs.State.{State};
ghost use Rattle.html_stack.specs.Inserting.{IsPoint, LeavesStanding, place_at};
ghost use Rattle.html_stack.specs.Stacks.{joined, StandsIn};

use crate::entries::InsertionPoint;
use crate::inserting::places::insert_at;
use crate::stack::Stack;
use html_tokens::Doctype;
use markup::{NodeOrText, ParseFault, Text, TreeSink};
use std::alloc::Global;

/// Makes a comment and puts it at a place.
fn put_comment<Sink: TreeSink>(
    sink: &mut Sink,
    point: InsertionPoint<Sink::Handle>,
    text: Text,
) -> Result<(), ParseFault>
    requires tree { IsTree (Sink.forest sink.old) }
    requires point { IsPoint Sink.node (Sink.forest sink.old) point }
    ensures ok { OnOk result (let made = with_node (Sink.forest sink.old) (Comment text) in
        Sink.forest sink.new ≡ put made (place_at Sink.node made point) (node_count (Sink.forest sink.old))) }
    ensures kept { LeavesStanding (Sink.forest sink.old) (Sink.forest sink.new) }
    ensures grows { node_count (Sink.forest sink.old) ≤ node_count (Sink.forest sink.new) }
    ensures fault { IfErr result (λ fault. fault ≡ Memory) }
{
    let comment = sink.create_comment(text)?;
    insert_at(sink, point, NodeOrText::AppendNode(comment))
}

/// A part of a doctype; a missing one is empty.
fn or_empty(alloc: Global, part: Option<Text>) -> Text
    ensures { result ≡ or_empty part }
{
    match part {
        Some(text) => text,
        None => Text::empty(alloc),
    }
}

impl<Sink: TreeSink> Stack<Sink> {
    /// Puts text at the appropriate place ("insert a character", for each of its characters). Text is handed on without a copy. On
    /// [`ParseFault::Memory`], the only fault, the tree is as it was.
    #[inline(always)]
    pub fn append_text(&self, sink: &mut Sink, text: Text, foster: bool) -> Result<(), ParseFault>
        requires { StandsIn (Sink.forest sink.old) self.now }
        ensures ok { OnOk result ((s : State) → s.foster_parenting ≡ foster
            → joined s self.now (Sink.forest sink.new) ≡ append_text text (joined s self.now (Sink.forest sink.old))) }
        ensures err { OnErr result (Sink.forest sink.new ≡ Sink.forest sink.old) }
        ensures kept { StandsIn (Sink.forest sink.new) self.now }
        ensures grows { node_count (Sink.forest sink.old) ≤ node_count (Sink.forest sink.new) }
        ensures fault { IfErr result (λ fault. fault ≡ Memory) }
    {
        let point = self.current_place(sink, foster);
        insert_at(sink, point, NodeOrText::AppendText(text))
    }

    /// Puts a comment at the appropriate place ("insert a comment"). On [`ParseFault::Memory`], the only fault, the comment may have been
    /// made without being put anywhere.
    pub fn append_comment(
        &self,
        sink: &mut Sink,
        text: Text,
        foster: bool,
    ) -> Result<(), ParseFault>
        requires { StandsIn (Sink.forest sink.old) self.now }
        ensures ok { OnOk result ((s : State) → s.foster_parenting ≡ foster
            → joined s self.now (Sink.forest sink.new) ≡ append_comment text (joined s self.now (Sink.forest sink.old))) }
        ensures kept { StandsIn (Sink.forest sink.new) self.now }
        ensures grows { node_count (Sink.forest sink.old) ≤ node_count (Sink.forest sink.new) }
        ensures fault { IfErr result (λ fault. fault ≡ Memory) }
    {
        let point = self.current_place(sink, foster);
        put_comment(sink, point, text)
    }

    /// Puts a comment last into the document. On [`ParseFault::Memory`], the only fault, it may have been made without being put anywhere.
    pub fn append_comment_to_doc(&self, sink: &mut Sink, text: Text) -> Result<(), ParseFault>
        requires { StandsIn (Sink.forest sink.old) self.now }
        ensures ok { OnOk result ((s : State) → joined s self.now (Sink.forest sink.new) ≡ append_comment_to_doc
            text (joined s self.now (Sink.forest sink.old))) }
        ensures kept { StandsIn (Sink.forest sink.new) self.now }
        ensures grows { node_count (Sink.forest sink.old) ≤ node_count (Sink.forest sink.new) }
        ensures fault { IfErr result (λ fault. fault ≡ Memory) }
    {
        let document = sink.get_document();
        put_comment(sink, InsertionPoint::LastChild(document), text)
    }

    /// Puts a comment last into the root. On [`ParseFault::Memory`], the only fault, it may have been made without being put anywhere.
    pub fn append_comment_to_html(&self, sink: &mut Sink, text: Text) -> Result<(), ParseFault>
        requires { StandsIn (Sink.forest sink.old) self.now }
        ensures ok { OnOk result ((s : State) → joined s self.now (Sink.forest sink.new) ≡ append_comment_to_html
            text (joined s self.now (Sink.forest sink.old))) }
        ensures kept { StandsIn (Sink.forest sink.new) self.now }
        ensures grows { node_count (Sink.forest sink.old) ≤ node_count (Sink.forest sink.new) }
        ensures fault { IfErr result (λ fault. fault ≡ Memory) }
    {
        let root = self.root_or_document(sink);
        put_comment(sink, InsertionPoint::LastChild(root), text)
    }

    /// Puts a doctype last into the document; missing parts are empty (HTML Standard, section 13.2.6.4.1). On [`ParseFault::Memory`], the
    /// only fault, the tree is as it was.
    #[tactic(auto, unfolding(html_rules::specs::Places::append_doctype_to_document))]
    pub fn append_doctype_to_document(
        &self,
        sink: &mut Sink,
        doctype: Doctype,
    ) -> Result<(), ParseFault>
        requires { StandsIn (Sink.forest sink.old) self.now }
        ensures ok { OnOk result ((s : State)
            → joined s self.now (Sink.forest sink.new) ≡ append_doctype_to_document doctype (joined s self.now (Sink.forest sink.old))) }
        ensures err { OnErr result (Sink.forest sink.new ≡ Sink.forest sink.old) }
        ensures kept { StandsIn (Sink.forest sink.new) self.now }
        ensures grows { node_count (Sink.forest sink.old) ≤ node_count (Sink.forest sink.new) }
        ensures fault { IfErr result (λ fault. fault ≡ Memory) }
    {
        let alloc = self.allocator();
        let name = or_empty(alloc, doctype.name);
        let public_id = or_empty(alloc, doctype.public_id);
        let system_id = or_empty(alloc, doctype.system_id);
        sink.append_doctype_to_document(name, public_id, system_id)
    }
}
