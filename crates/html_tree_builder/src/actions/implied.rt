//! What is inserted under another name than the token's, or without a token (HTML Standard, sections 13.2.6.1 and 13.2.6.4.7).
ghost use Rattle.std.specs.Prelude.{◌≡◌, ◌∷◌, [], false, IfErr, IfOk, OnOk};
ghost use Rattle.markup.specs.declared.fault.ParseFault.TheVariants.{Memory};
ghost use Rattle.html_modes.specs.Tables.{spelled};
ghost use Rattle.html_rules.specs.Actions.{for_tag};
ghost use Rattle.html_rules.specs.Names.{Html};
ghost use Rattle.html_rules.specs.Places.{append_text, insert_and_pop_element_for, put_element};
ghost use Rattle.html_tokens.specs.declared.tags.Tag.{Tag};
ghost use Rattle.html_tree_builder.specs.States.{Stands, Performs};
ghost use Rattle.html_tree_builder.specs.Told.{token_of};

use crate::construction::Construction;
use crate::told::{Content, NamedToken};
use html_modes::Implied;
use html_names::ElementClass;
use html_tokens::{Tag, TagKind};
use markup::{Attributes, ParseFault, Text, TreeSink};
use std::alloc::Global;

/// A tag under another name.
fn renamed(alloc: Global, tag: &Tag, name: Implied) -> Result<Tag, ParseFault>
    ensures ok { IfOk result (λ made. made ≡ record tag.now { name = spelled name }) }
    ensures fault { IfErr result (λ fault. fault ≡ Memory) }
{
    let attrs = tag.attrs.copy(alloc)?;
    Ok(Tag {
        kind: tag.kind,
        name: name.local_name(alloc)?,
        self_closing: tag.self_closing,
        attrs,
        had_duplicate_attributes: tag.had_duplicate_attributes,
    })
}

impl<Sink: TreeSink> Construction<Sink> {
    /// A tag's element is inserted under another name, and popped at once.
    #[inline(never)]
    pub(crate) fn insert_void_as(
        &mut self,
        sink: &mut Sink,
        name: Implied,
        told: &NamedToken<'_>,
    ) -> Result<(), ParseFault>
        requires stands { Stands (Sink.forest sink.old) self.old }
        ensures ok { OnOk result (Performs
            (for_tag (λ tag. insert_and_pop_element_for (record tag { name = spelled name }))
            (token_of told.now.content)) self.old self.new (Sink.forest sink.old) (Sink.forest sink.new)) }
        ensures fault { IfErr result (λ fault. fault ≡ Memory) }
    {
        let Content::Tag(tag) = told.content else {
            return Ok(());
        };
        let tag = renamed(self.alloc, tag, name)?;
        let class = ElementClass::html(&tag.name);
        self.stack
            .insert_and_pop_element_for(sink, class, tag, self.foster_parenting, self.form_elem)?;
        Ok(())
    }

    /// An element is inserted without a tag of its own, and popped at once.
    #[inline(never)]
    pub(crate) fn insert_new_void(
        &mut self,
        sink: &mut Sink,
        name: Implied,
    ) -> Result<(), ParseFault>
        requires stands { Stands (Sink.forest sink.old) self.old }
        ensures ok { OnOk result (Performs (put_element Html (spelled name) [] false) self.old self.new
            (Sink.forest sink.old) (Sink.forest sink.new)) }
        ensures fault { IfErr result (λ fault. fault ≡ Memory) }
    {
        let name = name.local_name(self.alloc)?;
        let class = ElementClass::html(&name);
        let attrs = Attributes::new(self.alloc);
        let tag = Tag {
            kind: TagKind::StartTag,
            name,
            self_closing: false,
            attrs,
            had_duplicate_attributes: false,
        };
        self.stack
            .insert_and_pop_element_for(sink, class, tag, self.foster_parenting, self.form_elem)?;
        Ok(())
    }

    /// U+FFFD is put at the appropriate place.
    #[inline(never)]
    pub(crate) fn append_replacement(&mut self, sink: &mut Sink) -> Result<(), ParseFault>
        requires stands { Stands (Sink.forest sink.old) self.old }
        ensures ok { OnOk result (Performs (append_text (0xFFFD ∷ [])) self.old self.new (Sink.forest sink.old) (Sink.forest sink.new)) }
        ensures fault { IfErr result (λ fault. fault ≡ Memory) }
    {
        let mut text = Text::empty(self.alloc);
        text.push('\u{FFFD}')?;
        self.stack.append_text(sink, text, self.foster_parenting)?;
        Ok(())
    }
}
