//! Formatting elements that end (HTML Standard, section 13.2.6.4.7).
ghost use Rattle.std.specs.Prelude.{◌≡◌, IfErr, OnOk, codes};
ghost use Rattle.markup.specs.declared.fault.ParseFault.TheVariants.{Memory};
ghost use Rattle.html_rules.specs.Adoption.{adoption_agency, handle_misnested_a_tags};
ghost use Rattle.html_tree_builder.specs.States.{Stands, Performs};

use crate::construction::Construction;
use html_names::ElementClass;
use markup::{LocalName, ParseFault, TreeSink};

impl<Sink: TreeSink> Construction<Sink> {
    ghost use Rattle.html_names.specs.Classes.{IsClassOf};
    ghost use Rattle.html_rules.specs.Names.{Html};

    /// "Run the adoption agency algorithm" for a name.
    #[inline(always)]
    pub(crate) fn adoption_agency(
        &mut self,
        sink: &mut Sink,
        class: ElementClass,
        name: &LocalName,
    ) -> Result<(), ParseFault>
        requires class { IsClassOf Html name.now class }
        requires stands { Stands (Sink.forest sink.old) self.old }
        ensures ok { OnOk result (Performs (adoption_agency name.now) self.old self.new (Sink.forest sink.old) (Sink.forest sink.new)) }
        ensures fault { IfErr result (λ fault. fault ≡ Memory) }
    {
        self.stack
            .adoption_agency(sink, class, name, self.foster_parenting)?;
        Ok(())
    }

    /// The same for `nobr`.
    #[inline(never)]
    pub(crate) fn adopt_nobr(&mut self, sink: &mut Sink) -> Result<(), ParseFault>
        requires stands { Stands (Sink.forest sink.old) self.old }
        ensures ok { OnOk result (Performs (adoption_agency (codes "nobr")) self.old self.new (Sink.forest sink.old)
            (Sink.forest sink.new)) }
        ensures fault { IfErr result (λ fault. fault ≡ Memory) }
    {
        let name = LocalName::from_str(self.alloc, "nobr")?;
        let class = ElementClass::html(&name);
        self.adoption_agency(sink, class, &name)?;
        Ok(())
    }

    /// An `a` that is listed is closed.
    #[inline(never)]
    pub(crate) fn close_misnested_a(&mut self, sink: &mut Sink) -> Result<(), ParseFault>
        requires stands { Stands (Sink.forest sink.old) self.old }
        ensures ok { OnOk result (Performs handle_misnested_a_tags self.old self.new (Sink.forest sink.old) (Sink.forest sink.new)) }
        ensures fault { IfErr result (λ fault. fault ≡ Memory) }
    {
        self.stack
            .handle_misnested_a_tags(sink, self.foster_parenting)?;
        Ok(())
    }
}
