//! Text of a table that waited (HTML Standard, section 13.2.6.4.10).
ghost use Rattle.std.specs.Prelude.{◌≡◌, IfErr, OnOk};
ghost use Rattle.std.specs.Str.{chars};
ghost use Rattle.markup.specs.declared.fault.ParseFault.TheVariants.{Memory};
ghost use Rattle.html_rules.specs.Actions.{append_in_body, insert_pending_text, insert_table_text};
ghost use Rattle.html_tree_builder.specs.Acting.{foster_text};
ghost use Rattle.html_tree_builder.specs.States.{Stands, Performs};

use crate::construction::Construction;
use crate::errors;
use crate::told::is_white;
use markup::{ParseFault, Text, TreeSink};

impl<Sink: TreeSink> Construction<Sink> {
    /// Characters, by the rules for a body.
    fn append_in_body(&mut self, sink: &mut Sink, text: &str) -> Result<(), ParseFault>
        requires stands { Stands (Sink.forest sink.old) self.old }
        ensures ok { OnOk result (Performs (append_in_body (chars text.now)) self.old self.new
            (Sink.forest sink.old) (Sink.forest sink.new)) }
        ensures fault { IfErr result (λ fault. fault ≡ Memory) }
    {
        let text = Text::from_str(self.alloc, text)?;
        self.append_own_in_body(sink, text)
    }

    /// The same of characters that are handed on.
    #[inline(always)]
    pub(crate) fn append_own_in_body(
        &mut self,
        sink: &mut Sink,
        text: Text,
    ) -> Result<(), ParseFault>
        requires stands { Stands (Sink.forest sink.old) self.old }
        ensures ok { OnOk result (Performs (append_in_body text) self.old self.new (Sink.forest sink.old) (Sink.forest sink.new)) }
        ensures fault { IfErr result (λ fault. fault ≡ Memory) }
    {
        self.reconstruct(sink)?;
        self.frameset_not_ok_unless_white(text.as_str());
        self.append_own_text(sink, text)
    }

    /// Characters that belong nowhere in a table are fostered, with an error.
    fn foster_text(&mut self, sink: &mut Sink, text: &str) -> Result<(), ParseFault>
        requires stands { Stands (Sink.forest sink.old) self.old }
        ensures ok { OnOk result (Performs (foster_text (chars text.now)) self.old self.new (Sink.forest sink.old) (Sink.forest sink.new)) }
        ensures fault { IfErr result (λ fault. fault ≡ Memory) }
    {
        sink.parse_error(errors::text_in_table());
        self.set_foster_parenting(true);
        self.append_in_body(sink, text)?;
        self.set_foster_parenting(false);
        Ok(())
    }

    /// Text of a table goes where it belongs: white space is appended, any other text is fostered.
    fn insert_table_text(&mut self, sink: &mut Sink, text: &str) -> Result<(), ParseFault>
        requires stands { Stands (Sink.forest sink.old) self.old }
        ensures ok { OnOk result (Performs (insert_table_text (chars text.now)) self.old self.new
            (Sink.forest sink.old) (Sink.forest sink.new)) }
        ensures fault { IfErr result (λ fault. fault ≡ Memory) }
    {
        if is_white(text) {
            return self.append_text(sink, text);
        }
        self.foster_text(sink, text)
    }

    /// The pending table character tokens go where the table's text goes.
    #[inline(never)]
    pub(crate) fn insert_pending_text(&mut self, sink: &mut Sink) -> Result<(), ParseFault>
        requires stands { Stands (Sink.forest sink.old) self.old }
        ensures ok { OnOk result (Performs insert_pending_text self.old self.new (Sink.forest sink.old) (Sink.forest sink.new)) }
        ensures fault { IfErr result (λ fault. fault ≡ Memory) }
    {
        let text = self.pending_table_text.copy(self.alloc)?;
        self.insert_table_text(sink, text.as_str())?;
        self.pending_table_text.clear();
        Ok(())
    }
}
