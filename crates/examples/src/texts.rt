//! The text of a page, without its scripts and style sheets.

use crate::trees::tell;
use figpliers::{Attribute, QualName, References, SerializeFault, Serializer};
use std::alloc::Global;

/// Joins the texts that it is told.
#[derive(Drop)]
struct Texts {
    text: String,
    is_shown: bool,
}

/// Whether the text of an element is not to be shown. Such an element has nothing else in it.
fn is_hidden(name: &QualName) -> bool {
    matches!(name.local.as_str(), "script" | "style")
}

impl Serializer for Texts {
    ghost use Rattle.std.specs.Prelude.{Ok};

    ghost State = { Unit {0} };

    ghost view = { λ _. tt };

    ghost step = { λ s _. Ok s };

    ghost refuses = { λ _ _ _ _. Unit {0} };

    fn start_elem(&mut self, name: &QualName, _attrs: &[Attribute]) -> Result<(), SerializeFault> {
        if is_hidden(name) {
            self.is_shown = false;
        }
        Ok(())
    }

    fn end_elem(&mut self, name: &QualName) -> Result<(), SerializeFault> {
        if is_hidden(name) {
            self.is_shown = true;
        }
        Ok(())
    }

    fn write_text(&mut self, text: &str) -> Result<(), SerializeFault> {
        if self.is_shown {
            self.text.push_str(text)?;
        }
        Ok(())
    }

    fn write_comment(&mut self, _text: &str) -> Result<(), SerializeFault> {
        Ok(())
    }

    fn write_doctype(&mut self, _name: &str) -> Result<(), SerializeFault> {
        Ok(())
    }

    fn write_processing_instruction(
        &mut self,
        _target: &str,
        _contents: &str,
    ) -> Result<(), SerializeFault> {
        Ok(())
    }
}

pub fn text(alloc: Global, table: References, page: String) -> Result<String, SerializeFault> {
    let mut texts = Texts {
        text: String::new(alloc),
        is_shown: true,
    };
    tell(alloc, table, page, &mut texts)?;
    Ok(texts.text)
}
