//! An outline of a page: its headings, in their order.

use crate::trees::tell;
use figpliers::{Attribute, QualName, References, SerializeFault, Serializer};
use std::alloc::Global;

/// A heading: `h1` has the level 1.
#[derive(Debug, Drop)]
pub struct Heading {
    pub level: u8,
    pub text: String,
}

/// Lists the headings that it is told. The last one may still go on.
#[derive(Drop)]
struct Headings {
    alloc: Global,
    headings: Vec<Heading>,
    current: Option<Heading>,
}

/// The level of a heading.
fn level_of(name: &QualName) -> Option<u8> {
    match name.local.as_str().as_bytes() {
        [b'h', level @ b'1'..=b'6'] => Some(level - b'0'),
        _ => None,
    }
}

impl Serializer for Headings {
    ghost use Rattle.std.specs.Prelude.{Ok};

    ghost State = { Unit {0} };

    ghost view = { λ _. tt };

    ghost step = { λ s _. Ok s };

    ghost refuses = { λ _ _ _ _. Unit {0} };

    fn start_elem(&mut self, name: &QualName, _attrs: &[Attribute]) -> Result<(), SerializeFault> {
        if let Some(level) = level_of(name) {
            let text = String::new(self.alloc);
            self.current = Some(Heading { level, text });
        }
        Ok(())
    }

    fn end_elem(&mut self, name: &QualName) -> Result<(), SerializeFault> {
        if level_of(name).is_some() {
            if let Some(heading) = self.current.take() {
                self.headings.push(heading)?;
            }
        }
        Ok(())
    }

    fn write_text(&mut self, text: &str) -> Result<(), SerializeFault> {
        if let Some(heading) = &mut self.current {
            heading.text.push_str(text)?;
        }
        Ok(())
    }

    fn write_comment(&mut self, _text: &str) -> Result<(), SerializeFault> {
        Ok(())
    }

    fn write_doctype(&mut self, _name: &str) -> Result<(), SerializeFault> {
        Ok(())
    }

    fn write_processing_instruction(
        &mut self,
        _target: &str,
        _contents: &str,
    ) -> Result<(), SerializeFault> {
        Ok(())
    }
}

pub fn outline(
    alloc: Global,
    table: References,
    page: String,
) -> Result<Vec<Heading>, SerializeFault> {
    let mut outline = Headings {
        alloc,
        headings: Vec::new(alloc),
        current: None,
    };
    tell(alloc, table, page, &mut outline)?;
    Ok(outline.headings)
}
