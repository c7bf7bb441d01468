//! Where the links of a page lead: the `href` of each `a`, in their order.

use crate::trees::tell;
use figpliers::{Attribute, KnownNamespace, QualName, References, SerializeFault, Serializer};
use std::alloc::Global;

/// Lists the links that it is told.
#[derive(Drop)]
struct LinkList {
    alloc: Global,
    links: Vec<String>,
}

impl Serializer for LinkList {
    ghost use Rattle.std.specs.Prelude.{Ok};

    ghost State = { Unit {0} };

    ghost view = { λ _. tt };

    ghost step = { λ s _. Ok s };

    ghost refuses = { λ _ _ _ _. Unit {0} };

    fn start_elem(&mut self, name: &QualName, attrs: &[Attribute]) -> Result<(), SerializeFault> {
        if !name.ns.is_known(KnownNamespace::Html) || name.local.as_str() != "a" {
            return Ok(());
        }
        for attribute in attrs {
            if attribute.name.local.as_str() == "href" {
                let link = String::from_str(self.alloc, attribute.value.as_str())?;
                self.links.push(link)?;
            }
        }
        Ok(())
    }

    fn end_elem(&mut self, _name: &QualName) -> Result<(), SerializeFault> {
        Ok(())
    }

    fn write_text(&mut self, _text: &str) -> Result<(), SerializeFault> {
        Ok(())
    }

    fn write_comment(&mut self, _text: &str) -> Result<(), SerializeFault> {
        Ok(())
    }

    fn write_doctype(&mut self, _name: &str) -> Result<(), SerializeFault> {
        Ok(())
    }

    fn write_processing_instruction(
        &mut self,
        _target: &str,
        _contents: &str,
    ) -> Result<(), SerializeFault> {
        Ok(())
    }
}

pub fn links(
    alloc: Global,
    table: References,
    page: String,
) -> Result<Vec<String>, SerializeFault> {
    let mut links = LinkList {
        alloc,
        links: Vec::new(alloc),
    };
    tell(alloc, table, page, &mut links)?;
    Ok(links.links)
}
