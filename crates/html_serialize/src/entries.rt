//! What the serializer keeps of the elements that have begun.
ghost use Rattle.std.specs.Prelude.{◌≡◌, ◌∷◌, [], OnOk, OnErr};
ghost use Rattle.markup.specs.Trees.{default_entry};

use std::alloc::{AllocError, Global};
use std::marker::Model;

/// How what stands under an element is written. A contract sees an entry of the definitions.
#[derive(Clone, Copy)]
pub(crate) struct ElemInfo {
    pub raw_text: bool,
    pub ignore_children: bool,
}

impl Model for ElemInfo {
    ghost use Rattle.markup.specs.Trees.{Entry};

    ghost Value = { Entry };

    ghost view = { λ info. record { raw_text = info.raw_text; ignores_children = info.ignore_children } };

    ghost inverse = { λ entry. record { raw_text = entry.raw_text; ignore_children = entry.ignores_children } };
}

impl ElemInfo {
    /// Around what stands under no element.
    pub(crate) fn none() -> ElemInfo
        ensures { result ≡ default_entry }
    {
        ElemInfo {
            raw_text: false,
            ignore_children: false,
        }
    }
}

/// The entries of the elements that have begun and not ended. A contract sees the list of them, the last one first.
#[derive(Drop)]
pub(crate) struct Entries {
    list: Vec<ElemInfo>,
}

impl Model for Entries {
    ghost use Rattle.std.specs.Prelude.{List, reverse};
    ghost use Rattle.markup.specs.Trees.{Entry};

    ghost Value = { List Entry };

    ghost view = { λ entries. reverse entries.list.items };
}

impl Entries {
    ghost use Rattle.std.specs.Prelude.{List, Option};
    ghost use Rattle.html_serialize.specs.Serializing.{first_of, rest_of};

    pub(crate) fn new(alloc: Global) -> Entries
        ensures { result ≡ [] }
    {
        Entries {
            list: Vec::new(alloc),
        }
    }

    pub(crate) fn last(&self) -> Option<ElemInfo>
        ensures { result ≡ first_of self.now }
    {
        self.list.last().copied()
    }

    pub(crate) fn push(&mut self, info: ElemInfo) -> Result<(), AllocError>
        ensures ok { OnOk result (self.new ≡ info ∷ self.old) }
        ensures err { OnErr result (self.new ≡ self.old) }
    {
        self.list.push(info)?;
        Ok(())
    }

    pub(crate) fn pop(&mut self) -> Option<ElemInfo>
        ensures last { result ≡ first_of self.old }
        ensures rest { self.new ≡ rest_of self.old }
    {
        self.list.pop()
    }
}
