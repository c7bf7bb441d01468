//! Whether two trees are told a serializer alike.
ghost use Rattle.std.specs.Prelude.{◌≡◌, ◌++◌, ◌∷◌, [], IfErr, IfOk, None, OnOk};
ghost use Rattle.std.specs.Bool.{Decides};
ghost use Rattle.std.specs.Str.{chars};
ghost use Rattle.markup.specs.Calls.{calls_of};
ghost use Rattle.markup.specs.declared.serializer.SerializeFault.TheVariants.{Memory};
ghost use Rattle.markup.specs.declared.serializer.TraversalScope.TheVariants.{ChildrenOnly};
ghost use Rattle.html_forest.specs.Walk.{walked};
ghost use Rattle.html_nodes.specs.Calls.{all_told, no_name, told};

use html_forest::{Forest, ForestNode, NodeId};
use markup::{
    Attribute, Attributes, LocalName, Namespace, QualName, Serialize, SerializeFault, Serializer,
    Text, TraversalScope,
};
use std::alloc::Global;

/// A call of a serializer. What it doesn't have is empty.
#[derive(Drop)]
pub(crate) struct SeenCall {
    kind: u8,
    name: QualName,
    attributes: Attributes,
    text: Text,
    more: Text,
}

impl PartialEq for SeenCall {
    ghost use Rattle.std.specs.Cmp.{partial_equiv_from_equiv};
    ghost use Rattle.html_nodes.specs.Calls.{same_told, told_equivalence};

    ghost eq = { same_told };

    ghost laws = { partial_equiv_from_equiv told_equivalence };

    fn eq(&self, other: &SeenCall) -> bool {
        self.kind == other.kind
            && self.name == other.name
            && self.attributes == other.attributes
            && self.text == other.text
            && self.more == other.more
    }
}

/// Keeps each call that it is told.
#[derive(Drop)]
struct Keeper {
    alloc: Global,
    told: Vec<SeenCall>,
}

impl Keeper {
    // Keeps an element's call.
    fn keep_element(
        &mut self,
        kind: u8,
        name: &QualName,
        attrs: &[Attribute],
    ) -> Result<(), SerializeFault>
        ensures ok { OnOk result (self.new.told.items ≡ self.old.told.items ++ told kind name.now attrs.now [] [] ∷ []) }
        ensures fault { IfErr result (λ fault. fault ≡ Memory) }
    {
        let Ok(name) = name.copy(self.alloc) else {
            return Err(SerializeFault::Memory);
        };
        let attributes = copied(self.alloc, attrs)?;
        self.told.push(SeenCall {
            kind,
            name,
            attributes,
            text: Text::empty(self.alloc),
            more: Text::empty(self.alloc),
        })?;
        Ok(())
    }

    // Keeps a call that has one text or two.
    fn keep_text(&mut self, kind: u8, text: &str, more: Text) -> Result<(), SerializeFault>
        ensures ok { OnOk result (self.new.told.items ≡ self.old.told.items ++ told kind no_name [] (chars text.now) more ∷ []) }
        ensures fault { IfErr result (λ fault. fault ≡ Memory) }
    {
        let text = text_of(self.alloc, text)?;
        let name = QualName::new(None, Namespace::none(), LocalName::empty(self.alloc));
        self.told.push(SeenCall {
            kind,
            name,
            attributes: Attributes::new(self.alloc),
            text,
            more,
        })?;
        Ok(())
    }
}

// Attributes of their own.
fn copied(alloc: Global, attrs: &[Attribute]) -> Result<Attributes, SerializeFault>
    ensures ok { IfOk result (λ made. made ≡ attrs.now) }
    ensures fault { IfErr result (λ fault. fault ≡ Memory) }
{
    let mut list = Vec::new(alloc);
    for attribute in attrs {
        let Ok(copy) = attribute.copy(alloc) else {
            return Err(SerializeFault::Memory);
        };
        list.push(copy)?;
    }
    Ok(Attributes::from_vec(list))
}

// A text of its own.
fn text_of(alloc: Global, text: &str) -> Result<Text, SerializeFault>
    ensures ok { IfOk result (λ made. made ≡ chars text.now) }
    ensures fault { IfErr result (λ fault. fault ≡ Memory) }
{
    match Text::from_str(alloc, text) {
        Ok(made) => Ok(made),
        Err(_) => Err(SerializeFault::Memory),
    }
}

impl Serializer for Keeper {
    ghost use Rattle.std.specs.Prelude.{List};
    ghost use Rattle.html_nodes.specs.Calls.{kept};
    ghost use Rattle.html_nodes.specs.declared.alike.SeenCall.{SeenCall};

    ghost State = { List SeenCall };

    ghost view = { λ keeper. keeper.told.items };

    ghost step = { kept };

    ghost refuses = { λ _ _ fault _. fault ≡ Memory };

    fn start_elem(&mut self, name: &QualName, attrs: &[Attribute]) -> Result<(), SerializeFault> {
        self.keep_element(0, name, attrs)
    }

    fn end_elem(&mut self, name: &QualName) -> Result<(), SerializeFault> {
        self.keep_element(1, name, &[])
    }

    fn write_text(&mut self, text: &str) -> Result<(), SerializeFault> {
        let none = Text::empty(self.alloc);
        self.keep_text(2, text, none)
    }

    fn write_comment(&mut self, text: &str) -> Result<(), SerializeFault> {
        let none = Text::empty(self.alloc);
        self.keep_text(3, text, none)
    }

    fn write_doctype(&mut self, name: &str) -> Result<(), SerializeFault> {
        let none = Text::empty(self.alloc);
        self.keep_text(4, name, none)
    }

    fn write_processing_instruction(
        &mut self,
        target: &str,
        contents: &str,
    ) -> Result<(), SerializeFault> {
        let more = text_of(self.alloc, contents)?;
        self.keep_text(5, target, more)
    }
}

// All that a serializer is told of what stands in a node.
fn told_below(alloc: Global, forest: &Forest, id: NodeId) -> Result<Vec<SeenCall>, SerializeFault>
    ensures ok { IfOk result (λ made. made.items ≡ all_told (calls_of (walked forest.now id (ChildrenOnly None)))) }
    ensures fault { IfErr result (λ fault. fault ≡ Memory) }
{
    let mut keeper = Keeper {
        alloc,
        told: Vec::new(alloc),
    };
    let node = ForestNode { forest, id };
    node.serialize(alloc, &mut keeper, TraversalScope::ChildrenOnly(None))?;
    Ok(keeper.told)
}

/// Whether a serializer is told the same of what stands in a node as of what stands in another one, be it of another forest: the same
/// elements, with the same names and attributes in the same order, texts, comments, processing instructions and names of doctypes. The
/// identifiers of doctypes are not told.
///
/// Takes memory for what is told of both.
///
/// Errors: [`SerializeFault::Memory`].
pub fn are_told_alike(
    alloc: Global,
    first: &Forest,
    first_top: NodeId,
    second: &Forest,
    second_top: NodeId,
) -> Result<bool, SerializeFault>
    ensures ok { IfOk result (λ alike. Decides alike
        (calls_of (walked first.now first_top (ChildrenOnly None)) ≡ calls_of (walked second.now second_top (ChildrenOnly None)))) }
    ensures fault { IfErr result (λ fault. fault ≡ Memory) }
{
    let first = told_below(alloc, first, first_top)?;
    let second = told_below(alloc, second, second_top)?;
    Ok(first.as_slice() == second.as_slice())
}
