//! The interface of who writes a tree, and of what is written.
ghost use Rattle.std.specs.Prelude.{◌≡◌, ℕ, List, [], IfOk, IfErr};
ghost use Rattle.markup.specs.declared.attributes.Attribute.{Attribute};

use crate::attributes::Attribute;
use crate::fault::ParseFault;
use crate::names::QualName;
use std::alloc::{AllocError, AllocFailed, Global};
use thiserror::Error;

/// Why writing a tree gave up.
#[derive(Clone, Copy, Debug, PartialEq, Eq, Hash, Error)]
pub enum SerializeFault {
    /// The writer failed. A beginning of the text was written.
    #[error("the writer failed")]
    Write = 1,
    /// An element or a text has no element around it.
    #[error("an element or a text has no element around it")]
    NoParent = 2,
    /// The end of an element that was not begun.
    #[error("the end of an element that was not begun")]
    NoElemInfo = 3,
    /// No memory was left.
    #[error("no memory was left")]
    Memory = 4,
    /// An earlier call gave up by `Write` or `Memory`, and the serializer serves no more.
    #[error("an earlier call gave up")]
    Failed = 5,
}

impl From<AllocError> for SerializeFault {
    ghost use Rattle.std.specs.Prelude.{◌≡◌};
    ghost use Rattle.markup.specs.declared.serializer.SerializeFault.TheVariants.{Memory};

    ghost from_gives = { λ _ fault. fault ≡ Memory };

    fn from(_error: AllocError) -> SerializeFault {
        SerializeFault::Memory
    }
}

impl<T: Drop> From<AllocFailed<T>> for SerializeFault {
    ghost use Rattle.std.specs.Prelude.{◌≡◌};
    ghost use Rattle.markup.specs.declared.serializer.SerializeFault.TheVariants.{Memory};

    ghost from_gives = { λ _ fault. fault ≡ Memory };

    fn from(_error: AllocFailed<T>) -> SerializeFault {
        SerializeFault::from(AllocError)
    }
}

impl From<ParseFault> for SerializeFault {
    ghost use Rattle.std.specs.Prelude.{◌≡◌};
    ghost use Rattle.markup.specs.Calls.{serialize_fault_of};

    ghost from_gives = { λ fault passed_on. passed_on ≡ serialize_fault_of fault };

    /// For a tree whose reading may give up as parsing does: a fault other than `Memory` is passed on as `Failed`.
    fn from(error: ParseFault) -> SerializeFault {
        match error {
            ParseFault::Memory => SerializeFault::Memory,
            _ => SerializeFault::Failed,
        }
    }
}

/// What of a node is written.
#[derive(Debug, Drop, PartialEq, Eq)]
pub enum TraversalScope {
    /// The node, and what stands in it.
    IncludeNode,
    /// What stands in the node; and the name of the element that it is taken to stand in, which says how text is written.
    ChildrenOnly(Option<QualName>),
}

impl TraversalScope {
    ghost use Rattle.markup.specs.declared.fault.ParseFault.TheVariants.{Memory};

    /// The same scope, with a name of its own.
    pub fn copy(&self, alloc: Global) -> Result<TraversalScope, ParseFault>
        ensures ok { IfOk result (λ copied. copied ≡ self.now) }
        ensures fault { IfErr result (λ fault. fault ≡ Memory) }
    {
        match self {
            TraversalScope::IncludeNode => Ok(TraversalScope::IncludeNode),
            TraversalScope::ChildrenOnly(None) => Ok(TraversalScope::ChildrenOnly(None)),
            TraversalScope::ChildrenOnly(Some(name)) => {
                Ok(TraversalScope::ChildrenOnly(Some(name.copy(alloc)?)))
            }
        }
    }
}

/// Who writes what it is told of a tree, call by call.
///
/// Contracts see a serializer as a state, and a step for each call.
pub trait Serializer {
    ghost use Rattle.markup.specs.Calls.{Step, Refuses, Answers};
    ghost use Rattle.markup.specs.Calls.Call.{StartElem, EndElem, WriteText, WriteComment, WriteDoctype, WriteProcessingInstruction};
    ghost use Rattle.std.specs.Str.{chars};

    // What a serializer stands for.
    ghost State: { Type 0 };

    ghost view: { Self → State };

    // What a call makes of a state, or why the state refuses it.
    ghost step: { Step State };

    // What a refused call leaves, where it is refused with a fault.
    ghost refuses: { Refuses State };

    // The names of the `&mut`s that the serializer works through. No call changes them, so what they point to is known
    // once they end.
    ghost references: { Self → List ℕ } = { λ _. [] };

    /// An element begins, with its attributes.
    fn start_elem(&mut self, name: &QualName, attrs: &[Attribute]) -> Result<(), SerializeFault>
        ensures answers { Answers step refuses (view self.old) (StartElem name.now attrs.now) result (view self.new) }
        ensures same_references { references self.new ≡ references self.old };

    /// The element that began last, and has not ended, ends.
    fn end_elem(&mut self, name: &QualName) -> Result<(), SerializeFault>
        ensures answers { Answers step refuses (view self.old) (EndElem name.now) result (view self.new) }
        ensures same_references { references self.new ≡ references self.old };

    /// A text.
    fn write_text(&mut self, text: &str) -> Result<(), SerializeFault>
        ensures answers { Answers step refuses (view self.old) (WriteText (chars text.now)) result (view self.new) }
        ensures same_references { references self.new ≡ references self.old };

    /// A comment.
    fn write_comment(&mut self, text: &str) -> Result<(), SerializeFault>
        ensures answers { Answers step refuses (view self.old) (WriteComment (chars text.now)) result (view self.new) }
        ensures same_references { references self.new ≡ references self.old };

    /// A doctype, by its name.
    fn write_doctype(&mut self, name: &str) -> Result<(), SerializeFault>
        ensures answers { Answers step refuses (view self.old) (WriteDoctype (chars name.now)) result (view self.new) }
        ensures same_references { references self.new ≡ references self.old };

    /// A processing instruction.
    fn write_processing_instruction(
        &mut self,
        target: &str,
        contents: &str,
    ) -> Result<(), SerializeFault>
        ensures answers { Answers step refuses (view self.old)
            (WriteProcessingInstruction (chars target.now) (chars contents.now)) result (view self.new) }
        ensures same_references { references self.new ≡ references self.old };
}

/// What can be told to a serializer, as a node of a tree.
///
/// Contracts see the calls of its walk.
pub trait Serialize {
    ghost use Rattle.markup.specs.Calls.{Call, Walks};
    ghost use Rattle.markup.specs.declared.serializer.TraversalScope.{TraversalScope};

    // What a walk calls, in order.
    ghost calls: { Self → TraversalScope → List Call };

    /// Makes the calls in order, up to the first that is refused, with whose fault it answers; or up to where memory of its own was wanted.
    fn serialize<S: Serializer>(
        &self,
        alloc: Global,
        serializer: &mut S,
        scope: TraversalScope,
    ) -> Result<(), SerializeFault>
        ensures walks { Walks S.step S.refuses (S.view serializer.old) (calls self.now scope) result (S.view serializer.new) }
        ensures same_references { S.references serializer.new ≡ S.references serializer.old };
}
