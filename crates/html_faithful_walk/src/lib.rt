//! Whether the document of a forest is faithful: whether what is written of it (HTML Standard, section 13.3) is read as just it (section
//! 13.2); and if it is not, where and why. One walk over its nodes, in the order in which they stand.
#![tactic(auto)]

mod checks;
mod common;
mod judge;
mod kinds;
mod known_kinds;
mod names;
mod parents;
mod reasons;
mod stand;
mod steps;
mod svg;
mod tags;
mod texts;
mod walker;

ghost use Rattle.std.specs.Prelude.{◌≡◌, IfErr, IfOk, IfSome, is_none};
ghost use Rattle.markup.specs.declared.fault.ParseFault.TheVariants.{Memory};
ghost use Rattle.html_faithful.specs.Walk.{is_faithful_forest};
ghost use Rattle.html_faithful_walk.specs.First.{IsFirst};

use html_forest::{Forest, NodeId};
use markup::ParseFault;
pub use reasons::{Unfaithful, why_unfaithful};
use std::alloc::Global;

/// Whether the document of a forest is faithful, where scripts run or do not: whether what is written of it is read as just it. The walk
/// takes memory for what is open, and for each tag in turn.
///
/// Errors: [`ParseFault::Memory`].
pub fn is_faithful(alloc: Global, forest: &Forest, scripting: bool) -> Result<bool, ParseFault>
    ensures ok { IfOk result (λ faithful. faithful ≡ is_faithful_forest scripting forest.now) }
    ensures fault { IfErr result (λ fault. fault ≡ Memory) }
{
    Ok(first_unfaithful(alloc, forest, scripting)?.is_none())
}

/// The first node of the document of a forest that is not read as it is written, where scripts run or do not: the first of whose start
/// something else is read, or, after what is in it, of whose end. It is the document itself where that may not end after its last node.
/// None where the document is faithful. [`why_unfaithful`] says why such a node is not read as it is written.
///
/// Errors: [`ParseFault::Memory`].
pub fn first_unfaithful(
    alloc: Global,
    forest: &Forest,
    scripting: bool,
) -> Result<Option<NodeId>, ParseFault>
    ensures ok { IfOk result (λ node. is_none node ≡ is_faithful_forest scripting forest.now) }
    ensures first { IfOk result (λ node. IfSome node (λ n. IsFirst scripting forest.now n)) }
    ensures fault { IfErr result (λ fault. fault ≡ Memory) }
{
    forest.keeps();
    walker::first_unfaithful(alloc, forest, scripting, NodeId::new(0))
}
