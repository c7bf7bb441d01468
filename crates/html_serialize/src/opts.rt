//! Options of the serializer.
ghost use Rattle.std.specs.Prelude.{◌≡◌, IfOk, IfErr};
ghost use Rattle.markup.specs.declared.fault.ParseFault.TheVariants.{Memory};

use markup::{ParseFault, TraversalScope};
use std::alloc::Global;

/// Options of the serializer.
#[derive(Debug, Drop)]
pub struct SerializeOpts {
    /// Whether scripts run, so that the text of `noscript` is written as it is. By default they do.
    pub scripting_enabled: bool,
    /// What of the node is written. By default what stands in it.
    pub traversal_scope: TraversalScope,
    /// Whether calls that have no element around them are taken, as though there were one, in place of being refused. By
    /// default they are refused.
    pub create_missing_parent: bool,
}

impl SerializeOpts {
    /// The same options, with a name of their own.
    pub fn copy(&self, alloc: Global) -> Result<SerializeOpts, ParseFault>
        ensures ok { IfOk result (λ copied. copied ≡ self.now) }
        ensures fault { IfErr result (λ fault. fault ≡ Memory) }
    {
        Ok(SerializeOpts {
            scripting_enabled: self.scripting_enabled,
            traversal_scope: self.traversal_scope.copy(alloc)?,
            create_missing_parent: self.create_missing_parent,
        })
    }
}

impl Default for SerializeOpts {
    ghost use Rattle.std.specs.Prelude.{◌≡◌, true, false, None};
    ghost use Rattle.markup.specs.declared.serializer.TraversalScope.TheVariants.{ChildrenOnly};

    fn default() -> SerializeOpts
        ensures { result ≡ record { scripting_enabled = true; traversal_scope = ChildrenOnly None; create_missing_parent = false } }
    {
        SerializeOpts {
            scripting_enabled: true,
            traversal_scope: TraversalScope::ChildrenOnly(None),
            create_missing_parent: false,
        }
    }
}
