//! How a tokenizer is set up.
ghost use Rattle.std.specs.Prelude.{◌≡◌, IfOk, IfErr};
ghost use Rattle.markup.specs.declared.fault.ParseFault.TheVariants.{Memory};

use crate::states::State;
use crate::token::copied;
use markup::{ParseFault, Text};
use std::alloc::Global;

/// How a tokenizer is set up.
#[derive(Debug, Drop)]
pub struct TokenizerOpts {
    /// Whether control characters and noncharacters of the input are told as parse errors too. Not set by default.
    pub exact_errors: bool,
    /// Whether U+FEFF at the very front of the input is dropped. Set by default.
    pub discard_bom: bool,
    /// The text state in which reading begins, `Data` if there is none. By default there is none.
    pub initial_state: Option<State>,
    /// What counts as the name of the last start tag until one is told. By default there is none.
    pub last_start_tag_name: Option<Text>,
}

impl Default for TokenizerOpts {
    ghost use Rattle.std.specs.Prelude.{◌≡◌, true, false, None};

    ghost is_default = { λ opts. opts ≡ record {
      exact_errors = false;
      discard_bom = true;
      initial_state = None;
      last_start_tag_name = None;
    } };

    fn default() -> TokenizerOpts {
        TokenizerOpts {
            exact_errors: false,
            discard_bom: true,
            initial_state: None,
            last_start_tag_name: None,
        }
    }
}

impl TokenizerOpts {
    /// Options of their own with the same values.
    pub fn copy(&self, alloc: Global) -> Result<TokenizerOpts, ParseFault>
        ensures ok { IfOk result (λ copied. copied ≡ self.now) }
        ensures fault { IfErr result (λ fault. fault ≡ Memory) }
    {
        Ok(TokenizerOpts {
            exact_errors: self.exact_errors,
            discard_bom: self.discard_bom,
            initial_state: self.initial_state,
            last_start_tag_name: copied(alloc, &self.last_start_tag_name)?,
        })
    }
}
