//! How a parser is set up.
ghost use Rattle.std.specs.Prelude.{◌≡◌, IfErr, IfOk};
ghost use Rattle.markup.specs.declared.fault.ParseFault.TheVariants.{Memory};

use html_tokenizer::TokenizerOpts;
use html_tree_builder::TreeBuilderOpts;
use markup::ParseFault;
use std::alloc::Global;

/// How a parser is set up: its tokenizer, and its tree builder.
#[derive(Debug, Drop)]
pub struct ParseOpts {
    /// How the tokenizer is set up.
    pub tokenizer: TokenizerOpts,
    /// How the tree builder is set up.
    pub tree_builder: TreeBuilderOpts,
}

impl Default for ParseOpts {
    ghost is_default = { λ opts. ⟦<TokenizerOpts as Default>⟧.is_default opts.tokenizer
        × ⟦<TreeBuilderOpts as Default>⟧.is_default opts.tree_builder };

    fn default() -> ParseOpts {
        ParseOpts {
            tokenizer: TokenizerOpts::default(),
            tree_builder: TreeBuilderOpts::default(),
        }
    }
}

impl ParseOpts {
    /// Options of their own with the same values.
    pub fn copy(&self, alloc: Global) -> Result<ParseOpts, ParseFault>
        ensures ok { IfOk result (λ copied. copied ≡ self.now) }
        ensures fault { IfErr result (λ fault. fault ≡ Memory) }
    {
        Ok(ParseOpts {
            tokenizer: self.tokenizer.copy(alloc)?,
            tree_builder: self.tree_builder,
        })
    }
}
