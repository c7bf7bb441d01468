//! How a tree builder is set up.
use html_rules::Rules;
use markup::QuirksMode;

/// How a tree builder is set up.
#[derive(Clone, Copy, Debug, PartialEq, Eq)]
pub struct TreeBuilderOpts {
    /// Whether parse errors say which token was not expected, and in which mode. Not set by default.
    pub exact_errors: bool,
    /// The scripting flag: whether `noscript` holds raw text (HTML Standard, section 13.2.4.5). Set by default.
    pub scripting_enabled: bool,
    /// Whether the document is that of an `iframe` with `srcdoc`, which may lack a doctype. Not set by default.
    pub iframe_srcdoc: bool,
    /// Whether the doctype stays out of the tree. Not set by default.
    pub drop_doctype: bool,
    /// The quirks mode to begin with. `NoQuirks` by default.
    pub quirks_mode: QuirksMode,
    /// Whose rules hold. html5ever's by default.
    pub rules: Rules,
}

impl Default for TreeBuilderOpts {
    ghost use Rattle.std.specs.Prelude.{◌≡◌, true, false};
    ghost use Rattle.markup.specs.declared.quirks.QuirksMode.TheVariants.{NoQuirks};
    ghost use Rattle.html_rules.specs.declared.rules.Rules.TheVariants.{Html5ever};

    ghost is_default = { λ opts. opts ≡ record {
      exact_errors = false;
      scripting_enabled = true;
      iframe_srcdoc = false;
      drop_doctype = false;
      quirks_mode = NoQuirks;
      rules = Html5ever;
    } };

    fn default() -> TreeBuilderOpts {
        TreeBuilderOpts {
            exact_errors: false,
            scripting_enabled: true,
            iframe_srcdoc: false,
            drop_doctype: false,
            quirks_mode: QuirksMode::NoQuirks,
            rules: Rules::Html5ever,
        }
    }
}
