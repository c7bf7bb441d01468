//! Pseudo-classes that stand for selectors of other parts (HTML Standard, section 4.16.3), as far as the tree determines them.
ghost use Rattle.std.specs.Prelude.{◌≡◌, IfOk, IfErr};
ghost use Rattle.markup.specs.declared.fault.ParseFault.TheVariants.{Memory};
ghost use Rattle.html_selector_text.specs.Meanings as defined;

use crate::characters::characters;
use crate::scanning::tokens;
use crate::simples::Meaning;
use crate::tokens::Token;
use markup::ParseFault;
use std::alloc::Global;

pub(crate) const LINK: &str = "html|a[href],html|area[href]";

pub(crate) const CHECKED: &str =
    "html|input:is([type=checkbox],[type=radio])[checked],html|option[selected]";

pub(crate) const DISABLED: &str =
    ":is(html|button,html|input,html|select,html|textarea,html|optgroup,html|option,html|fieldset)[disabled],\
    html|optgroup[disabled]>html|option,\
    html|fieldset[disabled]>:not(html|legend:first-of-type) :is(html|button,html|input,html|select,html|textarea,html|fieldset),\
    html|fieldset[disabled]>:is(html|button,html|input,html|select,html|textarea,html|fieldset)";

pub(crate) const ENABLED: &str =
    ":is(html|button,html|input,html|select,html|textarea,html|optgroup,html|option,html|fieldset):not(\
    :is(html|button,html|input,html|select,html|textarea,html|optgroup,html|option,html|fieldset)[disabled],\
    html|optgroup[disabled]>html|option,\
    html|fieldset[disabled]>:not(html|legend:first-of-type) :is(html|button,html|input,html|select,html|textarea,html|fieldset),\
    html|fieldset[disabled]>:is(html|button,html|input,html|select,html|textarea,html|fieldset))";

pub(crate) const REQUIRED: &str = ":is(html|select,html|textarea,html|input:not(\
    [type=hidden],[type=range],[type=color],[type=submit],[type=image],[type=reset],[type=button]))[required]";

pub(crate) const OPTIONAL: &str =
    ":is(html|select,html|textarea):not([required]),html|input:not([required]:not(\
    [type=hidden],[type=range],[type=color],[type=submit],[type=image],[type=reset],[type=button]))";

#[tactic(auto, unfolding(crate::specs::Meanings::meaning_text))]
fn meaning_text(meaning: Meaning) -> &'static str
    ensures { result.now ≡ defined.meaning_text meaning }
{
    match meaning {
        Meaning::Link => LINK,
        Meaning::Checked => CHECKED,
        Meaning::Disabled => DISABLED,
        Meaning::Enabled => ENABLED,
        Meaning::Required => REQUIRED,
        Meaning::Optional => OPTIONAL,
    }
}

/// The tokens of the selectors that a pseudo-class stands for.
#[tactic(auto, unfolding(crate::specs::Meanings::meaning_tokens))]
pub(crate) fn meaning_tokens(alloc: Global, meaning: Meaning) -> Result<Vec<Token>, ParseFault>
    ensures ok { IfOk result (λ made. made.items ≡ defined.meaning_tokens meaning) }
    ensures fault { IfErr result (λ fault. fault ≡ Memory) }
{
    let text = characters(alloc, meaning_text(meaning))?;
    tokens(alloc, text.as_slice())
}
