//! Laws of the rules of tree construction. Each function's contract is one law.
ghost use Rattle.html_rules_laws.specs.Adoptions.{AreAdoptionsStanding};
ghost use Rattle.html_rules_laws.specs.EachText.{IsEachTextTaken};
ghost use Rattle.html_rules_laws.specs.Errors.{AreErrorsCounted};
ghost use Rattle.html_rules_laws.specs.Joint.{AreJoint};
ghost use Rattle.html_rules_laws.specs.Lawful.{AreTokensTakenLawfully};
ghost use Rattle.html_rules_laws.specs.Nesting.{AreNestedStatesFit, AreReachedStatesFit};
ghost use Rattle.html_rules_laws.specs.Settled.{IsEachTokenSettled};
ghost use Rattle.html_rules_laws.specs.Sink.{AreRulesLawful};
ghost use Rattle.html_rules_laws.specs.Soundness.{AreActionsStanding};
ghost use Rattle.html_rules_laws.specs.Upright.{AreStatesSteady};
ghost use Rattle.html_rules_laws.specs.Usable.{AreStatesUsable};

/// The rules do not look at the number of errors, and only count it on.
pub fn errors_are_counted()
    ensures { AreErrorsCounted }
{}

/// The rules take tokens as a lawful sink does: text in pieces as in one, empty texts and errors in vain, replies to
/// tags alone.
pub fn tokens_are_taken_lawfully()
    ensures { AreTokensTakenLawfully }
{}

/// Actions keep the tree a tree with the document on top, the open elements elements of it, and no later one an earlier
/// one or above one.
pub fn actions_keep_elements_standing()
    ensures { AreActionsStanding }
{}

/// So do a turn of the adoption agency, all its turns, and the end of an `a` that a new one closes (HTML Standard, section
/// 13.2.6.4.7).
pub fn adoptions_keep_elements_standing()
    ensures { AreAdoptionsStanding }
{}

/// Sixteen turns, and four for each open element, are enough for every token.
pub fn each_token_is_settled()
    ensures { IsEachTokenSettled }
{}

/// The rules are a lawful sink: with sound states, in which every document and every fragment begins, and to which every
/// token and the end lead, they keep all its laws.
pub fn rules_are_a_lawful_sink()
    ensures { AreRulesLawful }
{}

/// Every token and the end keep the tree a tree with the document on top, the open elements elements of it, and no later one an
/// earlier one or above one, from the states before a document or a fragment on, and so does each turn of a token: all that
/// is put may be put where it is, also where the head is opened again (HTML Standard, section 13.2.6.4.6).
pub fn tokens_keep_elements_standing()
    ensures { AreStatesSteady }
{}

/// A state in which the parts of pages, tables and templates nest takes tokens: it is never refused as unfit. Documents and fragments
/// begin in such states, and each turn leads to one.
pub fn nested_states_fit()
    ensures { AreNestedStatesFit }
{}

/// Tokens keep the parts nested. So every state to which tokens lead, from the states before a document or a fragment on, fits its
/// mode, and no token is refused as unfit.
pub fn reached_states_fit()
    ensures { AreReachedStatesFit }
{}

/// Each text has a document, and a fragment for each context: no token of its reading is refused, whatever the options.
pub fn each_text_has_a_document()
    ensures { IsEachTextTaken }
{}

/// While a text is read, from where a document or a fragment begins, the mode is "text" only where the tokenizer stands in raw text, or
/// in an end tag there, and the last start tag has the name of the current node; and the state fits its mode.
pub fn text_mode_comes_with_raw_text()
    ensures { AreJoint }
{}

/// With usable states the rules are a lawful sink, and documents and fragments begin in such states.
pub fn usable_states_are_lawful()
    ensures { AreStatesUsable }
{}
