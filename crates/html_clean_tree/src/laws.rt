//! Laws of cleaned text in a tree. Each function's contract is one law.
ghost use Rattle.html_clean_tree.specs.Laws.{AreCleanedTextsRead, DoRulesGoOn};

/// After a tag that a policy may keep, the tokenizer goes on in the data state, whatever state the rules are in.
pub fn rules_go_on()
    ensures { DoRulesGoOn }
{}

/// Wherever cleaned text is put, in every mode and in foreign content: the rules get just the tags and texts of the cleaned trees, and make
/// only elements that the policy keeps, with attributes that it gives them, elements again for formatting tags that stood before the
/// text, and `html`, `head`, `body`, `colgroup`, `tbody` and `tr` without attributes.
pub fn cleaned_texts_are_read()
    ensures { AreCleanedTextsRead }
{}
