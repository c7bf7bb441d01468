//! Texts that are compared in any case, with nothing lowered into memory.
ghost use Rattle.std.specs.Prelude.{◌≡◌, IsTrue, map};
ghost use Rattle.std.specs.Char.{to_ascii_lowercase};
ghost use Rattle.std.specs.Str.{bytes_eq, chars};
ghost use Rattle.markup.specs.Plain.{is_plain};
ghost use Rattle.html_tokens.specs.Characters.{begins_any_case};
ghost use Rattle.html_rules.specs.Names.{equals_any_case};

/// Whether bytes begin with those of a word in any case, which is given lowered.
fn bytes_begin(text: &[u8], word: &[u8]) -> bool
    ensures { result ≡ begins_any_case word.now text.now }
{
    for (i, byte) in word.iter().enumerate() {
        if i >= text.len() {
            return false;
        }
        if text[i].to_ascii_lowercase() != *byte {
            return false;
        }
    }
    true
}

/// Whether a text begins with a word in any case. The word is given lowered, and is of ASCII alone.
pub(crate) fn begins(text: &str, word: &str) -> bool
    requires { IsTrue (is_plain word.now) }
    ensures { result ≡ begins_any_case word.now (chars text.now) }
{
    bytes_begin(text.as_bytes(), word.as_bytes())
}

/// Whether a text is a word in any case. The word is given lowered, and is of ASCII alone.
pub fn equals_any_case(text: &str, word: &str) -> bool
    requires { IsTrue (is_plain word.now) }
    ensures { result ≡ equals_any_case (chars text.now) word.now }
{
    if text.len() != word.len() {
        return false;
    }
    begins(text, word)
}

/// Whether two texts are the same in any case.
pub(crate) fn are_same_any_case(a: &str, b: &str) -> bool
    ensures { result ≡ bytes_eq (map to_ascii_lowercase (chars a.now)) (map to_ascii_lowercase (chars b.now)) }
{
    a.eq_ignore_ascii_case(b)
}
