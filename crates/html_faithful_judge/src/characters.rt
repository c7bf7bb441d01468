//! Whether characters begin with a word.
ghost use Rattle.std.specs.Prelude.{◌≡◌};
ghost use Rattle.html_tokens.specs.Characters.{begins};

/// Whether characters begin with others.
pub(crate) fn begins(text: &[char], word: &[char]) -> bool
    ensures { result ≡ begins word.now text.now }
{
    for (i, c) in word.iter().enumerate() {
        if i >= text.len() {
            return false;
        }
        if *c != text[i] {
            return false;
        }
    }
    true
}
