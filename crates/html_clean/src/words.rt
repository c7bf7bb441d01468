//! Words of values.
ghost use Rattle.std.specs.Prelude.{◌≡◌, ◌++◌, [], IfErr, IfOk, OnOk};
ghost use Rattle.std.specs.Str.{chars};
ghost use Rattle.html_clean.specs.Values as values;
ghost use Rattle.html_clean.specs.Values.{joined_after, with_word, word_if};
ghost use Rattle.markup.specs.declared.fault.ParseFault.TheVariants.{Memory};

use markup::{ParseFault, Text};
use std::alloc::Global;

/// Puts a word after others, if it is not empty, and leaves it empty.
fn end_word(words: &mut Vec<Text>, word: &mut Text) -> Result<(), ParseFault>
    ensures pushed { OnOk result (words.new.items ≡ words.old.items ++ word_if word.old) }
    ensures left { OnOk result (word.new ≡ []) }
    ensures fault { IfErr result (λ fault. fault ≡ Memory) }
{
    if word.is_empty() {
        return Ok(());
    }
    words.push(word.take())?;
    Ok(())
}

/// The words of a text between ASCII whitespace (Infra Standard, section 4.6).
pub fn words_of(alloc: Global, text: &str) -> Result<Vec<Text>, ParseFault>
    ensures ok { IfOk result (λ words. words.items ≡ values.words_of (chars text.now)) }
    ensures fault { IfErr result (λ fault. fault ≡ Memory) }
{
    let mut words = Vec::new(alloc);
    let mut word = Text::empty(alloc);
    for c in text.chars() {
        if c.is_ascii_whitespace() {
            end_word(&mut words, &mut word)?;
        } else {
            word.push(c)?;
        }
    }
    end_word(&mut words, &mut word)?;
    Ok(words)
}

/// Puts a word after a text, and a space between the two.
pub(crate) fn push_word(made: &mut Text, word: &Text) -> Result<(), ParseFault>
    ensures ok { OnOk result (made.new ≡ with_word made.old word.now) }
    ensures fault { IfErr result (λ fault. fault ≡ Memory) }
{
    if !made.is_empty() {
        made.push(' ')?;
    }
    made.push_str(word.as_str())
}

/// Words with a space between each two.
pub fn joined(alloc: Global, words: &[Text]) -> Result<Text, ParseFault>
    ensures ok { IfOk result (λ text. text ≡ joined_after [] words.now) }
    ensures fault { IfErr result (λ fault. fault ≡ Memory) }
{
    let mut text = Text::empty(alloc);
    for word in words {
        push_word(&mut text, word)?;
    }
    Ok(text)
}
