//! What the words after the command ask for.
ghost use Rattle.std.specs.Prelude.{◌≡◌, ◌⊎◌, ◌++◌, ◌∷◌, [], ℕ, List, None, Some, IfErr, IfOk, OnOk, map, option_map};
ghost use Rattle.std.specs.String.{string_bytes};
ghost use Rattle.html_normal.specs.declared.fault.NormalFault.TheVariants.{Memory as NoMemory};
ghost use Rattle.html_clean_program.specs.declared.fault.CleanFault.TheVariants.{Normal, Usage};
ghost use Rattle.html_clean_program.specs.Words.{AsksFor, IsAsked, Request};
ghost use Rattle.html_clean_program.specs.Words.{asked_by, extra_of, no_request, option_of, output_named};
ghost use Rattle.html_clean_program.specs.Words.{starts_with_hyphen, taken};

use crate::fault::CleanFault;
use html_normal::NormalFault;
use std::alloc::Global;

/// What the policy is to keep, or to add, beside what it does already.
#[derive(Clone, Copy)]
pub enum Kind {
    /// An element, and after a colon its attributes.
    Element,
    /// An attribute of all elements.
    Attribute,
    /// The beginning of names of attributes of all elements.
    Beginning,
    /// An element, after a colon the name of an attribute that it is given, and after an equals sign the value.
    Addition,
    /// A scheme of URLs.
    Scheme,
}

/// What an option takes from the word after it.
#[derive(Clone, Copy)]
pub enum Takes {
    /// What the policy is to keep or to add.
    Extra(Kind),
    /// A file with a policy.
    Policy,
    /// A file with a table of references.
    Table,
    /// A file to write to.
    Output,
}

/// What the policy is to keep or to add, in a word.
#[derive(Clone, Copy)]
pub struct Extra<'a> {
    pub kind: Kind,
    pub word: &'a str,
}

/// What is asked for.
#[derive(Drop)]
pub struct Asked<'a> {
    /// The file with the policy; the ready policy for texts and links, where there is none.
    pub policy: Option<&'a str>,
    /// What the policy is to keep or to add beside that.
    pub extras: Vec<Extra<'a>>,
    /// Whether pages are cleaned as whole documents.
    pub is_document: bool,
    /// The file with the table of references; the five that a written text needs, where there is none.
    pub table: Option<&'a str>,
    /// The file to write to; standard output, where there is none.
    pub output: Option<&'a str>,
    /// The files with the pages; standard input, where there are none.
    pub files: Vec<&'a str>,
}

/// Takes what the policy is to keep or to add.
fn push_extra<'a>(asked: &mut Asked<'a>, kind: Kind, word: &'a str) -> Result<(), CleanFault>
    ensures ok { OnOk result (map extra_of asked.new.extras.items ≡ map extra_of asked.old.extras.items ++ (kind, word.now) ∷ []) }
    ensures same { asked.new ≡ record asked.old { extras = asked.new.extras } }
    ensures fault { IfErr result (λ fault. fault ≡ Normal NoMemory) }
{
    match asked.extras.push(Extra { kind, word }) {
        Ok(()) => Ok(()),
        Err(_) => Err(CleanFault::Normal(NormalFault::Memory)),
    }
}

/// Takes the word after an option.
fn take<'a>(asked: &mut Asked<'a>, takes: Takes, word: &'a str) -> Result<(), CleanFault>
    ensures ok { OnOk result ((request : Request) → IsAsked asked.old request → IsAsked asked.new (taken takes word.now request)) }
    ensures fault { IfErr result (λ fault. fault ≡ Normal NoMemory) }
{
    match takes {
        Takes::Extra(kind) => push_extra(asked, kind, word),
        Takes::Policy => {
            asked.policy = Some(word);
            Ok(())
        }
        Takes::Table => {
            asked.table = Some(word);
            Ok(())
        }
        Takes::Output => {
            asked.output = Some(word);
            Ok(())
        }
    }
}

/// What an option takes, if the word is one that takes something.
fn option(word: &str) -> Option<Takes>
    ensures { result ≡ option_of word.now }
{
    match word {
        "--policy" => Some(Takes::Policy),
        "--element" => Some(Takes::Extra(Kind::Element)),
        "--attribute" => Some(Takes::Extra(Kind::Attribute)),
        "--beginning" => Some(Takes::Extra(Kind::Beginning)),
        "--add" => Some(Takes::Extra(Kind::Addition)),
        "--scheme" => Some(Takes::Extra(Kind::Scheme)),
        "--table" => Some(Takes::Table),
        "--output" | "-o" => Some(Takes::Output),
        _ => None,
    }
}

/// Whether a word is an option.
fn is_option(word: &str) -> bool
    ensures { result ≡ starts_with_hyphen word.now }
{
    word.starts_with('-')
}

/// The request of no word.
fn nothing<'a>(alloc: Global) -> Asked<'a>
    ensures { IsAsked result no_request }
{
    Asked {
        policy: None,
        extras: Vec::new(alloc),
        is_document: false,
        table: None,
        output: None,
        files: Vec::new(alloc),
    }
}

/// Takes a word that is none after an option that takes it. Returns what it takes of the next word, if it is such an option.
fn take_word<'a>(asked: &mut Asked<'a>, word: &'a str) -> Result<Option<Takes>, CleanFault>
    ensures ok { IfOk result (λ takes. (request : Request) → IsAsked asked.old request → (next : Request) × IsAsked asked.new next
        × ((words : List (List ℕ)) → asked_by None request (word.now ∷ words) ≡ asked_by takes next words)) }
    ensures err { IfErr result (λ fault. (fault ≡ Normal NoMemory) ⊎ ((fault ≡ Usage)
        × ((request : Request) (words : List (List ℕ)) → asked_by None request (word.now ∷ words) ≡ None))) }
{
    if word == "--document" {
        asked.is_document = true;
        return Ok(None);
    }
    if !is_option(word) {
        return match asked.files.push(word) {
            Ok(()) => Ok(None),
            Err(_) => Err(CleanFault::Normal(NormalFault::Memory)),
        };
    }
    match option(word) {
        Some(takes) => Ok(Some(takes)),
        None => Err(CleanFault::Usage),
    }
}

/// Takes the word after an option.
fn take_after<'a>(
    asked: &mut Asked<'a>,
    takes: Takes,
    word: &'a str,
) -> Result<Option<Takes>, CleanFault>
    ensures ok { IfOk result (λ next. (next ≡ None)
        × ((request : Request) → IsAsked asked.old request → IsAsked asked.new (taken takes word.now request))) }
    ensures err { IfErr result (λ fault. fault ≡ Normal NoMemory) }
{
    match take(asked, takes, word) {
        Ok(()) => Ok(None),
        Err(fault) => Err(fault),
    }
}

/// Takes a word after others, the last of which may be an option that takes it. Returns what it takes of the next word.
fn take_next<'a>(
    asked: &mut Asked<'a>,
    takes: Option<Takes>,
    word: &'a str,
) -> Result<Option<Takes>, CleanFault>
    ensures ok { IfOk result (λ next_takes. (request : Request) → IsAsked asked.old request → (next : Request) × IsAsked asked.new next
        × ((words : List (List ℕ)) → asked_by takes request (word.now ∷ words) ≡ asked_by next_takes next words)) }
    ensures err { IfErr result (λ fault. (fault ≡ Normal NoMemory) ⊎ ((fault ≡ Usage)
        × ((request : Request) (words : List (List ℕ)) → asked_by takes request (word.now ∷ words) ≡ None))) }
{
    match takes {
        None => take_word(asked, word),
        Some(of) => take_after(asked, of, word),
    }
}

/// Takes all words.
fn take_words<'a>(asked: &mut Asked<'a>, words: &'a [String]) -> Result<(), CleanFault>
    requires nothing { IsAsked asked.old no_request }
    ensures ok { OnOk result ((request : Request) × IsAsked asked.new request
        × (asked_by None no_request (map string_bytes words.now) ≡ Some request)) }
    ensures err { IfErr result (λ fault. (fault ≡ Normal NoMemory)
        ⊎ ((fault ≡ Usage) × (asked_by None no_request (map string_bytes words.now) ≡ None))) }
{
    let mut takes = None;
    for word in words {
        takes = take_next(asked, takes, word.as_str())?;
    }
    match takes {
        None => Ok(()),
        Some(_) => Err(CleanFault::Usage),
    }
}

/// What is asked for by words.
///
/// Errors: [`CleanFault::Usage`] where they can't be understood; out of memory.
pub fn read_words<'a>(alloc: Global, words: &'a [String]) -> Result<Asked<'a>, CleanFault>
    ensures ok { IfOk result (AsksFor (map string_bytes words.now)) }
    ensures err { IfErr result (λ fault. (fault ≡ Normal NoMemory)
        ⊎ ((fault ≡ Usage) × (asked_by None no_request (map string_bytes words.now) ≡ None))) }
{
    let mut asked = nothing(alloc);
    take_words(&mut asked, words)?;
    Ok(asked)
}

/// The file to write to that the words after the command name; nothing where they name none, or ask for nothing that can be done.
///
/// Errors: out of memory.
pub fn output_of<'a>(alloc: Global, words: &'a [String]) -> Result<Option<&'a str>, CleanFault>
    ensures ok { IfOk result (λ found. option_map (λ name. name.now) found ≡ output_named (map string_bytes words.now)) }
    ensures err { IfErr result (λ fault. fault ≡ Normal NoMemory) }
{
    match read_words(alloc, words) {
        Ok(asked) => Ok(asked.output),
        Err(CleanFault::Usage) => Ok(None),
        Err(fault) => Err(fault),
    }
}
