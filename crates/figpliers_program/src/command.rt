//! The words after the program's name.

ghost use Rattle.std.specs.Prelude.{◌≡◌, ◌⊎◌, ◌||◌, IfErr, IfOk, IfSome, None, Ok, Some, [], codes, count_by, false, is_some, map};
ghost use Rattle.std.specs.Prelude.{nat_le, not, option_map, unwrap_or};
ghost use Rattle.std.specs.List.{list_all};
ghost use Rattle.std.specs.String.{string_bytes};
ghost use Rattle.clap.specs.Matches.{found_of};
ghost use Rattle.clap.specs.Simple.{subcommand_rows_of};
ghost use Rattle.clap.specs.Takes as clap_spec;
ghost use Rattle.clap.specs.Values.{kind_of};
ghost use Rattle.clap.specs.Walk.{all_of, first_of, rows_of};
ghost use Rattle.clap.specs.declared.error.kind.ErrorKind.TheVariants.{OutOfMemory};
ghost use Rattle.figpliers_program.specs.Asked as spec;
ghost use Rattle.figpliers_program.specs.Asked.{AsksFor, IsJob, IsListing, IsNaming, IsReading, IsSet, IsShow, has_conflict_in};
ghost use Rattle.figpliers_program.specs.Asked.{lowered_value};
ghost use Rattle.figpliers_program.specs.Rejected.{IsRejectedBy, enters_command, is_command};

use crate::command_line::command_line;
use clap::error::ErrorKind;
use clap::parser::ValueSource;
use clap::{ArgMatches, Error};
use figpliers::encoding_of_label;
use html_listings::{Listing, Show};
use std::alloc::{AllocError, Global};

/// What is done with the document of each page.
#[derive(Drop)]
pub enum DocumentJob {
    /// Its tree is written line by line.
    Tree,
    /// Its links are listed.
    Links { listing: Listing },
    /// It is written as Markdown.
    Markdown,
    /// Its text is written.
    Text,
    /// Whether it is faithful is written.
    Check,
    /// Its normal text is written.
    Normal,
    /// The elements that selectors select are written.
    Select { selector: String, show: Show },
}

/// What is done with each page.
#[derive(Drop)]
pub enum Job {
    /// Its parse errors are listed.
    OfErrors,
    /// The tree that its text makes in an element of this name is written line by line.
    OfFragment { element: String },
    /// With its document.
    OfDocument(DocumentJob),
}

/// How the bytes of pages are read.
#[derive(Drop)]
pub enum Reading {
    /// In the encoding that is found: by a byte order mark, the label that is given, or else a declaration.
    Found { label: Option<String> },
    /// As UTF-8; what is not is refused.
    Utf8,
    /// As UTF-8; what is not stands as U+FFFD.
    Lossy,
}

/// What is asked for.
#[derive(Drop)]
pub struct Asked {
    /// What is done with each page.
    pub job: Job,
    /// How the bytes of pages are read.
    pub reading: Reading,
    /// The file to write to; standard output, where there is none.
    pub output: Option<String>,
    /// The files with the pages; standard input, where there are none.
    pub files: Vec<String>,
}

/// A text of its own.
pub(crate) fn copied(alloc: Global, text: &str) -> Result<Option<String>, AllocError>
    ensures { IfOk result (λ found. option_map string_bytes found ≡ Some text.now) }
{
    Ok(Some(String::from_str(alloc, text)?))
}

/// The value of an option, where it is used.
fn value_of(
    alloc: Global,
    matches: &ArgMatches<'_>,
    name: &str,
) -> Result<Option<String>, AllocError>
    ensures { IfOk result (λ found. option_map string_bytes found ≡ first_of name.now (rows_of (found_of matches.now))) }
{
    match matches.get_str(name) {
        Some(value) => copied(alloc, value),
        None => Ok(None),
    }
}

/// Whether an option without a value is used.
fn is_set(matches: &ArgMatches<'_>, name: &str) -> bool
    ensures { IsSet (rows_of (found_of matches.now)) name.now result }
{
    matches.get_flag(name)
}

/// The element in which a fragment is read, where one is named; the names of HTML elements are in lower case.
fn fragment_of(alloc: Global, matches: &ArgMatches<'_>) -> Result<Option<String>, AllocError>
    ensures { IfOk result (λ found. option_map string_bytes found ≡ lowered_value (codes "fragment") (rows_of (found_of matches.now))) }
{
    match value_of(alloc, matches, "fragment")? {
        Some(mut name) => {
            name.make_ascii_lowercase();
            Ok(Some(name))
        }
        None => Ok(None),
    }
}

/// Whether a character ends the name of a tag (HTML Standard, section 13.2.5.8).
fn ends_name(byte: u8) -> bool
    ensures { result ≡ spec.ends_name byte }
{
    byte.is_ascii_whitespace() || byte == b'/' || byte == b'>' || byte == 0
}

/// Whether a text begins with a letter.
fn begins_with_letter(bytes: &[u8]) -> bool
    ensures { result ≡ spec.begins_with_letter bytes.now }
{
    match bytes.first() {
        Some(byte) => byte.is_ascii_alphabetic(),
        None => false,
    }
}

/// Whether no character of a text ends the name of a tag.
fn goes_on(bytes: &[u8]) -> bool
    ensures { result ≡ list_all (λ byte. not (spec.ends_name byte)) bytes.now }
{
    bytes.iter().all(|byte| !ends_name(*byte))
}

/// Whether a tag may have that name.
fn is_name(name: &str) -> bool
    ensures { result ≡ spec.is_name name.now }
{
    begins_with_letter(name.as_bytes()) && goes_on(name.as_bytes())
}

/// Whether a fragment is to be read in an element of a name that none has.
fn has_no_name(job: &Job) -> bool
    ensures { result ≡ spec.has_no_name job.now }
{
    match job {
        Job::OfFragment { element } => !is_name(element.as_str()),
        _ => false,
    }
}

/// What is printed of the elements that are selected.
fn show_of(alloc: Global, matches: &ArgMatches<'_>) -> Result<Show, AllocError>
    ensures { IfOk result (IsShow (rows_of (found_of matches.now))) }
{
    if is_set(matches, "text") {
        return Ok(Show::Text);
    }
    if is_set(matches, "count") {
        return Ok(Show::Count);
    }
    if is_set(matches, "json") {
        return Ok(Show::Json);
    }
    match value_of(alloc, matches, "attr")? {
        Some(name) => Ok(Show::Attribute(name)),
        None => Ok(Show::Html),
    }
}

/// Whether the name of the file is printed, where that is said.
fn names_of(matches: &ArgMatches<'_>) -> Option<bool>
    ensures { IsNaming (rows_of (found_of matches.now)) result }
{
    if is_set(matches, "with-filename") {
        return Some(true);
    }
    if is_set(matches, "no-filename") {
        return Some(false);
    }
    None
}

/// How links are printed.
fn listing_of(alloc: Global, matches: &ArgMatches<'_>) -> Result<Listing, AllocError>
    ensures { IfOk result (IsListing (rows_of (found_of matches.now))) }
{
    Ok(Listing {
        base: value_of(alloc, matches, "base")?,
        anchors: is_set(matches, "anchors"),
        kinds: is_set(matches, "kind"),
        json: is_set(matches, "json"),
        names: names_of(matches),
    })
}

/// The selectors that are asked for.
fn selector_of(alloc: Global, matches: &ArgMatches<'_>) -> Result<String, AllocError>
    ensures { IfOk result (λ selector. string_bytes selector
        ≡ unwrap_or (first_of (codes "selector") (rows_of (found_of matches.now))) []) }
{
    match value_of(alloc, matches, "selector")? {
        Some(selector) => Ok(selector),
        None => Ok(String::new(alloc)),
    }
}

/// The command `select`.
fn select_of(alloc: Global, matches: &ArgMatches<'_>) -> Result<Job, AllocError>
    ensures { IfOk result (IsJob (codes "select") (rows_of (found_of matches.now))) }
{
    Ok(Job::OfDocument(DocumentJob::Select {
        selector: selector_of(alloc, matches)?,
        show: show_of(alloc, matches)?,
    }))
}

/// The command `tree`.
fn tree_of(alloc: Global, matches: &ArgMatches<'_>) -> Result<Job, AllocError>
    ensures { IfOk result (IsJob (codes "tree") (rows_of (found_of matches.now))) }
{
    match fragment_of(alloc, matches)? {
        Some(element) => Ok(Job::OfFragment { element }),
        None => Ok(Job::OfDocument(DocumentJob::Tree)),
    }
}

/// The command `links`.
fn links_of(alloc: Global, matches: &ArgMatches<'_>) -> Result<Job, AllocError>
    ensures { IfOk result (IsJob (codes "links") (rows_of (found_of matches.now))) }
{
    Ok(Job::OfDocument(DocumentJob::Links {
        listing: listing_of(alloc, matches)?,
    }))
}

/// What a command of that name does; nothing where there is none of that name.
fn job_of(alloc: Global, name: &str, matches: &ArgMatches<'_>) -> Result<Option<Job>, AllocError>
    ensures ok { IfOk result (λ found. IfSome found (IsJob name.now (rows_of (found_of matches.now)))) }
    ensures none { (result ≡ Ok None) → is_command name.now ≡ false }
{
    match name {
        "errors" => Ok(Some(Job::OfErrors)),
        "tree" => Ok(Some(tree_of(alloc, matches)?)),
        "links" => Ok(Some(links_of(alloc, matches)?)),
        "markdown" => Ok(Some(Job::OfDocument(DocumentJob::Markdown))),
        "text" => Ok(Some(Job::OfDocument(DocumentJob::Text))),
        "check" => Ok(Some(Job::OfDocument(DocumentJob::Check))),
        "normal" => Ok(Some(Job::OfDocument(DocumentJob::Normal))),
        "select" => Ok(Some(select_of(alloc, matches)?)),
        _ => Ok(None),
    }
}

/// Texts of their own.
fn copied_all(alloc: Global, texts: &[&str]) -> Result<Vec<String>, AllocError>
    ensures { IfOk result (λ copies. map string_bytes copies.items ≡ map (λ text. text.now) texts.now) }
{
    let mut copies = Vec::new(alloc);
    for text in texts {
        copies.push(String::from_str(alloc, text)?)?;
    }
    Ok(copies)
}

/// The files that are named.
fn files_of(alloc: Global, matches: &ArgMatches<'_>) -> Result<Vec<String>, AllocError>
    ensures { IfOk result (λ files. map string_bytes files.items
        ≡ unwrap_or (all_of (codes "files") (rows_of (found_of matches.now))) []) }
{
    match matches.get_strs("files") {
        Some(names) => copied_all(alloc, names),
        None => Ok(Vec::new(alloc)),
    }
}

/// How pages are read.
fn reading_of(alloc: Global, matches: &ArgMatches<'_>) -> Result<Reading, AllocError>
    ensures { IfOk result (IsReading (rows_of (found_of matches.now))) }
{
    if is_set(matches, "utf-8") {
        return Ok(Reading::Utf8);
    }
    if is_set(matches, "lossy") {
        return Ok(Reading::Lossy);
    }
    Ok(Reading::Found {
        label: value_of(alloc, matches, "encoding")?,
    })
}

/// Whether a label that names no encoding was given.
fn has_unknown_label(reading: &Reading) -> bool
    ensures { result ≡ spec.has_unknown_label reading.now }
{
    match reading {
        Reading::Found { label: Some(label) } => encoding_of_label(label.as_bytes()).is_none(),
        _ => false,
    }
}

/// What a command of that name was asked for; nothing where there is none of that name.
fn asked_of(
    alloc: Global,
    name: &str,
    matches: &ArgMatches<'_>,
) -> Result<Option<Asked>, AllocError>
    ensures ok { IfOk result (λ found. IfSome found (spec.IsAsked name.now (rows_of (found_of matches.now)))) }
    ensures none { (result ≡ Ok None) → is_command name.now ≡ false }
{
    let Some(job) = job_of(alloc, name, matches)? else {
        return Ok(None);
    };
    Ok(Some(Asked {
        job,
        reading: reading_of(alloc, matches)?,
        output: value_of(alloc, matches, "output")?,
        files: files_of(alloc, matches)?,
    }))
}

/// What was asked for; nothing where no command was named.
fn read_matches(alloc: Global, matches: &ArgMatches<'_>) -> Result<Option<Asked>, AllocError>
    ensures ok { IfOk result (λ found. IfSome found (spec.IsCommandOf (subcommand_rows_of matches.now))) }
    ensures none { (result ≡ Ok None) → enters_command (subcommand_rows_of matches.now) ≡ false }
{
    match matches.subcommand() {
        Some((name, matches)) => asked_of(alloc, name, matches),
        None => Ok(None),
    }
}

/// Whether an option is used, and does not just have its default.
fn is_given(matches: &ArgMatches<'_>, name: &str) -> bool
    ensures { result ≡ clap_spec.is_given name.now (rows_of (found_of matches.now)) }
{
    match matches.value_source(name) {
        Some(ValueSource::DefaultValue) => false,
        Some(ValueSource::CommandLine) => true,
        None => matches.contains_id(name),
    }
}

/// Whether at most one of some options is used.
fn are_apart(matches: &ArgMatches<'_>, names: &[&str]) -> bool
    ensures { result ≡ nat_le (count_by (λ name. clap_spec.is_given name.now (rows_of (found_of matches.now))) names.now) 1 }
{
    names.iter().filter(|name| is_given(matches, name)).count() <= 1
}

/// Which options of a command exclude each other, in words, if some do that are used.
fn conflict_of(matches: &ArgMatches<'_>) -> Option<&'static str>
    ensures { is_some result ≡ spec.has_conflict (rows_of (found_of matches.now)) }
{
    if !are_apart(matches, &["encoding", "utf-8", "lossy"]) {
        return Some("only one of '--encoding', '--utf-8' and '--lossy' can be used");
    }
    if !are_apart(matches, &["text", "attr", "count", "json"]) {
        return Some("only one of '--text', '--attr', '--count' and '--json' can be used");
    }
    if !are_apart(matches, &["kind", "json"]) {
        return Some("only one of '--kind' and '--json' can be used");
    }
    if !are_apart(matches, &["with-filename", "no-filename"]) {
        return Some("only one of '--with-filename' and '--no-filename' can be used");
    }
    None
}

/// The same of the command that was named.
fn conflict_in(matches: &ArgMatches<'_>) -> Option<&'static str>
    ensures { is_some result ≡ has_conflict_in (subcommand_rows_of matches.now) }
{
    match matches.subcommand() {
        Some((_, matches)) => conflict_of(matches),
        None => None,
    }
}

/// Which value cannot be used, in words, if there is such a one.
fn fault_of(asked: &Asked) -> Option<&'static str>
    ensures { is_some result ≡ (spec.has_unknown_label asked.now.reading || spec.has_no_name asked.now.job) }
{
    if has_unknown_label(&asked.reading) {
        return Some("no encoding has the label that was given");
    }
    if has_no_name(&asked.job) {
        return Some("no element has the name that was given for --fragment");
    }
    None
}

/// What words ask for, of which the first is the program's name.
pub fn read_words(alloc: Global, words: &[String]) -> Result<Asked, Error>
    ensures ok { IfOk result (AsksFor (map string_bytes words.now)) }
    ensures err { IfErr result (λ error. (kind_of error ≡ OutOfMemory) ⊎ IsRejectedBy (map string_bytes words.now) (kind_of error)) }
{
    let mut command = command_line(alloc)?;
    let matches = command.try_get_matches_from_mut(words)?;
    let asked = match read_matches(alloc, &matches)? {
        Some(asked) => asked,
        None => return Err(command.error(ErrorKind::MissingSubcommand, "no command was named")?),
    };
    match conflict_in(&matches) {
        Some(why) => return Err(command.error(ErrorKind::ArgumentConflict, why)?),
        None => {}
    }
    match fault_of(&asked) {
        Some(why) => Err(command.error(ErrorKind::ValueValidation, why)?),
        None => Ok(asked),
    }
}
