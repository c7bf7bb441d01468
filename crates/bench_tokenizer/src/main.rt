//! Measures how fast the queue and the tokenizer read, and checks the table of references.
//!
//! Standard output gets what was counted and found, standard error how long it took.
#![tactic(auto)]

mod counts;
mod drain;
mod hostile;
mod page;
mod pauses;
mod queue;
mod read;
mod shape;
mod table;

use anyhow::{Context, Result, bail};
use devices::StdSource;
use html_input::read_table;
use html_tokenizer::References;
use std::env;
use std::fs::{self, File};
use text_pieces::page_of;

/// How many characters the small queue has.
const QUEUE_CHARACTERS: usize = 1_000_000;

/// How many bytes the small page has.
const PAGE_BYTES: usize = 20_000;

/// How many bytes the small hostile texts have.
const HOSTILE_BYTES: usize = 1_000;

/// The file with the Standard's table, which lies where the program runs.
const TABLE_FILE: &str = "named_references.table";

/// What the words after the program's name ask for:
///
/// - `BYTES`: reads a page that it makes, of so many bytes, with the five names of references that a written text needs.
/// - `PAGE TABLE`: reads the page in a file, with the table of references in another.
/// - `hostile BYTES`: reads texts that try to make its time grow, each at 1, 2, 4 and 8 times so many bytes.
/// - `queue CHARACTERS`: takes so many characters out of a queue, one by one and in runs.
/// - `table TABLE`: checks the table of references in a file, and looks names up in it.
/// - no word: a small queue, a small page, small hostile texts, and the table in the file `named_references.table`.
fn main(rt: HostRuntime) -> Result<()> {
    let words: Vec<String> = env::args(&rt)?.skip(1).collect(rt.alloc())?;
    measure_words(&rt, words.as_slice())
}

/// Measures what the arguments ask for.
fn measure_words(rt: &HostRuntime, words: &[String]) -> Result<()> {
    match words {
        [] => measure_small(rt),
        [bytes] => measure_page(rt, bytes.as_str()),
        [kind, argument] => measure_kind(rt, kind.as_str(), argument.as_str()),
        _ => bail!(
            "bench_tokenizer BYTES, PAGE TABLE, hostile BYTES, queue CHARACTERS or table TABLE"
        ),
    }
}

/// Measures a small one of each kind.
fn measure_small(rt: &HostRuntime) -> Result<()> {
    queue::measure(rt, QUEUE_CHARACTERS)?;
    measure_made(rt, PAGE_BYTES)?;
    hostile::measure(rt, HOSTILE_BYTES)?;
    check_table(rt, TABLE_FILE)
}

/// Measures what a first word of two asks for; if it names no kind, it names a page.
fn measure_kind(rt: &HostRuntime, kind: &str, argument: &str) -> Result<()> {
    if kind == "hostile" {
        measure_hostile(rt, argument)
    } else if kind == "queue" {
        measure_queue(rt, argument)
    } else if kind == "table" {
        check_table(rt, argument)
    } else {
        measure_file(rt, kind, argument)
    }
}

/// The number that a word is, of what it says.
fn number_of(argument: &str, what: &'static str) -> Result<usize> {
    argument.parse().context(what)
}

fn measure_queue(rt: &HostRuntime, characters: &str) -> Result<()> {
    queue::measure(rt, number_of(characters, "the number of characters")?)
}

fn measure_hostile(rt: &HostRuntime, bytes: &str) -> Result<()> {
    hostile::measure(rt, number_of(bytes, "the number of bytes")?)
}

fn measure_page(rt: &HostRuntime, bytes: &str) -> Result<()> {
    measure_made(rt, number_of(bytes, "the number of bytes")?)
}

/// Measures a page of so many bytes, with the five names of references that a written text needs.
fn measure_made(rt: &HostRuntime, bytes: usize) -> Result<()> {
    let page = page_of(rt.alloc(), bytes)?;
    match References::five(rt.alloc()) {
        Ok(table) => page::measure(rt, page.as_str(), &table),
        Err(_) => bail!("no memory"),
    }
}

/// Measures the page and the table of references in files of these names.
fn measure_file(rt: &HostRuntime, page: &str, table: &str) -> Result<()> {
    let page = fs::read_to_string(rt, page)?;
    let table = table_of_file(rt, table)?;
    page::measure(rt, page.as_str(), &table)
}

/// Checks the table of references in a file of this name, and looks names up in it.
fn check_table(rt: &HostRuntime, name: &str) -> Result<()> {
    let table = table_of_file(rt, name)?;
    Ok(table::show_all(rt, &table)?)
}

/// The table of references in a file of this name.
fn table_of_file(rt: &HostRuntime, name: &str) -> Result<References> {
    let mut source = StdSource::new(File::open(rt, name)?);
    Ok(read_table(rt.alloc(), &mut source)?)
}
