//! From standard input to standard output.
ghost use Rattle.std.specs.Prelude.{◌≡◌, IfErr, IfOk, map};
ghost use Rattle.html_normal.specs.declared.fault.NormalFault.TheVariants.{Memory};
ghost use Rattle.html_normal.specs.declared.program.ProgramFault.TheVariants.{Normal};
ghost use Rattle.html_references.specs.References.{five_rows};
ghost use Rattle.std.specs.String.{string_bytes};
ghost use Rattle.html_normal_program.specs.Program.{HasNoTable, IsNoTableIn, IsOutcome, IsTable, IsTableIn, named};

use crate::opener::Opener;
use devices::{Source, Target};
use html_normal::{
    Exact, NormalFault, ProgramFault, References, Report, TableFileFault, normalise, read_table,
};
use std::alloc::Global;

/// The table of references in the file of that name.
fn table_in<File: Source + Drop, Opens: Opener<File>>(
    alloc: Global,
    opener: &Opens,
    name: &str,
) -> Result<References, TableFileFault>
    ensures ok { IfOk result (IsTableIn (Opens.files opener.now name.now)) }
    ensures err { IfErr result (IsNoTableIn (Opens.files opener.now name.now)) }
{
    match opener.open(name) {
        Some(mut file) => read_table(alloc, &mut file),
        None => Err(TableFileFault::Read),
    }
}

/// The five names that a written text needs.
fn five(alloc: Global) -> Result<References, ProgramFault>
    ensures ok { IfOk result (λ table. table ≡ five_rows) }
    ensures err { IfErr result (λ fault. fault ≡ Normal Memory) }
{
    match References::five(alloc) {
        Ok(five) => Ok(five),
        Err(_) => Err(ProgramFault::Normal(NormalFault::Memory)),
    }
}

/// The table of references in the file of that name, or where no file is named the five names that a written text needs.
///
/// Errors: [`ProgramFault::Table`] where the file has no table; out of memory.
pub fn table_named<File: Source + Drop, Opens: Opener<File>>(
    alloc: Global,
    opener: &Opens,
    name: Option<&str>,
) -> Result<References, ProgramFault>
    ensures ok { IfOk result (IsTable (Opens.files opener.now) (named name.entry)) }
    ensures err { IfErr result (HasNoTable (Opens.files opener.now) (named name.entry)) }
{
    match name {
        Some(name) => Ok(table_in(alloc, opener, name)?),
        None => five(alloc),
    }
}

/// The table of references that the words after the program's name ask for.
fn table<File: Source + Drop, Opens: Opener<File>>(
    alloc: Global,
    words: &[String],
    opener: &Opens,
) -> Result<References, ProgramFault>
    ensures ok { IfOk result (IsTable (Opens.files opener.now) (map string_bytes words.now)) }
    ensures err { IfErr result (HasNoTable (Opens.files opener.now) (map string_bytes words.now)) }
{
    match words {
        [] => table_named(alloc, opener, None),
        [name] => table_named(alloc, opener, Some(name.as_str())),
        _ => Err(ProgramFault::Usage),
    }
}

/// Reads standard input to its end, and writes its normal text to standard output, as the words after the program's name ask for it:
/// with one word references are read by the table in the file of that name, with none by the five names that a written text needs.
///
/// Errors: [`ProgramFault::Usage`] where there are more words, [`ProgramFault::Table`] where the file has no table, both before
/// anything is read or written; [`ProgramFault::Normal`] as [`normalise`] has them.
pub fn normalised<File: Source + Drop, Opens: Opener<File>, Input: Source, Output: Target>(
    alloc: Global,
    words: &[String],
    opener: &Opens,
    input: &mut Input,
    output: &mut Output,
) -> Result<Report, ProgramFault>
    ensures { IsOutcome (Opens.files opener.now) (map string_bytes words.now) (Input.left input.old) (Input.left input.new)
        (Output.written output.old) (Output.written output.new) result }
{
    let table = table(alloc, words, opener)?;
    Ok(normalise(alloc, input, output, table, Exact::default())?)
}
