//! The program `html_normal`: reads an HTML document from standard input, and writes its normal text to standard output.
//!
//! What it does is `html_normal_program`; here it gets its words, its files and its streams.
#![tactic(auto)]

use devices::{StdSource, StdTarget};
use gathered_writes::Gathered;
use html_normal::{NormalFault, ProgramFault, Report};
use html_normal_program::{HostFiles, normalised, tell};
use std::env;
use std::io::{self, ErrorKind};
use std::process::ExitCode;

/// How many bytes of the text are gathered before a write.
const ROOM: usize = 32_768;

/// Why the program's arguments could not be read: out of memory, or one of them is not UTF-8.
fn words_fault(error: &io::Error) -> ProgramFault {
    match error.kind() {
        ErrorKind::OutOfMemory => ProgramFault::Normal(NormalFault::Memory),
        _ => ProgramFault::Usage,
    }
}

/// The words after the program's name.
fn words(rt: &HostRuntime) -> Result<Vec<String>, ProgramFault> {
    let arguments = match env::args(rt) {
        Ok(arguments) => arguments,
        Err(error) => return Err(words_fault(&error)),
    };
    let mut words = Vec::new(rt.alloc());
    for word in arguments.skip(1) {
        let Ok(()) = words.push(word) else {
            return Err(ProgramFault::Normal(NormalFault::Memory));
        };
    }
    Ok(words)
}

/// Normalises standard input, and hands on what is still held, also where it ends with a fault.
fn run(rt: &HostRuntime) -> Result<Report, ProgramFault> {
    let words = words(rt)?;
    let Ok(mut output) = Gathered::new(rt.alloc(), StdTarget::new(rt.stdout()), ROOM) else {
        return Err(ProgramFault::Normal(NormalFault::Memory));
    };
    let mut input = StdSource::new(rt.stdin());
    let files = HostFiles::new(rt);
    let outcome = normalised(
        rt.alloc(),
        words.as_slice(),
        &files,
        &mut input,
        &mut output,
    );
    let flushed = output.flush();
    let report = outcome?;
    match flushed {
        Ok(()) => Ok(report),
        Err(_) => Err(ProgramFault::Normal(NormalFault::Write)),
    }
}

fn main(rt: HostRuntime) -> ExitCode {
    let outcome = run(&rt);
    let mut errors = StdTarget::new(rt.stderr());
    ExitCode::from(tell(&mut errors, &outcome))
}
