//! The program `figpliers`: parse errors, trees, links, texts, Markdown, checks, elements, normal texts and clean texts of HTML pages.
//!
//! What it does is `figpliers_program`; here it gets its words, its files and its streams.
#![tactic(auto)]

mod arguments;
mod output;

use arguments::words;
use figpliers::{StdSource, StdTarget, Target};
use figpliers_program::{
    Disk, PageFault, Verdict, obey, output_of, report, report_unwritten, why_of,
};
use output::Output;
use std::fs::File;
use std::io::{BufWriter, Write};
use std::process::ExitCode;

/// Does what the words ask for, and hands on what the writer still holds. Where what reads the output has closed it, the program is done.
fn run<W: Write + Drop, Errors: Target>(
    rt: &HostRuntime,
    words: &[String],
    output: W,
    place: &str,
    errors: &mut Errors,
) -> Result<Verdict, PageFault> {
    let Ok(buffer) = BufWriter::new(rt.alloc(), output) else {
        return Err(PageFault::Memory);
    };
    let mut output = Output::new(buffer);
    let mut input = StdSource::new(rt.stdin());
    let files = Disk::new(rt);
    let mut verdict = obey(rt.alloc(), words, &files, &mut input, &mut output, errors);
    if output.flush().is_err() {
        verdict = Verdict::Unwritten;
    }
    if verdict == Verdict::Unwritten {
        if output.is_closed() {
            return Ok(Verdict::Fine);
        }
        report_unwritten(errors, place);
    }
    Ok(verdict)
}

/// Does what the program was started for: to the file that is named for it, or to standard output.
fn serve<Errors: Target>(rt: &HostRuntime, errors: &mut Errors) -> Result<Verdict, PageFault> {
    let words = words(rt)?;
    let words = words.as_slice();
    let Some(name) = output_of(rt.alloc(), words)? else {
        return run(rt, words, rt.stdout(), "standard output", errors);
    };
    match File::create(rt, name.as_str()) {
        Ok(file) => run(rt, words, file, name.as_str(), errors),
        Err(error) => {
            let why = why_of(&error);
            Ok(report(errors, name.as_str(), PageFault::Open { why }))
        }
    }
}

fn main(rt: HostRuntime) -> ExitCode {
    let mut errors = StdTarget::new(rt.stderr());
    let verdict = match serve(&rt, &mut errors) {
        Ok(verdict) => verdict,
        Err(fault) => report(&mut errors, "figpliers", fault),
    };
    ExitCode::from(verdict.status())
}
