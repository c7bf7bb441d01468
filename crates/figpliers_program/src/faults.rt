//! What is said on standard error, and by the status.
ghost use Rattle.std.specs.Prelude.{◌≡◌, ◌++◌, ◌∷◌, [], Bool, codes, is_err};
ghost use Rattle.html_normal_program.specs.Streams.{IsPut};
ghost use Rattle.figpliers_program.specs.Verdicts.{IsReported, fault_line, fault_words, graver, open_words, status_of};
ghost use Rattle.figpliers_program.specs.Verdicts.{unwritten_line, verdict_of};
ghost use Rattle.figpliers_program.specs.Faults.{normal_fault_of, serialize_fault_of};
ghost use Rattle.figpliers_program.specs.declared.faults.PageFault.TheVariants.{Memory, Write};

use figpliers::{DeviceFault, NormalFault, ParseFault, SerializeFault, Target};
use html_normal_program::{put, put_numbered};
use std::alloc::AllocError;

/// How a page went, or all pages.
#[derive(Clone, Copy, PartialEq, Eq)]
pub enum Verdict {
    /// Nothing was selected.
    Nothing,
    /// Done.
    Fine,
    /// A page has parse errors, or is not read back, as was asked.
    Errors,
    /// A page was not read.
    Fault,
    /// Not all was written to standard output. Nothing more was read then, and nothing was said of it.
    Unwritten,
}

impl Verdict {
    /// The status with which the program ends.
    pub fn status(self) -> u8
        ensures { result ≡ status_of self }
    {
        match self {
            Verdict::Fine => 0,
            Verdict::Nothing | Verdict::Errors => 1,
            Verdict::Fault | Verdict::Unwritten => 2,
        }
    }

    /// Of two the one that matters more: that not all was written, a fault, errors, or that something was done.
    pub fn and(self, other: Verdict) -> Verdict
        ensures { result ≡ graver self other }
    {
        match (self, other) {
            (Verdict::Unwritten, _) | (_, Verdict::Unwritten) => Verdict::Unwritten,
            (Verdict::Fault, _) | (_, Verdict::Fault) => Verdict::Fault,
            (Verdict::Errors, _) | (_, Verdict::Errors) => Verdict::Errors,
            (Verdict::Fine, _) | (_, Verdict::Fine) => Verdict::Fine,
            (Verdict::Nothing, Verdict::Nothing) => Verdict::Nothing,
        }
    }
}

/// Why a file can't be opened.
#[derive(Clone, Copy, Debug, PartialEq, Eq)]
pub enum Why {
    /// There is none of that name.
    Missing,
    /// It may not be read.
    Forbidden,
    /// It is a directory.
    Directory,
    /// For another reason.
    Other,
}

/// Why nothing, or not all, was made of a page, or of all.
#[derive(Clone, Copy, Debug, PartialEq, Eq)]
pub enum PageFault {
    /// Its longest front that is UTF-8 has `at` bytes.
    NotUtf8 { at: u64 },
    /// It can't be opened.
    Open { why: Why },
    /// A read failed.
    Read,
    /// A write to standard output failed.
    Write,
    /// Out of memory.
    Memory,
}

impl From<AllocError> for PageFault {
    ghost from_gives = { λ _ made. made ≡ Memory };

    fn from(_fault: AllocError) -> PageFault {
        PageFault::Memory
    }
}

/// No text is refused, so what is no other fault is out of memory.
impl From<NormalFault> for PageFault {
    ghost from_gives = { λ fault made. made ≡ normal_fault_of fault };

    fn from(fault: NormalFault) -> PageFault {
        match fault {
            NormalFault::NotUtf8 { at } => PageFault::NotUtf8 { at },
            NormalFault::Read => PageFault::Read,
            NormalFault::Write => PageFault::Write,
            NormalFault::Memory | NormalFault::Refused => PageFault::Memory,
        }
    }
}

impl From<ParseFault> for PageFault {
    ghost from_gives = { λ _ made. made ≡ Memory };

    fn from(_fault: ParseFault) -> PageFault {
        PageFault::Memory
    }
}

impl From<SerializeFault> for PageFault {
    ghost from_gives = { λ fault made. made ≡ serialize_fault_of fault };

    fn from(fault: SerializeFault) -> PageFault {
        match fault {
            SerializeFault::Memory => PageFault::Memory,
            _ => PageFault::Write,
        }
    }
}

/// Why a file can't be opened, in words.
fn open_words(why: Why) -> &'static str
    ensures { result.now ≡ open_words why }
{
    match why {
        Why::Missing => "cannot be opened: no such file",
        Why::Forbidden => "cannot be opened: permission denied",
        Why::Directory => "cannot be opened: is a directory",
        Why::Other => "cannot be opened",
    }
}

/// Writes what a fault is.
fn put_fault<Errors: Target>(errors: &mut Errors, fault: PageFault) -> Result<(), DeviceFault>
    ensures { IsPut (fault_words fault) (Errors.written errors.old) (Errors.written errors.new) (is_err result) }
{
    match fault {
        PageFault::NotUtf8 { at } => put_numbered(errors, "not UTF-8 at byte ", at),
        PageFault::Open { why } => put(errors, open_words(why)),
        PageFault::Read => put(errors, "cannot be read"),
        PageFault::Write => put(errors, "standard output cannot be written"),
        PageFault::Memory => put(errors, "no memory was left"),
    }
}

/// Writes what a fault is, and the end of the line.
fn put_end<Errors: Target>(errors: &mut Errors, fault: PageFault) -> Result<(), DeviceFault>
    ensures { IsPut (fault_words fault ++ 10 ∷ []) (Errors.written errors.old) (Errors.written errors.new) (is_err result) }
{
    put_fault(errors, fault)?;
    put(errors, "\n")
}

/// Writes what stands after a name.
fn put_rest<Errors: Target>(errors: &mut Errors, fault: PageFault) -> Result<(), DeviceFault>
    ensures { IsPut (codes ": " ++ (fault_words fault ++ 10 ∷ [])) (Errors.written errors.old) (Errors.written errors.new)
        (is_err result) }
{
    put(errors, ": ")?;
    put_end(errors, fault)
}

/// Writes a line: a name, and what went wrong with it.
fn put_line<Errors: Target>(
    errors: &mut Errors,
    name: &str,
    fault: PageFault,
) -> Result<(), DeviceFault>
    ensures { IsPut (fault_line name.now fault) (Errors.written errors.old) (Errors.written errors.new) (is_err result) }
{
    put(errors, name)?;
    put_rest(errors, fault)
}

/// Reports on standard error what went wrong with a page, or with the program itself. A failed write to standard output is not reported:
/// its reader may have closed the pipe, and the caller sees it by the verdict.
pub fn report<Errors: Target>(errors: &mut Errors, name: &str, fault: PageFault) -> Verdict
    ensures verdict { result ≡ verdict_of fault }
    ensures line { IsReported name.now fault (Errors.written errors.old) (Errors.written errors.new) }
{
    match fault {
        PageFault::Write => Verdict::Unwritten,
        _ => {
            let _ = put_line(errors, name, fault);
            Verdict::Fault
        }
    }
}

/// Writes what was not written, and the end of the line.
fn put_unwritten<Errors: Target>(errors: &mut Errors, output: &str) -> Result<(), DeviceFault>
    ensures { IsPut (output.now ++ codes " cannot be written\n") (Errors.written errors.old) (Errors.written errors.new) (is_err result) }
{
    put(errors, output)?;
    put(errors, " cannot be written\n")
}

/// Writes a line that says what was not written.
fn put_unwritten_line<Errors: Target>(errors: &mut Errors, output: &str) -> Result<(), DeviceFault>
    ensures { IsPut (unwritten_line output.now) (Errors.written errors.old) (Errors.written errors.new) (is_err result) }
{
    put(errors, "figpliers: ")?;
    put_unwritten(errors, output)
}

/// Writes to standard error that not all was written to standard output, or to the file that is named.
pub fn report_unwritten<Errors: Target>(errors: &mut Errors, output: &str)
    ensures { (failed : Bool) × IsPut (unwritten_line output.now) (Errors.written errors.old) (Errors.written errors.new) failed }
{
    let _ = put_unwritten_line(errors, output);
}
