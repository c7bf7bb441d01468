//! What a call answers.
ghost use Rattle.std.specs.Prelude.{◌≡◌, ℕ, List};
ghost use Rattle.html_ffi.specs.Answers.{Fails, failure_of, image_failure_of, number_of, policy_failure_of, read_failure_of, row_failure_of};
ghost use Rattle.html_ffi.specs.Answers.{selector_failure_of, table_failure_of};
ghost use Rattle.html_ffi.specs.declared.answer.Answer.TheVariants.{Memory};

use html_image_reader::ReadFault;
use html_normal::{NormalFault, TableFault, TableFileFault};
use html_policy_text::PolicyFault;
use html_selector_text::SelectorError;
use html_tree_image::ImageFault;
use std::alloc::{AllocError, AllocFailed};

/// What a call answers. The numbers stand in C's header, and never change.
#[derive(Clone, Copy)]
pub enum Answer {
    /// The text was written.
    Done,
    /// The page is not UTF-8.
    NotUtf8,
    /// The room is too short.
    TooShort,
    /// There was not enough memory.
    Memory,
    /// The image of the tree would have a part of 2^32 bytes or more.
    TooLarge,
    /// The table is not UTF-8.
    TableNotUtf8,
    /// A line of the table is no row.
    TableLine,
    /// A row of the table has a bad name.
    TableName,
    /// A row of the table has the name of an earlier one.
    TableDuplicate,
    /// A row of the table has a value that is no character.
    TableValue,
    /// The selectors are not UTF-8.
    SelectorNotUtf8,
    /// The text is no selectors.
    Selector,
    /// The bytes are not the image of a tree.
    NotAnImage,
    /// The tree has no node of that number.
    NoNode,
    /// The policy's text, or the name of a ready policy, is not UTF-8.
    PolicyNotUtf8,
    /// A line of the policy's text is no rule.
    PolicyLine,
    /// The policy names an element, an attribute or a scheme that is never kept.
    NeverKept,
    /// There is no ready policy of that name.
    NoPolicy,
    /// The name of a fragment's context is not UTF-8.
    ContextNotUtf8,
}

impl Answer {
    /// The number that C gets.
    pub fn number(self) -> u32
        ensures { result ≡ number_of self }
    {
        match self {
            Answer::Done => 0,
            Answer::NotUtf8 => 1,
            Answer::TooShort => 2,
            Answer::Memory => 3,
            Answer::TooLarge => 4,
            Answer::TableNotUtf8 => 16,
            Answer::TableLine => 17,
            Answer::TableName => 18,
            Answer::TableDuplicate => 19,
            Answer::TableValue => 20,
            Answer::SelectorNotUtf8 => 32,
            Answer::Selector => 33,
            Answer::NotAnImage => 48,
            Answer::NoNode => 49,
            Answer::PolicyNotUtf8 => 64,
            Answer::PolicyLine => 65,
            Answer::NeverKept => 66,
            Answer::NoPolicy => 67,
            Answer::ContextNotUtf8 => 80,
        }
    }
}

/// Why a call has no text, and the place that it tells: a number of bytes, or of a line or a row.
#[derive(Clone, Copy)]
pub struct Failure {
    /// Neither `Done` nor `TooShort`.
    pub answer: Answer,
    /// 0 for `Memory`.
    pub at: u64,
}

/// Out of memory.
pub(crate) fn no_memory() -> Failure
    ensures is { result ≡ record { answer = Memory; at = 0 } }
    ensures fails { (file page : List ℕ) → Fails file page result.answer result.at }
{
    Failure {
        answer: Answer::Memory,
        at: 0,
    }
}

impl From<AllocError> for Failure {
    ghost from_gives = { λ _ made. made ≡ record { answer = Memory; at = 0 } };

    fn from(_error: AllocError) -> Failure {
        no_memory()
    }
}

impl<T: Drop> From<AllocFailed<T>> for Failure {
    ghost from_gives = { λ _ made. made ≡ record { answer = Memory; at = 0 } };

    fn from(_error: AllocFailed<T>) -> Failure {
        no_memory()
    }
}

/// Reading from memory doesn't fail, writing to memory fails only where none is left, and no text is refused.
impl From<NormalFault> for Failure {
    ghost from_gives = { λ fault made. made ≡ failure_of fault };

    fn from(fault: NormalFault) -> Failure {
        match fault {
            NormalFault::NotUtf8 { at } => Failure {
                answer: Answer::NotUtf8,
                at,
            },
            NormalFault::Read | NormalFault::Write | NormalFault::Memory | NormalFault::Refused =>
                no_memory(),
        }
    }
}

/// Of the rows of a table.
fn row_failure(fault: TableFault) -> Failure
    ensures { result ≡ row_failure_of fault }
{
    match fault {
        TableFault::BadName(at) => Failure {
            answer: Answer::TableName,
            at,
        },
        TableFault::Duplicate(at) => Failure {
            answer: Answer::TableDuplicate,
            at,
        },
        TableFault::BadValue(at) => Failure {
            answer: Answer::TableValue,
            at,
        },
        TableFault::Memory => no_memory(),
    }
}

impl From<TableFileFault> for Failure {
    ghost from_gives = { λ fault made. made ≡ table_failure_of fault };

    fn from(fault: TableFileFault) -> Failure {
        match fault {
            TableFileFault::NotUtf8 { at } => Failure {
                answer: Answer::TableNotUtf8,
                at,
            },
            TableFileFault::BadLine(at) => Failure {
                answer: Answer::TableLine,
                at,
            },
            TableFileFault::Table(fault) => row_failure(fault),
            TableFileFault::Read | TableFileFault::Memory => no_memory(),
        }
    }
}

impl From<ImageFault> for Failure {
    ghost from_gives = { λ fault made. made ≡ image_failure_of fault };

    fn from(fault: ImageFault) -> Failure {
        match fault {
            ImageFault::Memory => no_memory(),
            ImageFault::TooLarge => Failure {
                answer: Answer::TooLarge,
                at: 0,
            },
        }
    }
}

impl From<ReadFault> for Failure {
    ghost from_gives = { λ fault made. made ≡ read_failure_of fault };

    fn from(fault: ReadFault) -> Failure {
        match fault {
            ReadFault::Memory => no_memory(),
            ReadFault::NotAnImage => Failure {
                answer: Answer::NotAnImage,
                at: 0,
            },
        }
    }
}

impl From<SelectorError> for Failure {
    ghost from_gives = { λ error made. made ≡ selector_failure_of error };

    fn from(error: SelectorError) -> Failure {
        match error {
            SelectorError::Memory => no_memory(),
            SelectorError::Syntax { at, .. } => Failure {
                answer: Answer::Selector,
                at: at as u64,
            },
        }
    }
}

impl From<PolicyFault> for Failure {
    ghost from_gives = { λ fault made. made ≡ policy_failure_of fault };

    fn from(fault: PolicyFault) -> Failure {
        match fault {
            PolicyFault::Memory => no_memory(),
            PolicyFault::Line { line, .. } => Failure {
                answer: Answer::PolicyLine,
                at: line as u64,
            },
        }
    }
}
