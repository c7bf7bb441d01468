//! Why reading a document gave up.

use std::alloc::{AllocError, AllocFailed};
use thiserror::Error;

/// Why a call of the tokenizer, the tree builder, the parser or a sink gave up.
#[derive(Clone, Copy, Debug, PartialEq, Eq, Hash, Error)]
pub enum ParseFault {
    /// No memory was left.
    #[error("no memory was left")]
    Memory = 1,
    /// A token that cannot come while the text of a raw element is read.
    #[error("a token that cannot come in the text of a raw element")]
    TokenInText = 2,
    /// The end was told before.
    #[error("the end was told before")]
    Ended = 3,
    /// The fields do not fit one another, as when they were changed by hand.
    #[error("the fields do not fit one another")]
    Shape = 4,
    /// An earlier call gave up, and the value serves no more.
    #[error("an earlier call gave up")]
    Failed = 5,
}

impl From<AllocError> for ParseFault {
    ghost use Rattle.std.specs.Prelude.{◌≡◌};
    ghost use Rattle.markup.specs.declared.fault.ParseFault.TheVariants.{Memory};

    ghost from_gives = { λ _ fault. fault ≡ Memory };

    fn from(_error: AllocError) -> ParseFault {
        ParseFault::Memory
    }
}

impl<T: Drop> From<AllocFailed<T>> for ParseFault {
    ghost use Rattle.std.specs.Prelude.{◌≡◌};
    ghost use Rattle.markup.specs.declared.fault.ParseFault.TheVariants.{Memory};

    ghost from_gives = { λ _ fault. fault ≡ Memory };

    fn from(_error: AllocFailed<T>) -> ParseFault {
        ParseFault::from(AllocError)
    }
}
