// What words ask for.
ghost use Rattle.std.specs.Prelude.{◌≡◌};

use std::alloc::AllocError;
use thiserror::Error;

/// What is asked for.
#[derive(Clone, Copy, Debug, PartialEq, Eq)]
pub enum Request {
    /// To run the job that is read.
    Read,
    /// To run the generated job of this size.
    Make(u32),
}

/// Why the words ask for nothing.
#[derive(Clone, Copy, Debug, PartialEq, Eq, Error)]
pub enum WordsStop {
    #[error("the words are refused")]
    Refused,
    #[error("out of memory")]
    NoMemory,
}

impl From<AllocError> for WordsStop {
    ghost use Rattle.command_line.specs.declared.request.WordsStop.TheVariants.{NoMemory};

    ghost from_gives = { λ _ given. given ≡ NoMemory };

    fn from(_: AllocError) -> Self {
        WordsStop::NoMemory
    }
}
