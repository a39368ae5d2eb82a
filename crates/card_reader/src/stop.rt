// Why work on cards stops, and what keeps a job from being read.
ghost use Rattle.std.specs.Prelude.{◌≡◌};

use card_definitions::CardFault;
use job_devices::SourceStop;
use std::alloc::{AllocError, AllocFailed};
use std::fmt::Display;
use thiserror::Error;

/// Why work on cards stopped: for a fault that was found in them, or because memory ran out.
#[derive(Clone, Copy, Debug, PartialEq, Eq, Error)]
pub enum CardStop<F: Display> {
    /// This is the fault.
    #[error("{0}")]
    Fault(F),
    /// Memory ran out.
    #[error("out of memory")]
    NoMemory,
}

impl<F: Display> From<AllocError> for CardStop<F> {
    ghost use Rattle.card_reader.specs.declared.stop.CardStop.TheVariants.{NoMemory};

    ghost from_gives = { λ _ stop. stop ≡ NoMemory };

    fn from(_: AllocError) -> Self {
        CardStop::NoMemory
    }
}

impl<F: Display, T: Drop> From<AllocFailed<T>> for CardStop<F> {
    ghost use Rattle.card_reader.specs.declared.stop.CardStop.TheVariants.{NoMemory};

    ghost from_gives = { λ _ stop. stop ≡ NoMemory };

    fn from(_: AllocFailed<T>) -> Self {
        CardStop::NoMemory
    }
}

/// What keeps a job from being read.
#[derive(Clone, Copy, Debug, PartialEq, Eq, Error)]
pub enum ReadingFault {
    /// The source failed, and has counted it.
    #[error("a read failed")]
    Source,
    /// The first fault of the cards.
    #[error(transparent)]
    Card(CardFault),
}

impl From<SourceStop> for CardStop<ReadingFault> {
    ghost use Rattle.card_reader.specs.Stop.{stop_of_source};

    ghost from_gives = { λ source_stop stop. stop ≡ stop_of_source source_stop };

    fn from(stop: SourceStop) -> Self {
        match stop {
            SourceStop::Failed => CardStop::Fault(ReadingFault::Source),
            SourceStop::NoMemory => CardStop::NoMemory,
        }
    }
}
