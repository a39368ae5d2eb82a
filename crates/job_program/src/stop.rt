// Why the program of a job isn't run.
ghost use Rattle.std.specs.Prelude.{◌≡◌};
ghost use Rattle.report_text.specs.Views.{IsEnding, ending_view};

use card_definitions::CardFault;
use card_reader::{CardStop, ReadingFault};
use command_line::WordsStop;
use control_compiler::ControlFault;
use report_text::Ending;
use thiserror::Error;

/// Why the program of a job isn't run.
#[derive(Clone, Copy, Debug, Error)]
pub enum EarlyStop {
    /// The words of the command line are refused.
    #[error("the words are refused")]
    Words,
    /// A read of the job failed.
    #[error("a read failed")]
    ReadFault,
    /// The cards of the job are refused.
    #[error("{0}")]
    Card(CardFault),
    /// A control card is refused.
    #[error("{0}")]
    Control(ControlFault),
    /// There is no memory.
    #[error("out of memory")]
    Memory,
}

impl From<WordsStop> for EarlyStop {
    ghost use Rattle.job_program.specs.Stops.{stop_of_words};

    ghost from_gives = { λ stop given. given ≡ stop_of_words stop };

    fn from(stop: WordsStop) -> EarlyStop {
        match stop {
            WordsStop::Refused => EarlyStop::Words,
            WordsStop::NoMemory => EarlyStop::Memory,
        }
    }
}

impl From<CardStop<ReadingFault>> for EarlyStop {
    ghost use Rattle.job_program.specs.Stops.{stop_of_reading};

    ghost from_gives = { λ stop given. given ≡ stop_of_reading stop };

    fn from(stop: CardStop<ReadingFault>) -> EarlyStop {
        match stop {
            CardStop::Fault(ReadingFault::Source) => EarlyStop::ReadFault,
            CardStop::Fault(ReadingFault::Card(fault)) => EarlyStop::Card(fault),
            CardStop::NoMemory => EarlyStop::Memory,
        }
    }
}

impl From<CardStop<ControlFault>> for EarlyStop {
    ghost use Rattle.job_program.specs.Stops.{stop_of_compiling};

    ghost from_gives = { λ stop given. given ≡ stop_of_compiling stop };

    fn from(stop: CardStop<ControlFault>) -> EarlyStop {
        match stop {
            CardStop::Fault(fault) => EarlyStop::Control(fault),
            CardStop::NoMemory => EarlyStop::Memory,
        }
    }
}

impl EarlyStop {
    ghost use Rattle.job_program.specs.Stops.{stop_view};

    /// What is printed of it.
    pub fn ending(self) -> Ending<'static>
        ensures viewed { ending_view result ≡ stop_view self }
        ensures lawful { IsEnding result }
    {
        match self {
            EarlyStop::Words => Ending::Words,
            EarlyStop::ReadFault => Ending::ReadFault,
            EarlyStop::Card(fault) => Ending::Card(fault),
            EarlyStop::Control(fault) => Ending::Control {
                fault: fault.number,
                card: fault.card,
            },
            EarlyStop::Memory => Ending::Memory,
        }
    }
}
