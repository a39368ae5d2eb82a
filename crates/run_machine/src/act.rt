// What a statement leads to.

use crate::end::End;
use job_devices::{NoMemory, WriteStop};
use thiserror::Error;

/// What follows a statement.
#[derive(Drop)]
pub enum Act {
    /// The next statement.
    Next,
    /// The statement with this number, from 1, or the program's end.
    Jump(u32),
    /// The end of the run.
    Ends(End),
}

/// Where a statement leads.
#[derive(Drop)]
pub enum AfterStatement {
    /// To the statement with this number, from 1, or to the program's end.
    Goes(u32),
    /// To the end of the run.
    Ends(End),
}

impl Act {
    ghost use Rattle.std.specs.Prelude.{◌≡◌, ◌<◌};
    ghost use Rattle.run_machine.specs.Turning.{turn_of};

    /// Where it leads from the statement with this number.
    pub fn turn(self, position: u32) -> AfterStatement
        requires { position < 4294967295 }
        ensures { result ≡ turn_of position self }
    {
        match self {
            Act::Next => AfterStatement::Goes(position + 1),
            Act::Jump(to) => AfterStatement::Goes(to),
            Act::Ends(end) => AfterStatement::Ends(end),
        }
    }
}

/// Why a statement comes to nothing.
#[derive(Clone, Copy, Debug, Error)]
pub enum Halt {
    /// The print took no more.
    #[error("print: {0}")]
    Print(WriteStop),
    /// The punch took no more of a deck.
    #[error("punch: {0}")]
    Punch(WriteStop),
    /// Memory ran out.
    #[error("out of memory")]
    NoMemory,
}

impl From<WriteStop> for Halt {
    ghost use Rattle.std.specs.Prelude.{◌≡◌};
    ghost use Rattle.run_machine.specs.declared.act.Halt.TheVariants as halt;

    ghost from_gives = { λ stop h. h ≡ halt.Print stop };

    fn from(stop: WriteStop) -> Halt {
        Halt::Print(stop)
    }
}

impl From<NoMemory> for Halt {
    ghost use Rattle.std.specs.Prelude.{◌≡◌};
    ghost use Rattle.run_machine.specs.declared.act.Halt.TheVariants as halt;

    ghost from_gives = { λ _ h. h ≡ halt.NoMemory };

    fn from(_refused: NoMemory) -> Halt {
        Halt::NoMemory
    }
}
