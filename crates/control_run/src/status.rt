// The exit status of a run.
ghost use Rattle.std.specs.Prelude.{◌≡◌};

/// How a run ended.
#[derive(Clone, Copy, Debug, PartialEq, Eq)]
pub enum RunStatus {
    /// At the program's end, or with EXIT.
    Done,
    /// With an infeasible verdict.
    Infeasible,
    /// With an unbounded verdict.
    Unbounded,
    /// The words of the command line are refused.
    Words,
    /// A control card is refused.
    Control,
    /// A statement is refused.
    Verb,
    /// A card of a deck is refused.
    Deck,
    /// The cards of the job are refused.
    Card,
    /// A statement has made as many steps as it may.
    Limit,
    /// The run has made as many statements as it may.
    Statements,
    /// A number is too large.
    Overflow,
    /// A read of the job failed.
    ReadFault,
    /// A write to the print failed.
    PrintFault,
    /// A write to the punch failed.
    PunchFault,
    /// Memory ran out.
    Memory,
}

impl RunStatus {
    ghost use Rattle.control_run.specs.Statuses.{code_of};

    /// The exit code.
    pub fn code(self) -> u8
        ensures { result ≡ code_of self }
    {
        match self {
            RunStatus::Done => 0,
            RunStatus::Infeasible => 1,
            RunStatus::Unbounded => 2,
            RunStatus::Words => 4,
            RunStatus::Control => 8,
            RunStatus::Verb => 10,
            RunStatus::Deck => 12,
            RunStatus::Card => 13,
            RunStatus::Limit => 16,
            RunStatus::Statements => 17,
            RunStatus::Overflow => 20,
            RunStatus::ReadFault => 24,
            RunStatus::PrintFault => 25,
            RunStatus::PunchFault => 26,
            RunStatus::Memory => 28,
        }
    }
}
