//! Control programs: the statements that a job's control cards make up, and the first control fault. Definitions alone, and
//! the enums that they share with the code.
#![tactic(auto)]

ghost use Rattle.std.specs.Prelude.{◌≡◌};
ghost use Rattle.control_definitions.specs.Compiled.{fault_number, fault_at};

pub use lp_definitions::Sense;
use thiserror::Error;

/// A cell that holds a name.
#[derive(Clone, Copy, Debug, PartialEq, Eq)]
pub enum NameCell {
    /// The deck that CONVERT and REVISE take.
    Xdata,
    /// The problem that is set up or punched, and the name under which one is filed.
    Xpbname,
    /// The objective row.
    Xobj,
    /// The right-hand side set.
    Xrhs,
    /// The problem that REVISE starts from.
    Xoldname,
    /// The change row of PARAOBJ.
    Xchrow,
    /// The set that PARARHS adds to the right-hand side.
    Xchcol,
}

/// A cell that holds a number.
#[derive(Clone, Copy, Debug, PartialEq, Eq)]
pub enum NumberCell {
    /// The first value of the parameter.
    Xparam,
    /// The last value of the parameter.
    Xparmax,
}

/// What a verdict other than optimal jumps by.
#[derive(Clone, Copy, Debug, PartialEq, Eq)]
pub enum Demand {
    /// Where an infeasible verdict goes.
    Xdonfs,
    /// Where an unbounded verdict goes.
    Xdounb,
}

/// Why a control card is refused.
#[derive(Clone, Copy, Debug, PartialEq, Eq, Error)]
pub enum ControlFaultKind {
    /// The first card isn't PROGRAM.
    #[error("there is no PROGRAM")]
    NoProgram,
    /// The job ends before PEND.
    #[error("there is no PEND")]
    NoPend,
    #[error("a verb is unknown")]
    UnknownVerb,
    /// The label isn't of a label's form.
    #[error("a label has not a label's form")]
    BadLabel,
    /// A card before has the label.
    #[error("a label stands twice")]
    LabelTwice,
    /// No card has a label that the statement names.
    #[error("a label is missing")]
    NoLabel,
    /// The arguments have not the form of the verb.
    #[error("the arguments have not the verb's form")]
    BadArgument,
    #[error("a cell is unknown")]
    UnknownCell,
    #[error("a demand is unknown")]
    UnknownDemand,
    /// A quote is open at the end of the columns that are read.
    #[error("a quote isn't closed")]
    Unclosed,
    #[error("there are too many statements")]
    TooManyStatements,
}

impl ControlFaultKind {
    /// The number of the fault, from 1 to 11.
    pub fn number(self) -> u8
        ensures { result ≡ fault_number self }
    {
        match self {
            ControlFaultKind::NoProgram => 1,
            ControlFaultKind::NoPend => 2,
            ControlFaultKind::UnknownVerb => 3,
            ControlFaultKind::BadLabel => 4,
            ControlFaultKind::LabelTwice => 5,
            ControlFaultKind::NoLabel => 6,
            ControlFaultKind::BadArgument => 7,
            ControlFaultKind::UnknownCell => 8,
            ControlFaultKind::UnknownDemand => 9,
            ControlFaultKind::Unclosed => 10,
            ControlFaultKind::TooManyStatements => 11,
        }
    }

    /// The fault on this card.
    pub fn on_card(self, card: u32) -> ControlFault
        ensures { result ≡ fault_at card self }
    {
        ControlFault {
            number: self.number(),
            card,
        }
    }
}

/// The number of a control fault, from 1 to 11, and its card. The card is 0 where the job has none.
#[derive(Clone, Copy, Debug, PartialEq, Eq, Error)]
#[error("card {card}: control fault {number}")]
pub struct ControlFault {
    pub number: u8,
    pub card: u32,
}

/// A program has at most this many statements.
pub const MAX_STATEMENTS: usize = 5000;

/// The columns of a control card that are read.
pub const READ_COLUMNS: usize = 72;

/// The most steps that XITERLIM allows.
pub const MAX_STEPS: u32 = 1_000_000;
