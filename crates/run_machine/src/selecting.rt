// What the present cells select of a problem.
ghost use Rattle.std.specs.Prelude.{◌≡◌, true, Ok, IfOk, IfErr};
ghost use Rattle.selection_definitions.specs.Selection.{selected};
ghost use Rattle.selection_definitions.specs.Making.{is_made};
ghost use Rattle.lp_setup.specs.Stops.{fault_of, IsOverflowOf};
ghost use Rattle.run_definitions.specs.State.{choice_of};
ghost use Rattle.run_definitions.specs.Verbs.{selection_verb_fault};
ghost use Rattle.run_machine.specs.Choosing.{refusal_of, IsUnselected};

use crate::act::{Act, Halt};
use crate::end::End;
use control_verbs::SetupOptions;
use listing_definitions::VerbFault;
use lp_definitions::Evidence;
use lp_model::Lp;
use lp_setup::{Choice, SelectStop, select};
use problem_file::Problem;
use run_cells::{Cells, NameCell};
use selection_definitions::SelectionFault;
use std::alloc::Global;
use thiserror::Error;

/// Why a statement does nothing.
#[derive(Clone, Copy, Debug, Error)]
pub enum Refusal {
    /// It is refused.
    #[error("{0}")]
    Fault(VerbFault),
    /// An operation of the selection is refused.
    #[error("formula {}: {}", .0.formula, .0.refused)]
    Overflow(Evidence),
    /// There is no memory.
    #[error("out of memory")]
    NoMemory,
}

impl Refusal {
    ghost use Rattle.std.specs.Prelude.{◌≡◌};
    ghost use Rattle.run_machine.specs.Choosing.{refused_end, refused_act};

    /// The end of the run at the statement of this card.
    pub fn end_at(self, card: u32) -> Result<End, Halt>
        ensures { result ≡ refused_end card self }
    {
        match self {
            Refusal::Fault(fault) => Ok(End::Verb { fault, card }),
            Refusal::Overflow(evidence) => Ok(End::Overflow {
                evidence,
                place: None,
                card,
            }),
            Refusal::NoMemory => Err(Halt::NoMemory),
        }
    }

    /// What the statement of this card comes to.
    pub fn act(self, card: u32) -> Result<Act, Halt>
        ensures { result ≡ refused_act card self }
    {
        self.end_at(card).map(Act::Ends)
    }
}

// The verb fault of a fault of the choice.
fn verb_fault_of(fault: SelectionFault) -> VerbFault
    ensures { result ≡ selection_verb_fault fault }
{
    match fault {
        SelectionFault::NoObjective => VerbFault::NoObjective,
        SelectionFault::ObjectiveNotFree => VerbFault::ObjectiveNotFree,
        SelectionFault::NoRhsSet => VerbFault::NoRhsSet,
        SelectionFault::NoRangeSet => VerbFault::NoRangeSet,
        SelectionFault::NoBoundSet => VerbFault::NoBoundSet,
    }
}

// Why nothing is selected.
fn refusal_of(stop: SelectStop) -> Refusal
    ensures { result ≡ refusal_of stop }
{
    match stop {
        SelectStop::Fault(fault) => Refusal::Fault(verb_fault_of(fault)),
        SelectStop::Overflow(evidence) => Refusal::Overflow(evidence),
        SelectStop::NoMemory => Refusal::NoMemory,
    }
}

/// What the present cells choose with these options.
pub fn present_choice(cells: &Cells, options: SetupOptions) -> Choice
    ensures { result ≡ choice_of cells.now options }
{
    Choice {
        objective: cells.name(NameCell::Xobj),
        rhs: cells.name(NameCell::Xrhs),
        options,
    }
}

/// The linear program that the present cells select of a problem, with these options. None of its operations is refused.
pub fn select_present(
    alloc: Global,
    problem: &Problem,
    cells: &Cells,
    options: SetupOptions,
) -> Result<Lp, Refusal>
    ensures selected { IfOk result
        (λ lp. selected problem.now (choice_of cells.now options) ≡ Ok lp) }
    ensures made { IfOk result (λ _. is_made problem.now (choice_of cells.now options) ≡ true) }
    ensures refused { IfErr result (IsUnselected problem.now (choice_of cells.now options)) }
{
    let choice = present_choice(cells, options);
    match select(alloc, problem, &choice) {
        Ok(lp) => Ok(lp),
        Err(stop) => Err(refusal_of(stop)),
    }
}
