// What the present cells select of a problem.
ghost use Rattle.std.specs.Prelude.{◌≡◌, IfOk, IfErr};
ghost use Rattle.run_definitions.specs.State.{choice_of};
ghost use Rattle.listing_walk.specs.Choosing.{unselected_by, IsMade, IsNotMade};

use control_verbs::SetupOptions;
use listing_definitions::VerbFault;
use lp_model::Lp;
use problem_file::Problem;
use run_cells::Cells;
use run_machine::Refusal;
use std::alloc::Global;
use thiserror::Error;

/// Why there is no linear program.
#[derive(Clone, Copy, Debug, Error)]
pub enum Unselected {
    /// The statement is refused.
    #[error("the statement is refused")]
    Fault(VerbFault),
    /// An operation of the selection is refused.
    #[error("an operation of the selection is refused")]
    Unchecked,
    /// There is no memory.
    #[error("there is no memory")]
    NoMemory,
}

// Why nothing is selected, without the evidence.
fn unselected_by(refusal: Refusal) -> Unselected
    ensures { result ≡ unselected_by refusal }
{
    match refusal {
        Refusal::Fault(fault) => Unselected::Fault(fault),
        Refusal::Overflow(_) => Unselected::Unchecked,
        Refusal::NoMemory => Unselected::NoMemory,
    }
}

/// The linear program that the present cells select of a problem, with these options. None of its operations is refused.
pub fn select_present(
    alloc: Global,
    problem: &Problem,
    cells: &Cells,
    options: SetupOptions,
) -> Result<Lp, Unselected>
    ensures made { IfOk result (IsMade problem.now (choice_of cells.now options)) }
    ensures refused { IfErr result (IsNotMade problem.now (choice_of cells.now options)) }
{
    match run_machine::select_present(alloc, problem, cells, options) {
        Ok(lp) => Ok(lp),
        Err(refusal) => Err(unselected_by(refusal)),
    }
}
