// What PARAOBJ and PARARHS ask for.
ghost use Rattle.std.specs.Prelude.{IfOk, IfErr};
ghost use Rattle.control_definitions.specs.Cells.{steps_allowed};
ghost use Rattle.parametric_request.specs.Asking.{Changes, IsAsked, IsNoChange, IsNotAsked, IsLastValue, IsLastFault, IsChangeOf, IsOf, changing_of};
ghost use Rattle.parametric_request.specs.Asking.{parametric_run_of};

use frac128::Frac;
use listing_definitions::VerbFault;
use lp_setup::{free_row, set_values};
use name_table::Name;
use problem_file::Problem;
use run_cells::{Cells, NameCell};
use std::alloc::Global;
use thiserror::Error;

/// A verb that makes a parametric run.
#[derive(Clone, Copy, Debug)]
pub enum ParametricVerb {
    Paraobj,
    Pararhs,
}

/// What changes along a parametric run.
#[derive(Drop)]
pub enum Change {
    /// Theta times the row of this number is added to the objective.
    Row(u32),
    /// Theta times its shift is added to the limits of each row.
    Set(Vec<Frac>),
}

/// A parametric run that is asked for: the name of the row or set that changes, what changes by it, and the first and the last value.
#[derive(Drop)]
pub struct ParametricRequest {
    pub name: Name,
    pub change: Change,
    pub from: Frac,
    pub to: Frac,
}

/// Why no parametric run is asked for.
#[derive(Clone, Copy, Debug, Error)]
pub enum RequestStop {
    /// The statement is refused.
    #[error("{0}")]
    Fault(VerbFault),
    /// There is no memory.
    #[error("out of memory")]
    NoMemory,
}

// The last value, where it isn't less than the first.
fn last_value(cells: &Cells) -> Result<Frac, VerbFault>
    ensures last { IfOk result (IsLastValue cells.now) }
    ensures fault { IfErr result (IsLastFault cells.now) }
{
    let Some(last) = cells.parmax() else {
        return Err(VerbFault::NoParmax);
    };
    if last.is_less(cells.param()) {
        return Err(VerbFault::ParmaxBelow);
    }
    Ok(last)
}

// The row that changes, by the cells, with its name.
fn row_of(problem: &Problem, cells: &Cells) -> Result<(Name, Change), RequestStop>
    ensures changes { IfOk result
        (λ made. Changes ParametricVerb.Paraobj problem.now cells.now (changing_of made.0 made.1)) }
    ensures of { IfOk result (λ made. IsChangeOf problem.now made.0 made.1) }
    ensures refused { IfErr result (IsNoChange ParametricVerb.Paraobj problem.now cells.now) }
{
    let Some(name) = cells.name(NameCell::Xchrow) else {
        return Err(RequestStop::Fault(VerbFault::NoChangeRow));
    };
    let Some(row) = free_row(problem, &name) else {
        return Err(RequestStop::Fault(VerbFault::NoChangeRow));
    };
    Ok((name, Change::Row(row)))
}

// The set that changes, by the cells, with its name.
fn set_of(alloc: Global, problem: &Problem, cells: &Cells) -> Result<(Name, Change), RequestStop>
    ensures changes { IfOk result
        (λ made. Changes ParametricVerb.Pararhs problem.now cells.now (changing_of made.0 made.1)) }
    ensures of { IfOk result (λ made. IsChangeOf problem.now made.0 made.1) }
    ensures refused { IfErr result (IsNoChange ParametricVerb.Pararhs problem.now cells.now) }
{
    let Some(name) = cells.name(NameCell::Xchcol) else {
        return Err(RequestStop::Fault(VerbFault::NoChangeSet));
    };
    let Ok(values) = set_values(alloc, problem, &name) else {
        return Err(RequestStop::NoMemory);
    };
    let Some(shift) = values else {
        return Err(RequestStop::Fault(VerbFault::NoChangeSet));
    };
    Ok((name, Change::Set(shift)))
}

/// What a verb changes by the cells, with its name.
pub fn change_of(
    alloc: Global,
    problem: &Problem,
    cells: &Cells,
    verb: ParametricVerb,
) -> Result<(Name, Change), RequestStop>
    ensures changes { IfOk result
        (λ made. Changes verb problem.now cells.now (changing_of made.0 made.1)) }
    ensures of { IfOk result (λ made. IsChangeOf problem.now made.0 made.1) }
    ensures refused { IfErr result (IsNoChange verb problem.now cells.now) }
{
    match verb {
        ParametricVerb::Paraobj => row_of(problem, cells),
        ParametricVerb::Pararhs => set_of(alloc, problem, cells),
    }
}

/// The parametric run that a verb asks for by the cells.
pub fn request_of(
    alloc: Global,
    problem: &Problem,
    cells: &Cells,
    verb: ParametricVerb,
) -> Result<ParametricRequest, RequestStop>
    ensures asked { IfOk result (λ request. IsAsked verb problem.now cells.now
        (parametric_run_of (steps_allowed cells.now) request)) }
    ensures of { IfOk result (IsOf problem.now) }
    ensures refused { IfErr result (IsNotAsked verb problem.now cells.now) }
{
    let (name, change) = match change_of(alloc, problem, cells, verb) {
        Ok(made) => made,
        Err(stop) => return Err(stop),
    };
    match last_value(cells) {
        Ok(to) => Ok(ParametricRequest {
            name,
            change,
            from: cells.param(),
            to,
        }),
        Err(fault) => Err(RequestStop::Fault(fault)),
    }
}
