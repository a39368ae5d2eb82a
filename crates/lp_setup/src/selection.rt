// The linear program of a selection.
ghost use Rattle.std.specs.Prelude.{◌≡◌, ◌++◌, true, IfOk, IfErr, Ok, length};
ghost use Rattle.lp_definitions.specs.LinearProgram.{IsLinearProgram};
ghost use Rattle.problem_definitions.specs.Valid.{AreEntries, AreBounds};
ghost use Rattle.selection_definitions.specs.Choice.{selection_fault};
ghost use Rattle.selection_definitions.specs.Limits.{value_on, column_limits};
ghost use Rattle.selection_definitions.specs.Selection.{selected};
ghost use Rattle.selection_definitions.specs.Making.{is_made};
ghost use Rattle.selection_definitions.specs.Programs.{side_on, program_with};
ghost use Rattle.lp_setup.specs.Parts.{by_number, limits_of_rows, IsRowOverflow, AreRowsMade};
ghost use Rattle.lp_setup.specs.Combined.{AreColumnsMade, IsProgramOverflow};
ghost use Rattle.lp_setup.specs.Stops.{fault_of, IsOverflowOf};

use crate::choice::Choice;
use crate::chosen::{chosen_items, is_not_free, objective_row, rhs_items};
use crate::limits::Limits;
use crate::matrix::matrix_columns;
use crate::parts::{
    limits_by_column, limits_by_row, lower_limits, right_hand_sides, upper_limits, values_by_row,
};
use crate::stop::SelectStop;
use frac128::Frac;
use lp_definitions::Sense;
use lp_model::{Lp, Stop};
use problem_file::{BoundItem, DeckEntry, Problem};
use selection_definitions::SelectionFault;
use std::alloc::Global;

/// The limits of the rows, and then of the columns.
fn all_limits(
    alloc: Global,
    problem: &Problem,
    sides: &[Frac],
    ranges: &[DeckEntry],
    bounds: &[BoundItem],
) -> Result<Vec<Limits>, Stop>
    requires side { length sides.now ≡ length problem.now.rows }
    requires range { AreEntries (length problem.now.rows) ranges.now }
    requires bound { AreBounds (length problem.now.columns) bounds.now }
    ensures limits { IfOk result (λ limits. limits.items ≡ limits_of_rows problem.now.rows sides.now
        (by_number (value_on ranges.now) (length problem.now.rows)) ++ by_number
        (column_limits bounds.now) (length problem.now.columns)) }
    ensures made { IfOk result (λ _. AreRowsMade problem.now.rows sides.now
        (by_number (value_on ranges.now) (length problem.now.rows)) (length problem.now.rows)) }
    ensures overflow { IfErr result (IsRowOverflow problem.now.rows sides.now
        (by_number (value_on ranges.now) (length problem.now.rows))) }
{
    let rows = problem.rows();
    let range_values = values_by_row(alloc, rows.len(), ranges)?;
    let mut limits = limits_by_row(alloc, rows, sides, &range_values)?;
    let columns = limits_by_column(alloc, problem.columns().len(), bounds)?;
    limits
        .extend_from_slice(&columns)
        .map_err(|_| Stop::NoMemory)?;
    Ok(limits)
}

/// What a choice selects of a problem: the number of the objective row, the items of the sets that apply, and the sense.
#[derive(Clone, Copy)]
struct Selection<'a> {
    objective: u32,
    rhs: &'a [DeckEntry],
    ranges: &'a [DeckEntry],
    bounds: &'a [BoundItem],
    sense: Sense,
}

/// The linear program of what is selected of a problem.
fn program(alloc: Global, problem: &Problem, selection: Selection<'_>) -> Result<Lp, Stop>
    requires lawful { IsLinearProgram (program_with problem.now selection.objective
        selection.rhs.now selection.ranges.now selection.bounds.now selection.sense) }
    requires side { AreEntries (length problem.now.rows) selection.rhs.now }
    requires range { AreEntries (length problem.now.rows) selection.ranges.now }
    requires bound { AreBounds (length problem.now.columns) selection.bounds.now }
    ensures program { IfOk result (λ lp. lp ≡ program_with problem.now selection.entry.objective
        selection.entry.rhs.now selection.entry.ranges.now selection.entry.bounds.now
        selection.entry.sense) }
    ensures limits_made { IfOk result
        (λ _. AreRowsMade problem.now.rows
        (by_number (side_on selection.entry.rhs.now) (length problem.now.rows))
        (by_number (value_on selection.entry.ranges.now) (length problem.now.rows))
        (length problem.now.rows)) }
    ensures columns_made { IfOk result (λ _. AreColumnsMade problem.now.rows problem.now.columns
        (length problem.now.columns)) }
    ensures overflow { IfErr result (IsProgramOverflow problem.now
        (by_number (side_on selection.entry.rhs.now) (length problem.now.rows))
        (by_number (value_on selection.entry.ranges.now) (length problem.now.rows))) }
{
    let rows = problem.rows();
    let sides = right_hand_sides(alloc, rows.len(), selection.rhs)?;
    let limits = all_limits(alloc, problem, &sides, selection.ranges, selection.bounds)?;
    let columns = matrix_columns(alloc, rows, problem.columns())?;
    let lower = lower_limits(alloc, &limits)?;
    let upper = upper_limits(alloc, &limits)?;
    Ok(Lp {
        rows: problem.row_count(),
        cols: problem.column_count(),
        columns,
        lower,
        upper,
        rhs: sides,
        objective: selection.objective,
        change: None,
        sense: selection.sense,
    })
}

/// The linear program that a choice selects of a problem, in memory of its own.
///
/// The faults of the choice come first, in the order of `SelectionFault`: an objective row, a right-hand side set, a range set or a
/// bound set that is chosen and isn't there, no N row where no objective is chosen, or an objective of another type. Without a
/// fault only three things stop: the sum that a range makes of a row's right-hand side is too large a number, or a product or a sum of a
/// combination is, or there is no memory. Where there is a linear program, no operation that it takes is refused.
pub fn select(alloc: Global, problem: &Problem, choice: &Choice) -> Result<Lp, SelectStop>
    ensures program { IfOk result (λ lp. selected problem.now choice.now ≡ Ok lp) }
    ensures made { IfOk result (λ _. is_made problem.now choice.now ≡ true) }
    ensures fault { IfErr result (λ stop. fault_of stop ≡ selection_fault problem.now choice.now) }
    ensures overflow { IfErr result (IsOverflowOf problem.now choice.now) }
{
    let rows = problem.rows();
    let options = choice.options;
    let Some(objective) = objective_row(rows, choice.objective) else {
        return Err(SelectStop::Fault(SelectionFault::NoObjective));
    };
    if is_not_free(rows, choice.objective) {
        return Err(SelectStop::Fault(SelectionFault::ObjectiveNotFree));
    }
    let Some(rhs) = rhs_items(problem.rhs(), choice.rhs) else {
        return Err(SelectStop::Fault(SelectionFault::NoRhsSet));
    };
    let Some(ranges) = chosen_items(problem.ranges(), options.range) else {
        return Err(SelectStop::Fault(SelectionFault::NoRangeSet));
    };
    let Some(bounds) = chosen_items(problem.bounds(), options.bound) else {
        return Err(SelectStop::Fault(SelectionFault::NoBoundSet));
    };
    let selection = Selection {
        objective,
        rhs,
        ranges,
        bounds,
        sense: options.sense,
    };
    match program(alloc, problem, selection) {
        Ok(lp) => Ok(lp),
        Err(Stop::Overflow(evidence)) => Err(SelectStop::Overflow(evidence)),
        Err(Stop::NoMemory) => Err(SelectStop::NoMemory),
    }
}
