// A linear program at a value of the parameter.
ghost use Rattle.std.specs.Prelude.{◌≡◌, ℕ, OnOk};
ghost use Rattle.exact_values.specs.Rational.{ℚ, whole, ◌-ℚ◌, ◌*ℚ◌};
ghost use Rattle.lp_definitions.specs.LinearProgram.{LinearProgram, IsColumn, IsVariable, on_row, cost};
ghost use Rattle.problem_definitions.specs.Names.{Name};
ghost use Rattle.problem_definitions.specs.Problem.{Problem};
ghost use Rattle.question_definitions.specs.Answers.{Sheet as Views};
ghost use Rattle.answer_definitions.specs.ParametricRuns.{family_of};
ghost use Rattle.parametric_request.specs.Asking.{ServesChange, changing_of};
ghost use Rattle.long_programs.specs.Programs.{program_of, IsChangeIn, IsPlain, shift_at, rate_at};

use exact_sums::Sum;
use frac128::Frac;
use integers::Integer;
use lp_definitions::Entry;
use lp_model::Lp;
use parametric_request::Change;
use std::alloc::{AllocError, Global};

/// What changes in a linear program along a parametric run.
#[derive(Clone, Copy)]
pub enum ChangeAt<'a> {
    /// Nothing.
    Unchanged,
    /// Theta times the row of this number is added to the objective.
    Row(u32),
    /// Theta times its shift is added to the limits of each row.
    Set(&'a [Frac]),
}

/// The linear programs of a parametric run, without a value of theta yet.
#[derive(Clone, Copy)]
pub struct ProgramAt<'a> {
    pub lp: &'a Lp,
    pub change: ChangeAt<'a>,
}

/// What changes along a run.
pub fn change_at(change: &Change) -> ChangeAt<'_>
    ensures family { (sheet : Views) → (name : Name) →
        ServesChange sheet.problem sheet.lp name change.now →
        (theta : ℚ) →
        family_of sheet (changing_of name change.now) theta ≡ program_of sheet.lp result theta }
    ensures change { (problem : Problem ℕ) → (p : LinearProgram) → (name : Name) →
        ServesChange problem p name change.now → IsChangeIn p result }
{
    match change {
        Change::Row(row) => ChangeAt::Row(*row),
        Change::Set(shift) => ChangeAt::Set(shift),
    }
}

/// What is added to the limits of variable `k` for each unit of theta.
pub fn shift_at(at: &ProgramAt<'_>, k: u32) -> Frac
    requires variable { IsVariable at.now.lp.now.matrix k }
    requires change { IsChangeIn at.now.lp.now at.now.change }
    ensures { result ≡ shift_at at.now.lp.now at.now.change k }
{
    let lp = at.lp;
    match at.change {
        ChangeAt::Set(shift) if k <= lp.rows => shift[k as usize - 1],
        _ => Frac::whole(0),
    }
}

/// The number on the row, and 0 where there is none.
pub fn number_on(column: &[Entry], row: u32) -> Frac
    ensures { result ≡ on_row column.now row }
{
    for entry in column {
        if entry.row == row {
            return entry.value;
        }
    }
    Frac::whole(0)
}

// What is added to the cost of column `j` for each unit of theta.
fn rate_at(at: &ProgramAt<'_>, j: u32) -> Frac
    requires column { IsColumn at.now.lp.now.matrix j }
    ensures { result ≡ rate_at at.now.lp.now at.now.change j }
{
    let lp = at.lp;
    match at.change {
        ChangeAt::Row(row) => number_on(lp.column(j), row),
        _ => Frac::whole(0),
    }
}

/// Takes the cost of column `j` at theta from a sum, times the denominator.
pub fn subtract_cost(
    alloc: Global,
    sum: &mut Sum,
    at: &ProgramAt<'_>,
    j: u32,
    bottom: &Integer,
    moved: &Integer,
) -> Result<(), AllocError>
    requires column { IsColumn at.now.lp.now.matrix j }
    requires plain { IsPlain at.now.lp.now at.now.change }
    ensures { OnOk result ((theta : ℚ) → whole moved.now ≡ theta *ℚ whole bottom.now →
        sum.new ≡ sum.old -ℚ cost
        (program_of at.now.lp.now at.now.change theta) j *ℚ whole bottom.now) }
{
    let lp = at.lp;
    let cost = number_on(lp.column(j), lp.objective);
    sum.add(alloc, cost.neg(), bottom)?;
    sum.add(alloc, rate_at(at, j).neg(), moved)?;
    Ok(())
}
