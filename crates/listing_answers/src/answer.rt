// The answers to questions.
ghost use Rattle.std.specs.Prelude.{◌≡◌, ℕ, Option, None, length};
ghost use Rattle.lp_definitions.specs.LinearProgram.{IsLinearProgram, size, value_at};
ghost use Rattle.listing_tables.specs.Sheets.{IsSheet};
ghost use Rattle.question_definitions.specs.Answers.{OfPath, OfSolution, OfParametricRun};
ghost use Rattle.parametric_request.specs.Asking.{ServesChange};
ghost use Rattle.walk_definitions.specs.Tests.{point_of};
ghost use Rattle.walk_definitions.specs.Reading.{judged};
ghost use Rattle.listing_words.specs.Read.{sheet_view};
ghost use Rattle.listing_claims.specs.Asked.{parametric_run_of};
ghost use Rattle.listing_answers.specs.Claims.{conclusion_by};
ghost use Rattle.listing_answers.specs.Taken.{Taken, IsConclusion, IsParametricRunAnswer};

use crate::claims::{Stated, take_word, verdict};
use crate::openings::{read_opening, take_parametric_run_head};
use crate::parametric_runs::read_run;
use crate::solution::{printed_of, solution_lines};
use listing_claims::{AskedRun, Checks, Claim, Stop};
use listing_definitions::{Mark, Solver};
use listing_tables::Sheet;
use listing_words::{Cursor, Number};
use lp_model::Lp;
use std::alloc::Global;

/// What a verdict comes to.
#[derive(Drop)]
pub enum Conclusion<'a> {
    /// There is a best point with this objective, which SOLUTION has to show; and whether the listing says that it was checked.
    Optimal {
        objective: Number<'a>,
        is_checked: bool,
    },
    /// No point is feasible, as was proved.
    Infeasible,
    /// There is no best point, as was proved.
    Unbounded,
}

/// What a parametric run comes to.
#[derive(Drop)]
pub enum ParametricRunAnswer<'a> {
    /// Its opening isn't optimal, and the verdict leaves this mark.
    Opened(Mark),
    /// Its last interval ends at this value.
    RanThrough(Number<'a>),
}

// What a claim comes to.
fn comes_to<'a>(stated: &Stated<'a>) -> Conclusion<'a>
    ensures { result ≡ conclusion_by stated.now.claim stated.now.is_checked }
{
    match &stated.claim {
        Claim::Optimal(objective) => Conclusion::Optimal {
            objective: objective.again(),
            is_checked: stated.is_checked,
        },
        Claim::Crossed(_) | Claim::Infeasible(_) => Conclusion::Infeasible,
        Claim::Unbounded(_, _) => Conclusion::Unbounded,
    }
}

// The activity of the objective row.
fn objective_of<'a>(lp: &Lp, point: &[Number<'a>]) -> Number<'a>
    requires { length point.now ≡ size lp.now.matrix }
    ensures { result ≡ value_at point.now lp.now.objective }
{
    point[lp.objective as usize - 1].again()
}

/// Reads the verdict of a solving verb and tests it. An optimal one is tested where SOLUTION shows it.
pub fn answer_to_path<'a, T: Checks>(
    alloc: Global,
    cursor: &mut Cursor<'a>,
    sheet: Sheet<'_>,
    solver: Solver,
) -> Result<Conclusion<'a>, Stop>
    requires sheet { IsSheet sheet }
    requires lawful { IsLinearProgram sheet.lp.now }
    requires no_change { sheet.lp.now.change ≡ None }
    ensures { (limit : Option ℕ) →
        Taken IsConclusion
        (judged T.checker (OfPath solver limit) (sheet_view sheet.entry) cursor.old)
        cursor.new result }
{
    let stated = verdict::<T>(alloc, cursor, sheet, solver)?;
    let mut allowance = cursor.allowance();
    T::test_claim(alloc, sheet.lp, &stated.claim, &mut allowance)?;
    cursor.set_allowance(allowance);
    take_word::<T>(&stated)?;
    Ok(comes_to(&stated))
}

/// Reads the lines of SOLUTION under a mark and tests them. Gives the activity of the objective row.
pub fn answer_to_solution<'a, T: Checks>(
    alloc: Global,
    cursor: &mut Cursor<'a>,
    sheet: Sheet<'_>,
    mark: Mark,
) -> Result<Number<'a>, Stop>
    requires sheet { IsSheet sheet }
    requires lawful { IsLinearProgram sheet.lp.now }
    requires no_change { sheet.lp.now.change ≡ None }
    ensures { Taken
        (λ objective lines. objective ≡
        point_of (sheet_view sheet.entry) lines sheet.entry.lp.now.objective)
        (judged T.checker (OfSolution mark) (sheet_view sheet.entry) cursor.old) cursor.new result }
{
    let lines = solution_lines::<T>(alloc, cursor, sheet, mark)?;
    let printed = printed_of(alloc, &lines)?;
    let mut allowance = cursor.allowance();
    T::test_solution(alloc, sheet, mark, &printed, &mut allowance)?;
    cursor.set_allowance(allowance);
    Ok(objective_of(sheet.lp, &printed.point))
}

/// Reads what PARAOBJ or PARARHS prints of the parametric run that is asked for, interval by interval, and tests it.
pub fn answer_to_parametric_run<'a, T: Checks>(
    alloc: Global,
    cursor: &mut Cursor<'a>,
    sheet: Sheet<'_>,
    request: &AskedRun<'_>,
) -> Result<ParametricRunAnswer<'a>, Stop>
    requires sheet { IsSheet sheet }
    requires lawful { IsLinearProgram sheet.lp.now }
    requires no_change { sheet.lp.now.change ≡ None }
    requires serves { ServesChange sheet.problem.now sheet.lp.now request.now.name request.now.change }
    ensures { (limit : ℕ) →
        Taken IsParametricRunAnswer
        (judged T.checker (OfParametricRun (parametric_run_of limit request.now))
        (sheet_view sheet.entry) cursor.old)
        cursor.new result }
{
    let mut ahead = cursor.again();
    if !take_parametric_run_head(&mut ahead, request) {
        let mark = read_opening::<T>(alloc, cursor, sheet, request)?;
        return Ok(ParametricRunAnswer::Opened(mark));
    }
    *cursor = ahead;
    let last = read_run::<T>(alloc, cursor, sheet, request)?;
    Ok(ParametricRunAnswer::RanThrough(last))
}
