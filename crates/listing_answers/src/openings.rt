// What stands before the intervals of a parametric run, and an opening that isn't optimal.
ghost use Rattle.std.specs.Prelude.{◌≡◌, ◌++◌, ℕ, codes};
ghost use Rattle.listing_tables.specs.Sheets.{IsSheet};
ghost use Rattle.question_definitions.specs.Answers.{parametric_solver};
ghost use Rattle.parametric_request.specs.Asking.{changing_of};
ghost use Rattle.walk_definitions.specs.Words.{left_after};
ghost use Rattle.walk_definitions.specs.Reading.{parametric_run_head, opening_in};
ghost use Rattle.listing_words.specs.Read.{taken, sheet_view};
ghost use Rattle.listing_claims.specs.Asked.{parametric_run_of, IsAskedOf};
ghost use Rattle.listing_answers.specs.Claims.{mark_by};
ghost use Rattle.listing_answers.specs.Taken.{Taken, IsOpened};

use crate::claims::{take_word, verdict};
use crate::words::take_each;
use listing_claims::{AskedRun, Checks, Claim, Stop};
use listing_definitions::{Mark, Solver};
use listing_tables::{Sheet, solver_word};
use listing_words::Cursor;
use parametric_request::Change;
use std::alloc::Global;

/// The verb that makes the run.
pub fn solver_of(request: &AskedRun<'_>) -> Solver
    ensures { result ≡ parametric_solver (changing_of request.now.name request.now.change) }
{
    match &request.change {
        Change::Row(_) => Solver::Paraobj,
        Change::Set(_) => Solver::Pararhs,
    }
}

// Takes a verb, the first value, and what changes from it on.
fn take_head<'b>(cursor: &mut Cursor<'_>, verb: &'b [u8], from: &'b [u8], name: &'b [u8]) -> bool
    ensures { left_after (verb.now ++ (codes " FROM " ++ (from.now ++ (codes " CHANGE " ++
        (name.now ++ codes "\n"))))) cursor.old ≡ taken result cursor.new }
{
    take_each(cursor, &[verb, b" FROM ", from, b" CHANGE ", name, b"\n"])
}

/// Takes what stands before the first interval.
pub fn take_parametric_run_head(cursor: &mut Cursor<'_>, request: &AskedRun<'_>) -> bool
    ensures { (limit : ℕ) →
        left_after (parametric_run_head (parametric_run_of limit request.now)) cursor.old ≡
        taken result cursor.new }
{
    take_head(
        cursor,
        solver_word(solver_of(request)),
        request.from.word(),
        request.name.bytes(),
    )
}

// The mark that a claim leaves.
fn mark_left(claim: &Claim<'_>) -> Mark
    ensures { result ≡ mark_by claim.now }
{
    match claim {
        Claim::Optimal(_) => Mark::Optimal,
        Claim::Crossed(_) | Claim::Infeasible(_) => Mark::Infeasible,
        Claim::Unbounded(_, _) => Mark::Unbounded,
    }
}

/// Reads the verdict of an opening that isn't optimal and tests it, on the linear program at the first value.
pub fn read_opening<T: Checks>(
    alloc: Global,
    cursor: &mut Cursor<'_>,
    sheet: Sheet<'_>,
    request: &AskedRun<'_>,
) -> Result<Mark, Stop>
    requires sheet { IsSheet sheet }
    requires asked { IsAskedOf sheet request.now }
    ensures { (limit : ℕ) → Taken IsOpened (opening_in T.checker (sheet_view sheet.entry)
        (parametric_run_of limit request.now) cursor.old) cursor.new result }
{
    let stated = verdict::<T>(alloc, cursor, sheet, solver_of(request))?;
    let mut allowance = cursor.allowance();
    T::test_opening(alloc, sheet, request, &stated.claim, &mut allowance)?;
    cursor.set_allowance(allowance);
    take_word::<T>(&stated)?;
    Ok(mark_left(&stated.claim))
}
