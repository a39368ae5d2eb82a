// The answers to questions, where the walk stands.
ghost use Rattle.std.specs.Prelude.{◌≡◌, ◌+◌, ◌≤◌, ◌<◌, ℕ, Option, None, IfOk};
ghost use Rattle.lp_definitions.specs.LinearProgram.{IsLinearProgram};
ghost use Rattle.listing_definitions.specs.Report.{PathVerdict, Check};
ghost use Rattle.question_definitions.specs.Answers.{OfPath, OfSolution, OfParametricRun};
ghost use Rattle.run_definitions.specs.Verbs.{mark_of};
ghost use Rattle.walk_definitions.specs.Walker as walks;
ghost use Rattle.listing_tables.specs.Sheets.{IsSheet};
ghost use Rattle.listing_words.specs.Read.{sheet_view};
ghost use Rattle.parametric_request.specs.Asking.{ServesChange};
ghost use Rattle.listing_claims.specs.Asked.{parametric_run_of};
ghost use Rattle.listing_answers.specs.Taken.{conclusion_of, IsParametricRunAnswer};
ghost use Rattle.listing_walk.specs.Standing.{ShowsPending};
ghost use Rattle.listing_walk.specs.Asking.{IsStopStep, stopped_by, is_optimal, SettlesBy, Answered, IsMarked, IsAny, IsSettling, IsRestHere};
ghost use Rattle.walk_definitions.specs.Words.{max_count};

use crate::found::Found;
use crate::place::{ListingPlace, Pending};
use crate::walk_step::WalkStep;
use job_devices::NoMemory;
use listing_answers::{
    Conclusion, ParametricRunAnswer, answer_to_parametric_run, answer_to_path, answer_to_solution,
};
use listing_claims::{AskedRun, Checks, Stop};
use listing_definitions::{Mark, Solver};
use listing_tables::Sheet;
use listing_words::Number;
use std::alloc::Global;
use thiserror::Error;

/// Why the walk doesn't go on with an answer.
#[derive(Clone, Copy, Debug, Error)]
pub enum Stopped<'a> {
    /// The walk ends.
    #[error("the walk ends")]
    Finds(Found<'a>),
    /// There is no memory.
    #[error("there is no memory")]
    NoMemory,
}

/// How the walk ends, where it doesn't go on with an answer.
pub fn stop_walk<'a>(stopped: Stopped<'a>) -> Result<WalkStep<'a>, NoMemory>
    ensures { IfOk result (IsStopStep stopped.entry) }
{
    match stopped {
        Stopped::Finds(found) => Ok(WalkStep::Finds(found)),
        Stopped::NoMemory => Err(NoMemory),
    }
}

// What stops an answer, where so much is left.
fn stopped_by<'a>(stop: Stop, rest: &'a [u8]) -> Stopped<'a>
    ensures { result ≡ stopped_by stop rest.entry }
{
    match stop {
        Stop::Wrong => Stopped::Finds(Found::Wrong(rest)),
        Stop::Unchecked => Stopped::Finds(Found::Unchecked(rest)),
        Stop::NoMemory => Stopped::NoMemory,
    }
}

// The mark that a conclusion leaves.
fn mark_of(conclusion: &Conclusion<'_>) -> Mark
    ensures { (verdict : PathVerdict) (check : Check) →
        conclusion.now ≡ conclusion_of verdict check → result ≡ mark_of verdict }
{
    match conclusion {
        Conclusion::Optimal { .. } => Mark::Optimal,
        Conclusion::Infeasible => Mark::Infeasible,
        Conclusion::Unbounded => Mark::Unbounded,
    }
}

// What a conclusion leaves pending.
fn pending_after<'a>(rest: &'a [u8], conclusion: &Conclusion<'a>) -> Option<Pending<'a>>
    ensures { (verdict : PathVerdict) (check : Check) →
        conclusion.now ≡ conclusion_of verdict check →
        ShowsPending result (walks.pending_after rest.now verdict check) }
{
    match conclusion {
        Conclusion::Optimal {
            objective,
            is_checked,
        } => Some(Pending {
            rest,
            objective: objective.again(),
            is_checked: *is_checked,
        }),
        Conclusion::Infeasible | Conclusion::Unbounded => None,
    }
}

// What is left here, where an answer is due. What can't be attested comes first: a stop, and the verdict that is pending, if it has to be
// settled.
fn rest_here<'a>(place: &ListingPlace<'a>, clears: bool) -> Result<&'a [u8], Stopped<'a>>
    ensures { IsRestHere place.now clears result }
{
    match place.open_here(true, clears) {
        Some(found) => Err(Stopped::Finds(found)),
        None => Ok(place.cursor.left()),
    }
}

/// Takes the verdict of a solving verb. Gives its mark.
pub fn answer_path<'a, T: Checks>(
    alloc: Global,
    place: &mut ListingPlace<'a>,
    sheet: Sheet<'_>,
    solver: Solver,
) -> Result<Mark, Stopped<'a>>
    requires sheet { IsSheet sheet }
    requires lawful { IsLinearProgram sheet.lp.now }
    requires no_change { sheet.lp.now.change ≡ None }
    requires few { place.old.reports < max_count }
    ensures answered { (limit : Option ℕ) →
        Answered T.checker (OfPath solver limit)
        (sheet_view sheet.entry) place.old place.new IsMarked result }
    ensures few { place.new.reports ≤ place.old.reports + 1 }
{
    let rest = rest_here(place, true)?;
    match answer_to_path::<T>(alloc, &mut place.cursor, sheet, solver) {
        Ok(conclusion) => {
            place.pending = pending_after(rest, &conclusion);
            place.reports += 1;
            Ok(mark_of(&conclusion))
        }
        Err(stop) => Err(stopped_by(stop, rest)),
    }
}

// Whether a pending verdict has this objective, and the checker takes the word of its check.
fn settles<T: Checks>(pending: &Pending<'_>, objective: &Number<'_>) -> bool
    ensures { SettlesBy T.checker pending.now objective.now result }
{
    if pending.objective.is_equal(objective) {
        T::takes(pending.is_checked)
    } else {
        false
    }
}

// SOLUTION under OPTIMAL settles what is pending, or it is wrong.
fn settled<'a, T: Checks>(place: &ListingPlace<'a>, objective: &Number<'_>) -> Option<Found<'a>>
    ensures { IsSettling T.checker place.now.pending objective.now result }
{
    match &place.pending {
        Some(pending) => {
            if settles::<T>(pending, objective) {
                None
            } else {
                Some(Found::Wrong(pending.rest))
            }
        }
        None => None,
    }
}

/// Takes the lines of SOLUTION under a mark. Under OPTIMAL they settle what is pending.
pub fn answer_solution<'a, T: Checks>(
    alloc: Global,
    place: &mut ListingPlace<'a>,
    sheet: Sheet<'_>,
    mark: Mark,
) -> Result<(), Stopped<'a>>
    requires sheet { IsSheet sheet }
    requires lawful { IsLinearProgram sheet.lp.now }
    requires no_change { sheet.lp.now.change ≡ None }
    requires few { place.old.reports < max_count }
    ensures answered { Answered T.checker (OfSolution mark)
        (sheet_view sheet.entry) place.old place.new (IsAny (OfSolution mark)) result }
    ensures few { place.new.reports ≤ place.old.reports + 1 }
{
    let rest = rest_here(place, false)?;
    match answer_to_solution::<T>(alloc, &mut place.cursor, sheet, mark) {
        Ok(objective) => {
            if !is_optimal(mark) {
                place.reports += 1;
                return Ok(());
            }
            if let Some(found) = settled::<T>(place, &objective) {
                return Err(Stopped::Finds(found));
            }
            place.pending = None;
            place.reports += 1;
            Ok(())
        }
        Err(stop) => Err(stopped_by(stop, rest)),
    }
}

/// Whether a mark is OPTIMAL.
pub fn is_optimal(mark: Mark) -> bool
    ensures { result ≡ is_optimal mark }
{
    match mark {
        Mark::Optimal => true,
        Mark::Infeasible | Mark::Unbounded => false,
    }
}

/// Takes what PARAOBJ or PARARHS prints of a run.
pub fn answer_parametric_run<'a, T: Checks>(
    alloc: Global,
    place: &mut ListingPlace<'a>,
    sheet: Sheet<'_>,
    request: &AskedRun<'_>,
) -> Result<ParametricRunAnswer<'a>, Stopped<'a>>
    requires sheet { IsSheet sheet }
    requires lawful { IsLinearProgram sheet.lp.now }
    requires no_change { sheet.lp.now.change ≡ None }
    requires serves { ServesChange sheet.problem.now sheet.lp.now request.now.name request.now.change }
    requires few { place.old.reports < max_count }
    ensures answered { (limit : ℕ) →
        Answered T.checker (OfParametricRun (parametric_run_of limit request.now))
        (sheet_view sheet.entry) place.old place.new IsParametricRunAnswer result }
    ensures few { place.new.reports ≤ place.old.reports + 1 }
{
    let rest = rest_here(place, true)?;
    match answer_to_parametric_run::<T>(alloc, &mut place.cursor, sheet, request) {
        Ok(answer) => {
            place.pending = None;
            place.reports += 1;
            Ok(answer)
        }
        Err(stop) => Err(stopped_by(stop, rest)),
    }
}
