// The texts of verdicts.
ghost use Rattle.std.specs.Prelude.{◌≡◌, ◌∷◌, [], codes};
ghost use Rattle.std.specs.List.{concat};
ghost use Rattle.listing_definitions.specs.Numbers.{digits, rational_text};
ghost use Rattle.job_devices.specs.Text.{Writes};
ghost use Rattle.listing_definitions.specs.Report as reports;
ghost use Rattle.listing_definitions.specs.Text.{solver_text, check_text, refused_text, verdict_head, verdict_lines, table_text, report_text};
ghost use Rattle.report_text.specs.Verdicts.{IsOutcome, verdict_view, check_view};

use frac128::{Frac, Refused};
use itoa::Buffer;
use job_devices::{Sink, WriteStop, put_all, put_each};
use listing_definitions::Solver;
use listing_tables::{
    Sheet, Table, decimal, fraction, objective_of, operation, put_table, solver_word,
};
use lp_model::Outcome;

// What was found, and a number.
fn put_found<P: Sink>(
    print: &mut P,
    by: Solver,
    found: &'static [u8],
    number: u32,
    rest: &'static [u8],
) -> Result<(), WriteStop>
    ensures { Writes (P.taken print.old) (P.taken print.new) result
        (concat (solver_text by ∷ codes " " ∷ concat (found.now ∷ digits number ∷ rest.now
        ∷ []) ∷ [])) }
{
    let mut digits = Buffer::new();
    put_each(
        print,
        &[
            solver_word(by),
            b" ",
            found,
            decimal(&mut digits, number).as_bytes(),
            rest,
        ],
    )
}

// What was found, after how many steps, and the objective.
fn put_objective<P: Sink>(
    print: &mut P,
    by: Solver,
    found: &'static [u8],
    steps: u32,
    objective: Frac,
) -> Result<(), WriteStop>
    ensures { Writes (P.taken print.old) (P.taken print.new) result
        (concat (solver_text by ∷ codes " " ∷ concat (found.now ∷ digits steps ∷ codes " OBJECTIVE "
        ∷ rational_text objective ∷ []) ∷ [])) }
{
    let mut digits = Buffer::new();
    let value = fraction(objective);
    put_each(
        print,
        &[
            solver_word(by),
            b" ",
            found,
            decimal(&mut digits, steps).as_bytes(),
            b" OBJECTIVE ",
            value.as_str().as_bytes(),
        ],
    )
}

// The first line of a verdict, up to the check.
fn put_verdict_head<P: Sink>(
    print: &mut P,
    by: Solver,
    sheet: Sheet<'_>,
    outcome: &Outcome,
) -> Result<(), WriteStop>
    requires { IsOutcome sheet outcome.now }
    ensures { Writes (P.taken print.old) (P.taken print.new) result
        (concat (solver_text by ∷ codes " " ∷ verdict_head (verdict_view sheet.entry
        outcome.now) ∷ [])) }
{
    match outcome {
        Outcome::Optimal { steps, point, .. } => {
            let value = objective_of(sheet.lp, point.values());
            put_objective(print, by, b"OPTIMAL STEPS ", *steps, value)
        }
        Outcome::Crossed { k } => { put_found(print, by, b"INFEASIBLE STEPS 0 CROSSED ", *k, b"") }
        Outcome::Infeasible { steps, .. } => {
            put_found(print, by, b"INFEASIBLE STEPS ", *steps, b" RAY")
        }
        Outcome::Unbounded { steps, point, .. } => {
            let value = objective_of(sheet.lp, point.values());
            put_objective(print, by, b"UNBOUNDED STEPS ", *steps, value)
        }
    }
}

// The check, or the operation that it was refused.
fn put_check<P: Sink>(print: &mut P, refused: Option<Refused>) -> Result<(), WriteStop>
    ensures { Writes (P.taken print.old) (P.taken print.new) result
        (concat (codes " " ∷ check_text (check_view refused) ∷ codes "\n" ∷ [])) }
{
    match refused {
        None => put_all(print, b" CHECKED\n"),
        Some(refused) => put_refused(print, b" UNCHECKED ", refused),
    }
}

// A refused operation with its operands, after a word.
fn put_refused<P: Sink>(
    print: &mut P,
    word: &'static [u8],
    refused: Refused,
) -> Result<(), WriteStop>
    ensures { Writes (P.taken print.old) (P.taken print.new) result
        (concat (word.now ∷ refused_text refused ∷ codes "\n" ∷ [])) }
{
    let left = fraction(refused.left);
    let right = fraction(refused.right);
    put_each(
        print,
        &[
            word,
            operation(refused.op),
            b" ",
            left.as_str().as_bytes(),
            b" ",
            right.as_str().as_bytes(),
            b"\n",
        ],
    )
}

// The lines of the multipliers, or of the activities and the direction.
fn put_verdict_lines<P: Sink>(
    print: &mut P,
    sheet: Sheet<'_>,
    outcome: &Outcome,
) -> Result<(), WriteStop>
    requires { IsOutcome sheet outcome.now }
    ensures { Writes (P.taken print.old) (P.taken print.new) result
        (table_text (verdict_lines (verdict_view sheet.entry outcome.now))) }
{
    let last = sheet.lp.number_of_variables();
    match outcome {
        Outcome::Optimal { .. } | Outcome::Crossed { .. } => put_all(print, b""),
        Outcome::Infeasible { ray, .. } => {
            put_table(print, sheet, Table::Multipliers(ray.values()), 0, last)
        }
        Outcome::Unbounded {
            point,
            direction,
            ..
        } => {
            let pairs = Table::Pairs(point.values(), direction.values());
            put_table(print, sheet, pairs, 0, last)
        }
    }
}

/// Writes a verdict with its check, and its lines.
pub fn put_verdict<P: Sink>(
    print: &mut P,
    by: Solver,
    sheet: Sheet<'_>,
    outcome: &Outcome,
    refused: Option<Refused>,
) -> Result<(), WriteStop>
    requires { IsOutcome sheet outcome.now }
    ensures { Writes (P.taken print.old) (P.taken print.new) result
        (report_text (reports.Solved by (verdict_view sheet.entry outcome.now)
        (check_view refused))) }
{
    put_verdict_head(print, by, sheet, outcome)?;
    put_check(print, refused)?;
    put_verdict_lines(print, sheet, outcome)
}
