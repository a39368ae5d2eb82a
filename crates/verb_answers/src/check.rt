//! The check of what a path has come to.

ghost use Rattle.std.specs.Prelude.{◌≡◌};
ghost use Rattle.bounded_primal.specs.Outcomes.{IsTrueOutcome};
ghost use Rattle.certificate_check.specs.Results.{IsNotFailed};
ghost use Rattle.report_text.specs.Verdicts.{check_view};
ghost use Rattle.answer_definitions.specs.Verdicts.{found};
ghost use Rattle.verb_answers.specs.Reports.{IsCheckedSo};

use certificate_check::{Verdict, check_crossed, check_infeasible, check_optimal, check_unbounded};
use frac128::Refused;
use lp_model::{Lp, Outcome};

/// Checks a true outcome by what it shows. No comparison fails.
fn check_of(lp: &Lp, outcome: &Outcome) -> Verdict
    requires { IsTrueOutcome lp.now outcome.now }
    ensures exact { IsCheckedSo lp.now outcome.now result }
    ensures never_fails { IsNotFailed result }
{
    match outcome {
        Outcome::Optimal { point, prices, .. } => {
            check_optimal(lp, point.values(), prices.values())
        }
        Outcome::Crossed { k } => check_crossed(lp, *k),
        Outcome::Infeasible { ray, .. } => check_infeasible(lp, ray.values()),
        Outcome::Unbounded {
            point,
            direction,
            ..
        } => check_unbounded(lp, point.values(), direction.values()),
    }
}

/// The first operation that was refused, if one was.
fn refused_of(verdict: Verdict) -> Option<Refused>
    requires { IsNotFailed verdict }
    ensures { verdict ≡ found (check_view result) }
{
    match verdict {
        Verdict::Unchecked(refused) => Some(refused),
        Verdict::Checked | Verdict::Failed { .. } => None,
    }
}

/// The first operation that the check of a true outcome is refused, if one is.
pub fn refusal_of(lp: &Lp, outcome: &Outcome) -> Option<Refused>
    requires { IsTrueOutcome lp.now outcome.now }
    ensures { IsCheckedSo lp.now outcome.now (found (check_view result)) }
{
    refused_of(check_of(lp, outcome))
}
