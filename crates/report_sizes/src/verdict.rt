// Verdicts, and their checks.
ghost use Rattle.fitting_answers.specs.Fitting.{VerdictFits, CheckFits};
ghost use Rattle.report_text.specs.Verdicts.{verdict_view, check_view};

use crate::numbers::{recall_size, recall_sizes};
use frac128::Refused;
use listing_tables::Sheet;
use lp_model::Outcome;

// The operands of the first operation that is refused fit, if one is.
fn recall_check(refused: &Option<Refused>)
    ensures { CheckFits (check_view refused.now) }
{
    if let Some(refused) = refused {
        recall_size(refused.left);
        recall_size(refused.right);
    }
}

// The numbers of an outcome fit.
fn recall_outcome(sheet: Sheet<'_>, outcome: &Outcome)
    ensures { VerdictFits (verdict_view sheet.entry outcome.now) }
{
    match outcome {
        Outcome::Optimal { point, .. } => recall_sizes(point.values()),
        Outcome::Crossed { .. } => {}
        Outcome::Infeasible { ray, .. } => recall_sizes(ray.values()),
        Outcome::Unbounded {
            point,
            direction,
            ..
        } => {
            recall_sizes(point.values());
            recall_sizes(direction.values());
        }
    }
}

/// The numbers of a verdict and of its check fit.
pub fn recall_verdict(sheet: Sheet<'_>, outcome: &Outcome, refused: &Option<Refused>)
    ensures verdict { VerdictFits (verdict_view sheet.entry outcome.now) }
    ensures check { CheckFits (check_view refused.now) }
{
    recall_outcome(sheet, outcome);
    recall_check(refused);
}
