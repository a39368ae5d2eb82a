// The lines of SOLUTION.
ghost use Rattle.std.specs.Prelude.{◌≡◌, None};
ghost use Rattle.fitting_answers.specs.Fitting.{SolutionFits};
ghost use Rattle.listing_tables.specs.Lines.{solution_lines};

use crate::numbers::{recall_costs, recall_limits, recall_sizes};
use frac128::Frac;
use listing_tables::Sheet;
use lp_model::{Basis, Point, Prices};

/// The numbers of the lines of SOLUTION fit.
pub fn recall_solution(
    sheet: Sheet<'_>,
    basis: &Basis,
    point: &Point,
    prices: &Prices,
    slack: &[Frac],
)
    requires { sheet.lp.now.change ≡ None }
    ensures { SolutionFits (solution_lines sheet.entry.problem.now sheet.entry.lp.now basis.now
        point.now prices.now slack.now) }
{
    let lp = sheet.lp;
    recall_limits(&lp.lower);
    recall_limits(&lp.upper);
    recall_costs(lp);
    recall_sizes(point.values());
    recall_sizes(prices.values());
    recall_sizes(slack);
}
