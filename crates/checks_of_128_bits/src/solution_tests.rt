// The tests of what SOLUTION prints.
ghost use Rattle.std.specs.Prelude.{◌≡◌, length};
ghost use Rattle.std.specs.List.{flat_map};
ghost use Rattle.lp_definitions.specs.LinearProgram.{IsLinearProgram, IsRow, size, value_at};
ghost use Rattle.check_definitions.specs.Steps.{verdict_of};
ghost use Rattle.answer_definitions.specs.Lines.{row_numbers};
ghost use Rattle.walk_definitions.specs.Checkers.{checker_of_128_bits};
ghost use Rattle.walk_definitions.specs.Tests.{slack_steps, best_test};
ghost use Rattle.listing_words.specs.Read.{sheet_view};
ghost use Rattle.listing_claims.specs.Passing.{Judges};
ghost use Rattle.listing_claims.specs.Solutions.{printed_test};

use crate::judging::{judge, judge_at};
use certificate_check::{Verdict, check_equations, check_optimal, check_prices, is_equal};
use frac128::Frac;
use listing_claims::Stop;
use listing_definitions::Mark;
use listing_tables::Sheet;

// The slack of row `i` is its right-hand side less its activity.
fn check_slack(sheet: Sheet<'_>, point: &[Frac], slacks: &[Frac], i: u32) -> Result<(), Stop>
    requires lawful { IsLinearProgram sheet.lp.now }
    requires row { IsRow sheet.lp.now.matrix i }
    requires point_places { length point.now ≡ size sheet.lp.now.matrix }
    requires slack_places { length slacks.now ≡ sheet.lp.now.matrix.rows }
    ensures { Judges
        (verdict_of
        (slack_steps (sheet_view sheet.entry) (value_at point.now)
        (value_at slacks.now) i)) result }
{
    let lp = sheet.lp;
    let place = i as usize - 1;
    let slack = lp.rhs[place].sub(point[place])?;
    judge_at(is_equal(slack, slacks[place]), i)
}

// The slacks of the rows.
fn check_slacks(sheet: Sheet<'_>, point: &[Frac], slacks: &[Frac]) -> Result<(), Stop>
    requires lawful { IsLinearProgram sheet.lp.now }
    requires point_places { length point.now ≡ size sheet.lp.now.matrix }
    requires slack_places { length slacks.now ≡ sheet.lp.now.matrix.rows }
    ensures { Judges
        (verdict_of
        (flat_map (slack_steps (sheet_view sheet.entry) (value_at point.now) (value_at slacks.now))
        (row_numbers sheet.entry.lp.now))) result }
{
    let lp = sheet.lp;
    for i in 0..lp.rows {
        check_slack(sheet, point, slacks, i + 1)?;
    }
    Ok(())
}

// More is asked under OPTIMAL.
fn check_best(sheet: Sheet<'_>, mark: Mark, point: &[Frac], prices: &[Frac]) -> Verdict
    requires point_places { length point.now ≡ size sheet.lp.now.matrix }
    requires price_places { length prices.now ≡ size sheet.lp.now.matrix }
    ensures { result ≡ best_test checker_of_128_bits (sheet_view sheet.entry) mark
        (value_at point.now) (value_at prices.now) }
{
    match mark {
        Mark::Optimal => check_optimal(sheet.lp, point, prices),
        Mark::Infeasible | Mark::Unbounded => Verdict::Checked,
    }
}

/// What SOLUTION prints under a mark: its activities, its prices and its slacks.
pub fn check_values(
    sheet: Sheet<'_>,
    mark: Mark,
    point: &[Frac],
    prices: &[Frac],
    slacks: &[Frac],
) -> Result<(), Stop>
    requires lawful { IsLinearProgram sheet.lp.now }
    requires point_places { length point.now ≡ size sheet.lp.now.matrix }
    requires price_places { length prices.now ≡ size sheet.lp.now.matrix }
    requires slack_places { length slacks.now ≡ sheet.lp.now.matrix.rows }
    ensures { Judges
        (printed_test checker_of_128_bits (sheet_view sheet.entry) mark (value_at point.now)
        (value_at prices.now) (value_at slacks.now)) result }
{
    judge(check_equations(sheet.lp, point))?;
    judge(check_prices(sheet.lp, prices))?;
    check_slacks(sheet, point, slacks)?;
    judge(check_best(sheet, mark, point, prices))
}
