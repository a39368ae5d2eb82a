// The prices of the columns.
ghost use Rattle.std.specs.Prelude.{◌≡◌, ◌+◌, ◌≤◌, List, IfOk, All, length};
ghost use Rattle.exact_values.specs.Rational.{ℚ, whole, zero_ℚ, ◌+ℚ◌, ◌*ℚ◌};
ghost use Rattle.lp_definitions.specs.LinearProgram.{IsColumn, value_at};
ghost use Rattle.check_definitions.specs.Steps.{sum_of};
ghost use Rattle.check_definitions.specs.Checks.{entry_products, reduced_costs};
ghost use Rattle.long_vectors.specs.Vectors.{IsOver};
ghost use Rattle.long_programs.specs.Programs.{IsPlain};
ghost use Rattle.long_points.specs.Tests.{cost_test};
ghost use Rattle.long_points.specs.Told.{Passes, Tells};

use crate::each::each_holds;
use crate::rows::column_top;
use exact_sums::Sum;
use frac128::Frac;
use long_programs::{SpreadAt, subtract_cost, top_of};
use long_vectors::Column;
use lp_definitions::Entry;
use std::alloc::{AllocError, Global};

/// The numbers of a column, each times the value of its row, added up, times the denominator.
pub fn column_sum(alloc: Global, entries: &[Entry], column: &Column) -> Result<Sum, AllocError>
    requires { All (λ e. (1 ≤ e.row) × (e.row ≤ length column.now.tops.items)) entries.now }
    ensures { IfOk result (λ sum. (values : List ℚ) → IsOver values column.now →
        sum ≡ sum_of zero_ℚ
        (entry_products (value_at values) entries.now) *ℚ whole column.now.bottom) }
{
    let mut sum = Sum::zero(alloc)?;
    for entry in entries {
        sum.add(alloc, entry.value, top_of(column, entry.row))?;
    }
    Ok(sum)
}

// Whether the price of column `j` is its cost at theta, less the prices of the rows times its numbers.
fn reduced_cost_holds(alloc: Global, prices: &SpreadAt<'_>, j: u32) -> Result<bool, AllocError>
    requires column { IsColumn prices.now.program.lp.now.matrix j }
    requires plain { IsPlain prices.now.program.lp.now prices.now.program.change }
    ensures { IfOk result (Passes cost_test prices.now j) }
{
    let lp = prices.program.lp;
    let column = &prices.spread.column;
    let _size = lp.number_of_variables();
    let mut sum = column_sum(alloc, lp.column(j), column)?;
    sum.add(alloc, Frac::whole(1), column_top(lp, column, j))?;
    subtract_cost(
        alloc,
        &mut sum,
        &prices.program,
        j,
        &column.bottom,
        &prices.spread.moved,
    )?;
    Ok(sum.sign().is_eq())
}

/// Whether the prices of the columns are their reduced costs at theta.
pub fn reduced_costs_hold(alloc: Global, prices: &SpreadAt<'_>) -> Result<bool, AllocError>
    requires { IsPlain prices.now.program.lp.now prices.now.program.change }
    ensures { IfOk result (Tells reduced_costs prices.now) }
{
    let lp = prices.program.lp;
    let holds = each_holds(lp.cols, |j| reduced_cost_holds(alloc, prices, j))?;
    Ok(holds)
}
