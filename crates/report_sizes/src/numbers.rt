// Fractions, limits and the numbers of columns.
ghost use Rattle.std.specs.Prelude.{◌≡◌, ℕ, ◌-◌, None, slice_index_or};
ghost use Rattle.frac128.specs.Operations.{TermsFit};
ghost use Rattle.lp_definitions.specs.LinearProgram.{value_at, on_row, cost};
ghost use Rattle.report_sizes.specs.Sizes.{LimitFits, VectorFits};

use frac128::Frac;
use lp_model::{Entry, Lp};

/// A fraction fits.
pub fn recall_size(value: Frac)
    ensures { TermsFit value }
{}

// A limit fits, where it is there.
fn recall_limit(limit: Option<Frac>)
    ensures { LimitFits limit }
{
    if let Some(value) = limit {
        recall_size(value);
    }
}

/// Each number of a vector fits.
pub fn recall_sizes(values: &[Frac])
    ensures { VectorFits (value_at values.now) }
{
    for value in values {
        recall_size(*value);
    }
}

/// Each of these limits fits.
pub fn recall_limits(limits: &[Option<Frac>])
    ensures { (k : ℕ) → LimitFits (slice_index_or limits.now (k - 1) None) }
{
    for limit in limits {
        recall_limit(*limit);
    }
}

// The number of a column fits on each row.
fn recall_column(entries: &[Entry])
    ensures { VectorFits (on_row entries.now) }
{
    for entry in entries {
        recall_size(entry.value);
    }
}

/// What each column costs fits.
pub fn recall_costs(lp: &Lp)
    requires { lp.now.change ≡ None }
    ensures { VectorFits (cost lp.now) }
{
    let _size = lp.number_of_variables();
    for j in 0..lp.cols {
        recall_column(lp.column(j + 1));
    }
}
