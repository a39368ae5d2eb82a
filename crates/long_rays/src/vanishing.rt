// The multipliers of a ray on the columns.
ghost use Rattle.std.specs.Prelude.{◌≡◌, ◌+◌, ◌↔◌, ℕ, List, IsTrue, IfOk, length};
ghost use Rattle.exact_values.specs.Rational.{ℚ};
ghost use Rattle.lp_definitions.specs.LinearProgram.{IsColumn, size, value_at};
ghost use Rattle.check_definitions.specs.Steps.{AllHold};
ghost use Rattle.check_definitions.specs.Checks.{ray_columns};
ghost use Rattle.long_vectors.specs.Vectors.{IsOver};
ghost use Rattle.long_rays.specs.Tests.{vanish_test};

use frac128::Frac;
use long_points::{column_sum, column_top, each_holds};
use long_vectors::Column;
use lp_model::Lp;
use std::alloc::{AllocError, Global};

// Whether the multiplier of column `j`, and the multipliers of the rows times its numbers, add up to 0.
fn vanishes_on(alloc: Global, lp: &Lp, ray: &Column, j: u32) -> Result<bool, AllocError>
    requires column { IsColumn lp.now.matrix j }
    requires places { length ray.now.tops.items ≡ size lp.now.matrix }
    ensures { IfOk result
        (λ holds. (w : List ℚ) → IsOver w ray.now → holds ≡ vanish_test lp.now (value_at w) j) }
{
    let _size = lp.number_of_variables();
    let mut sum = column_sum(alloc, lp.column(j), ray)?;
    sum.add(alloc, Frac::whole(1), column_top(lp, ray, j))?;
    Ok(sum.sign().is_eq())
}

/// Whether the multipliers vanish on each column.
pub fn ray_vanishes(alloc: Global, lp: &Lp, ray: &Column) -> Result<bool, AllocError>
    requires { length ray.now.tops.items ≡ size lp.now.matrix }
    ensures { IfOk result
        (λ holds. (w : List ℚ) → IsOver w ray.now →
        IsTrue holds ↔ AllHold (ray_columns lp.now (value_at w))) }
{
    let holds = each_holds(lp.cols, |j| vanishes_on(alloc, lp, ray, j))?;
    Ok(holds)
}
