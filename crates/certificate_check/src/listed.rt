//! The columns whose values aren't 0, looked for once for all rows.

ghost use Rattle.std.specs.Prelude.{◌≡◌, ◌+◌, ◌≤◌, length, take};
ghost use Rattle.lp_definitions.specs.LinearProgram.{size, value_at};
ghost use Rattle.certificate_check.specs.Listed.{AreListed};

use crate::sums::value_of;
use frac128::Frac;
use lp_model::Lp;

/// Lists the columns whose values aren't 0, in order, as many as the list has places. Gives how many they are, and the last column that
/// was looked at.
pub fn list_columns(lp: &Lp, values: &[Frac], listed: &mut [u32]) -> (usize, u32)
    requires { length values.now ≡ size lp.now.matrix }
    ensures count { result.0 ≤ length listed.new }
    ensures last { result.1 ≤ lp.now.cols }
    ensures listed { AreListed (λ j. value_at values.now (lp.now.rows + j)) 0
        (take result.0 listed.new) result.1 }
{
    let mut count = 0;
    for j in 0..lp.cols {
        if value_of(values, lp.rows + j + 1).is_zero() {
            continue;
        }
        if count == listed.len() {
            return (count, j);
        }
        listed[count] = j + 1;
        count += 1;
    }
    (count, lp.cols)
}
