// Directions.
ghost use Rattle.std.specs.Prelude.{◌≡◌, ◌↔◌, ℕ, List, IsTrue, IfOk, length};
ghost use Rattle.exact_values.specs.Rational.{ℚ};
ghost use Rattle.lp_definitions.specs.LinearProgram.{IsVariable, size, value_at};
ghost use Rattle.check_definitions.specs.Steps.{AllHold};
ghost use Rattle.check_definitions.specs.Checks.{free_direction};
ghost use Rattle.long_vectors.specs.Vectors.{IsOver};
ghost use Rattle.long_programs.specs.declared.programs.ChangeAt.{ChangeAt as Changes};
ghost use Rattle.long_programs.specs.Programs.{program_of};
ghost use Rattle.long_rays.specs.Tests.{free_test};

use long_points::{asked_by, sign_of};
use long_programs::top_of;
use long_vectors::Column;
use lp_model::Lp;
use std::alloc::Global;

// Whether variable `k` falls only if it has no lower limit, and rises only if it has no upper one.
fn is_free_to_move(alloc: Global, lp: &Lp, direction: &Column, k: u32) -> bool
    requires variable { IsVariable lp.now.matrix k }
    requires places { length direction.now.tops.items ≡ size lp.now.matrix }
    ensures { (change : Changes) → (x : ℚ) → (d : List ℚ) → IsOver d direction.now →
        result ≡ free_test (program_of lp.now change x) (value_at d) k }
{
    let sign = sign_of(alloc, top_of(direction, k));
    let falls = lp.lower_limit(k).is_none();
    let rises = lp.upper_limit(k).is_none();
    asked_by(sign, falls, rises)
}

/// Whether a direction falls only where there is no lower limit, and rises only where there is no upper one. Theta moves a limit only
/// where it is.
pub fn direction_is_free(alloc: Global, lp: &Lp, direction: &Column) -> bool
    requires { length direction.now.tops.items ≡ size lp.now.matrix }
    ensures { (change : Changes) → (x : ℚ) → (d : List ℚ) → IsOver d direction.now →
        IsTrue result ↔ AllHold (free_direction (program_of lp.now change x) (value_at d)) }
{
    for i in 0..lp.number_of_variables() {
        if !is_free_to_move(alloc, lp, direction, i + 1) {
            return false;
        }
    }
    true
}
