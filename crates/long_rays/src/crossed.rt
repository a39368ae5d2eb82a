// A variable whose limits contradict each other.
ghost use Rattle.std.specs.Prelude.{◌≡◌};
ghost use Rattle.exact_values.specs.Rational.{ℚ};
ghost use Rattle.lp_definitions.specs.LinearProgram.{IsVariable, lower_of, upper_of};
ghost use Rattle.check_definitions.specs.Checks.{is_crossed};
ghost use Rattle.long_programs.specs.Programs.{program_of};
ghost use Rattle.long_programs.specs.declared.programs.ChangeAt.{ChangeAt as Changes};

use frac128::Frac;
use lp_model::Lp;

// Whether both limits are there, and the lower one is greater.
fn crossed_by(lower: Option<Frac>, upper: Option<Frac>) -> bool
    ensures { result ≡ is_crossed lower upper }
{
    match (lower, upper) {
        (Some(low), Some(high)) => high.is_less(low),
        _ => false,
    }
}

/// Whether the lower limit of variable `k` is greater than its upper one. Theta moves both by as much.
pub fn limits_cross(lp: &Lp, k: u32) -> bool
    requires { IsVariable lp.now.matrix k }
    ensures { (change : Changes) → (x : ℚ) →
        result ≡ is_crossed (lower_of (program_of lp.now change x) k)
        (upper_of (program_of lp.now change x) k) }
{
    crossed_by(lp.lower_limit(k), lp.upper_limit(k))
}
