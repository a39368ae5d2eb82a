// The prices of an interval, which stand at the same limits at both of its ends.
ghost use Rattle.std.specs.Prelude.{◌≡◌, ◌↔◌, IsTrue, IfOk};
ghost use Rattle.std.specs.List.{flat_map};
ghost use Rattle.exact_values.specs.Rational.{ℚ};
ghost use Rattle.lp_definitions.specs.LinearProgram.{IsVariable, variables};
ghost use Rattle.check_definitions.specs.Steps.{AllHold};
ghost use Rattle.long_programs.specs.Programs.{program_of};
ghost use Rattle.long_points.specs.Ends.{Points, IsEnd, keeping_test, kept_steps};

use crate::each::each_holds;
use crate::ends::Ends;
use crate::limits::{asked_by, both, counted_sign, is_at};
use long_programs::{SpreadAt, compare_to_limits};
use std::alloc::{AllocError, Global};

// Whether the prices of variable `k` at both ends ask for limits at which both points stand, each in its own program.
fn prices_keep(alloc: Global, ends: &Ends<'_>, k: u32) -> Result<bool, AllocError>
    requires { IsVariable ends.now.program.lp.now.matrix k }
    ensures { IfOk result
        (λ holds. (first last : Points) → (from to : ℚ) →
        IsEnd first from ends.now.start.now → IsEnd last to ends.now.end.now →
        holds ≡ keeping_test (program_of ends.now.program.lp.now ends.now.program.change from)
        (program_of ends.now.program.lp.now ends.now.program.change to) first last k) }
{
    let program = ends.program;
    let start = SpreadAt {
        program,
        spread: &ends.start.point,
    };
    let end = SpreadAt {
        program,
        spread: &ends.end.point,
    };
    let first = compare_to_limits(alloc, &start, k)?;
    let last = compare_to_limits(alloc, &end, k)?;
    let lower = both(is_at(first.lower), is_at(last.lower));
    let upper = both(is_at(first.upper), is_at(last.upper));
    let sign = counted_sign(alloc, program.lp, &ends.start.prices.column, k);
    let other = counted_sign(alloc, program.lp, &ends.end.prices.column, k);
    let begins = asked_by(sign, upper, lower);
    let closes = asked_by(other, upper, lower);
    Ok(both(begins, closes))
}

/// Whether so do the prices of all variables.
pub fn all_prices_keep(alloc: Global, ends: &Ends<'_>) -> Result<bool, AllocError>
    ensures { IfOk result
        (λ holds. (first last : Points) → (from to : ℚ) →
        IsEnd first from ends.now.start.now → IsEnd last to ends.now.end.now →
        IsTrue holds ↔ AllHold
        (flat_map (kept_steps (program_of ends.now.program.lp.now ends.now.program.change from)
        (program_of ends.now.program.lp.now ends.now.program.change to) first last)
        (variables ends.now.program.lp.now.matrix))) }
{
    let variables = ends.program.lp.number_of_variables();
    let holds = each_holds(variables, |k| prices_keep(alloc, ends, k))?;
    Ok(holds)
}
