// A point and a direction that show that there is no best point.
ghost use Rattle.std.specs.Prelude.{◌≡◌, ◌++◌, ◌↔◌, ℕ, List, IsTrue, IfOk, length};
ghost use Rattle.exact_values.specs.Rational.{ℚ};
ghost use Rattle.lp_definitions.specs.LinearProgram.{IsRow, size, value_at};
ghost use Rattle.problem_definitions.specs.Problem.{Problem};
ghost use Rattle.question_definitions.specs.Answers.{Changing};
ghost use Rattle.check_definitions.specs.Steps.{AllHold};
ghost use Rattle.check_definitions.specs.Checks.{equations, feasible_point, free_direction, improving};
ghost use Rattle.listing_claims.specs.Claims.{IsPairOf, pair_test};
ghost use Rattle.walk_definitions.specs.Checkers.{checker_of_any_length};
ghost use Rattle.walk_definitions.specs.Tests.{unbounded_past};
ghost use Rattle.long_vectors.specs.Vectors.{IsOver, IsValue};
ghost use Rattle.long_programs.specs.Programs.{program_of, IsPlain};
ghost use Rattle.long_solutions.specs.Answers.{Answers};
ghost use Rattle.long_solutions.specs.Lines.{IsNumber};
ghost use Rattle.checks_of_any_length.specs.Orders.{improves_past};

use listing_claims::Pair;
use listing_words::{Allowance, Number};
use long_points::{both, counted_sign, equations_hold, feasible, take_spread, take_sums};
use long_programs::{AtTheta, ChangeAt, ProgramAt, SpreadAt, spread_by};
use long_rays::{direction_is_free, is_value_of, objective_order};
use long_solutions::is_at_most;
use long_vectors::{Column, Value, column_of, value_of};
use lp_model::Lp;
use std::alloc::{AllocError, Global};

// Whether a direction keeps the equations and the limits, and improves the objective at theta.
fn direction_holds(alloc: Global, at: &AtTheta<'_>, direction: &Column) -> Result<bool, AllocError>
    requires plain { IsPlain at.now.program.lp.now at.now.program.change }
    requires places { length direction.now.tops.items ≡ size at.now.program.lp.now.matrix }
    ensures { IfOk result
        (λ holds. (x : ℚ) → (d : List ℚ) → IsValue x at.now.theta.now → IsOver d direction.now →
        IsTrue holds ↔ AllHold
        (equations (program_of at.now.program.lp.now at.now.program.change x) 3 (value_at d) ++
        (free_direction (program_of at.now.program.lp.now at.now.program.change x) (value_at d)
        ++ improving (program_of at.now.program.lp.now at.now.program.change x) (value_at d)))) }
{
    let lp = at.program.lp;
    let keeps = equations_hold(alloc, lp, direction)?;
    let free = direction_is_free(alloc, lp, direction);
    let order = objective_order(alloc, at, direction)?;
    let improves = order.is_lt();
    let rest = both(free, improves);
    Ok(both(keeps, rest))
}

// Whether a point is feasible at theta.
fn point_holds(
    alloc: Global,
    at: &AtTheta<'_>,
    column: &Column,
    allowance: &mut Allowance,
) -> Result<bool, AllocError>
    requires number { IsNumber at.now.theta.now }
    requires point { (z : List ℚ) × IsOver z column.now ×
        (length z ≡ size at.now.program.lp.now.matrix) }
    ensures { IfOk result
        (λ holds. (x : ℚ) → (z : List ℚ) → IsValue x at.now.theta.now → IsOver z column.now →
        IsTrue holds ↔ AllHold
        (feasible_point (program_of at.now.program.lp.now at.now.program.change x) (value_at z))) }
{
    let program = at.program;
    let spread = spread_by(alloc, at.theta, column, allowance)?;
    take_spread(allowance, program.lp, &spread)?;
    let point = SpreadAt {
        program,
        spread: &spread,
    };
    let holds = feasible(alloc, &point)?;
    Ok(holds)
}

/// Whether a point with this objective and a direction show that there is no best point at theta.
pub fn pair_holds(
    alloc: Global,
    at: &AtTheta<'_>,
    objective: &Number<'_>,
    pair: &Pair<'_>,
    allowance: &mut Allowance,
) -> Result<bool, AllocError>
    requires plain { IsPlain at.now.program.lp.now at.now.program.change }
    requires number { IsNumber at.now.theta.now }
    requires pair { IsPairOf at.now.program.lp.now pair.now }
    ensures { IfOk result (λ holds. (x : ℚ) → IsValue x at.now.theta.now →
        Answers holds
        (pair_test checker_of_any_length
        (program_of at.now.program.lp.now at.now.program.change x) objective.now pair.now)) }
{
    let lp = at.program.lp;
    let _size = lp.number_of_variables();
    let own = value_of(alloc, objective)?;
    let point = column_of(alloc, &pair.point, allowance)?;
    let direction = column_of(alloc, &pair.direction, allowance)?;
    take_sums(allowance, lp, &direction)?;
    let begins = point_holds(alloc, at, &point, allowance)?;
    let goes_on = direction_holds(alloc, at, &direction)?;
    let is_value = is_value_of(alloc, &own, &point, lp.objective)?;
    let proof = both(begins, goes_on);
    Ok(both(proof, is_value))
}

// Whether the objective of a direction doesn't get worse at theta, and its change row improves.
fn past_improves(
    alloc: Global,
    lp: &Lp,
    row: u32,
    theta: &Value,
    direction: &Column,
) -> Result<bool, AllocError>
    requires row { IsRow lp.now.matrix row }
    requires places { length direction.now.tops.items ≡ size lp.now.matrix }
    ensures { IfOk result
        (λ holds. (x : ℚ) → (d : List ℚ) → IsValue x theta.now → IsOver d direction.now →
        holds ≡ improves_past lp.now row x (value_at d)) }
{
    let _size = lp.number_of_variables();
    let program = ProgramAt {
        lp,
        change: ChangeAt::Row(row),
    };
    let at = AtTheta { program, theta };
    let order = objective_order(alloc, &at, direction)?;
    let slope = counted_sign(alloc, lp, direction, row);
    let stays = is_at_most(order);
    let improves = slope.is_lt();
    Ok(both(stays, improves))
}

/// Whether a point and a direction show that there is no best point past theta.
pub fn past_pair_holds(
    alloc: Global,
    lp: &Lp,
    row: u32,
    theta: &Value,
    pair: &Pair<'_>,
    allowance: &mut Allowance,
) -> Result<bool, AllocError>
    requires row { IsRow lp.now.matrix row }
    requires number { IsNumber theta.now }
    requires pair { IsPairOf lp.now pair.now }
    ensures { IfOk result
        (λ holds. (x : ℚ) → (problem : Problem ℕ) → (changing : Changing) → IsValue x theta.now →
        Answers holds
        (unbounded_past checker_of_any_length
        (record { problem = problem; lp = lp.now }) changing row x (value_at pair.now.point.items)
        (value_at pair.now.direction.items))) }
{
    let program = ProgramAt {
        lp,
        change: ChangeAt::Unchanged,
    };
    let at = AtTheta { program, theta };
    let point = column_of(alloc, &pair.point, allowance)?;
    let direction = column_of(alloc, &pair.direction, allowance)?;
    take_sums(allowance, lp, &direction)?;
    let begins = point_holds(alloc, &at, &point, allowance)?;
    let keeps = equations_hold(alloc, lp, &direction)?;
    let free = direction_is_free(alloc, lp, &direction);
    let improves = past_improves(alloc, lp, row, theta, &direction)?;
    let last = both(free, improves);
    let rest = both(keeps, last);
    Ok(both(begins, rest))
}
