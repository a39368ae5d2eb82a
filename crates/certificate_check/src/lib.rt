//! Checks of what a solver says of a linear program: that a point is best, that no point is feasible, or that feasible points better
//! without end. Each check is exact arithmetic on the claim's own numbers; it trusts nothing of how they were found, and takes no memory. Its
//! parts can be made by themselves too.
#![tactic(auto)]

ghost use Rattle.std.specs.Prelude.{◌≡◌, ◌≢◌, ◌↔◌, length};
ghost use Rattle.frac128.specs.declared.Refused.{Refused};
ghost use Rattle.lp_definitions.specs.LinearProgram.{IsVariable, size, value_at};
ghost use Rattle.lp_definitions.specs.Solutions.{IsFeasible, IsBest, IsDualCertificate, IsCrossed, IsRay, ProvesUnbounded, IsInfeasible, IsUnbounded};
ghost use Rattle.check_definitions.specs.Checks.{optimal_check, crossed_check, infeasible_check, unbounded_check};
ghost use Rattle.certificate_check.specs.Results.{verdict_from, IsNotFailed};

mod comparisons;
mod direction;
mod listed;
mod parts;
mod point;
mod prices;
mod ray;
mod stops;
mod sums;

pub use check_definitions::Verdict;
use comparisons::is_crossed_by;
pub use comparisons::{counted_for, holds_by_sign, is_equal, stands_at};
use direction::{direction_improves, direction_is_free};
use frac128::Frac;
use lp_model::Lp;
pub use parts::{
    check_combination, check_direction, check_direction_limits, check_equations, check_point,
    check_prices, check_ray_limits,
};
use point::{equations_hold, point_is_feasible};
use prices::{are_reduced_costs, prices_stand};
pub use ray::limit_met;
use ray::{limits_contradict, vanishes};
use stops::{Stopped, compare, verdict};

/// Checks that the point is feasible and that the prices prove it best: by weak duality, where the price of each column is its reduced
/// cost, and each price that is not 0 stands at a limit. Both slices hold the rows and then the columns.
pub fn check_optimal(lp: &Lp, point: &[Frac], prices: &[Frac]) -> Verdict
    requires point_places { length point.now ≡ size lp.now.matrix }
    requires price_places { length prices.now ≡ size lp.now.matrix }
    ensures exact { result ≡ optimal_check lp.now (value_at point.now) (value_at prices.now) }
    ensures feasible { result ≡ Verdict.Checked → IsFeasible lp.now (value_at point.now) }
    ensures best { result ≡ Verdict.Checked → IsBest lp.now (value_at point.now) }
    ensures prices { result ≡ Verdict.Checked → IsDualCertificate lp.now (value_at point.now)
        (value_at prices.now) }
    ensures never_fails { IsFeasible lp.now (value_at point.now) → IsDualCertificate lp.now
        (value_at point.now) (value_at prices.now) → IsNotFailed result }
{
    let size = lp.number_of_variables() as usize;
    prove_eq!(point.len(), size);
    prove_eq!(prices.len(), size);
    verdict(optimal(lp, point, prices))
}

/// Checks that the lower limit of the variable is greater than its upper one. It makes no operation.
pub fn check_crossed(lp: &Lp, k: u32) -> Verdict
    requires { IsVariable lp.now.matrix k }
    ensures exact { result ≡ crossed_check lp.now k }
    ensures never_unchecked { (refused : Refused) → result ≢ Verdict.Unchecked refused }
    ensures crossed { (result ≡ Verdict.Checked) ↔ IsCrossed lp.now k }
    ensures infeasible { result ≡ Verdict.Checked → IsInfeasible lp.now }
{
    verdict(compare(is_crossed_by(lp.lower_limit(k), lp.upper_limit(k)), 1, k))
}

/// Checks that the ray proves that there is no feasible point: by Farkas' lemma with limits, where its multipliers vanish on each column,
/// and the sum of the limits that they meet, each times its multiplier, is negative. The slice holds the rows and then the columns.
pub fn check_infeasible(lp: &Lp, ray: &[Frac]) -> Verdict
    requires { length ray.now ≡ size lp.now.matrix }
    ensures exact { result ≡ infeasible_check lp.now (value_at ray.now) }
    ensures ray { result ≡ Verdict.Checked → IsRay lp.now (value_at ray.now) }
    ensures infeasible { result ≡ Verdict.Checked → IsInfeasible lp.now }
    ensures never_fails { IsRay lp.now (value_at ray.now) → IsNotFailed result }
{
    let size = lp.number_of_variables() as usize;
    prove_eq!(ray.len(), size);
    verdict(infeasible(lp, ray))
}

/// Checks that the point is feasible and that the objective improves without end in the direction: it keeps the equations, no limit is
/// ahead of it, and its own objective is on the better side of 0. Both slices hold the rows and then the columns.
pub fn check_unbounded(lp: &Lp, point: &[Frac], direction: &[Frac]) -> Verdict
    requires point_places { length point.now ≡ size lp.now.matrix }
    requires direction_places { length direction.now ≡ size lp.now.matrix }
    ensures exact { result ≡ unbounded_check lp.now (value_at point.now) (value_at direction.now) }
    ensures proof { result ≡ Verdict.Checked → ProvesUnbounded lp.now (value_at point.now)
        (value_at direction.now) }
    ensures unbounded { result ≡ Verdict.Checked → IsUnbounded lp.now }
    ensures never_fails { ProvesUnbounded lp.now (value_at point.now) (value_at direction.now) →
        IsNotFailed result }
{
    verdict(unbounded(lp, point, direction))
}

fn optimal(lp: &Lp, point: &[Frac], prices: &[Frac]) -> Result<(), Stopped>
    requires point_places { length point.now ≡ size lp.now.matrix }
    requires price_places { length prices.now ≡ size lp.now.matrix }
    ensures { verdict_from result ≡ optimal_check lp.now (value_at point.now)
        (value_at prices.now) }
{
    point_is_feasible(lp, point)?;
    are_reduced_costs(lp, prices)?;
    prices_stand(lp, point, prices)
}

fn infeasible(lp: &Lp, ray: &[Frac]) -> Result<(), Stopped>
    requires { length ray.now ≡ size lp.now.matrix }
    ensures { verdict_from result ≡ infeasible_check lp.now (value_at ray.now) }
{
    vanishes(lp, ray)?;
    limits_contradict(lp, ray)
}

fn unbounded(lp: &Lp, point: &[Frac], direction: &[Frac]) -> Result<(), Stopped>
    requires point_places { length point.now ≡ size lp.now.matrix }
    requires direction_places { length direction.now ≡ size lp.now.matrix }
    ensures { verdict_from result ≡ unbounded_check lp.now (value_at point.now)
        (value_at direction.now) }
{
    point_is_feasible(lp, point)?;
    equations_hold(lp, 3, direction)?;
    direction_is_free(lp, direction)?;
    direction_improves(lp, direction)
}
