//! What the dual path does at a basis: it ends there, or a basic comes back to the limit that it broke.

ghost use Rattle.std.specs.Prelude.{◌≡◌, ℕ, None, Some, length, OnOk, IsTrue};
ghost use Rattle.exact_values.specs.Rational.{ℚ};
ghost use Rattle.lp_definitions.specs.LinearProgram.{size, value_at, IsLinearProgram};
ghost use Rattle.lp_definitions.specs.Basis.{ArePricesOf, IsPointOf};
ghost use Rattle.basis_values.specs.Calls.{IsAtBasis, StaysAt};
ghost use Rattle.bounded_primal.specs.KeptPoints.{all_kept, AgreesWithPoint};
ghost use Rattle.bounded_primal.specs.Turns.{IsUncrossed, least_outside};
ghost use Rattle.bounded_dual.specs.Turns.{DualTurnFound};

use crate::moves::DualStop;
use basis_values::lies_below;
use bounded_primal::{
    Position, PrimalStop, Turn, best, limit_broken, ray_of, return_along, whole_point,
};
use dual_step::{cheapest, read_row};
use frac128::Frac;
use lp_model::{Outcome, Rates, SparseVector};

/// Brings the basic `r` back to the limit that it broke, at the least loss, or answers why nothing does. `row` takes the rates of `r`,
/// and `direction` is a workspace.
fn restore_feasibility<R: Rates>(
    at: &Position<'_>,
    rates: &mut R,
    prices: &[Frac],
    row: &mut [Frac],
    direction: &mut SparseVector,
    r: u32,
) -> Result<Turn, DualStop>
    requires lawful { IsLinearProgram at.now.lp.now }
    requires no_change { at.now.lp.now.change ≡ None }
    requires rates { IsAtBasis (R.state rates.old) at.now.lp.now at.now.basis.now }
    requires price_places { length prices.now ≡ size at.now.lp.now.matrix }
    requires row_places { length row.old ≡ size at.now.lp.now.matrix }
    requires direction_places { length direction.old ≡ size at.now.lp.now.matrix }
    requires point { AgreesWithPoint at.now.lp.now at.now.basis.now (value_at at.now.point.now) }
    requires prices { ArePricesOf at.now.lp.now at.now.basis.now (value_at prices.now) }
    requires uncrossed { IsUncrossed at.now.lp.now }
    requires outside { least_outside at.now.lp.now at.now.basis.now
        (value_at at.now.point.now) ≡ Some r }
    ensures turn { DualTurnFound result at.now.lp.now at.now.basis.now at.now.steps at.now.left
        (value_at direction.new) (value_at row.new) (R.state rates.old) (R.state rates.new) }
    ensures direction_places { OnOk result (length direction.new ≡ size at.now.lp.now.matrix) }
    ensures rates { StaysAt (R.state rates.old) (R.state rates.new) at.now.lp.now at.now.basis.now }
{
    let below = lies_below(at.lp, at.point, r);
    read_row(at.lp, at.basis, rates, r, row)?;
    let chosen = match cheapest(at.lp, at.basis, prices, row, r, below) {
        Ok(chosen) => chosen,
        Err(evidence) => return Err(DualStop::Path(PrimalStop::Overflow(evidence))),
    };
    let Some(q) = chosen else {
        let ray = ray_of(at.alloc, at.lp, row, r, below)?;
        return Ok(Turn::Ends(Outcome::Infeasible {
            steps: at.steps,
            ray,
        }));
    };
    if at.left == 0 {
        return Err(DualStop::Path(PrimalStop::Limit));
    }
    let by = return_along(at, rates, direction, q, r, limit_broken(below))?;
    Ok(Turn::Moves { q, by })
}

/// The end, where no basic is outside its limits: the point, and the prices at hand.
fn optimal<R: Rates>(at: &Position<'_>, rates: &mut R, prices: &[Frac]) -> Result<Turn, DualStop>
    requires no_change { at.now.lp.now.change ≡ None }
    requires rates { IsAtBasis (R.state rates.old) at.now.lp.now at.now.basis.now }
    requires price_places { length prices.now ≡ size at.now.lp.now.matrix }
    requires point { AgreesWithPoint at.now.lp.now at.now.basis.now (value_at at.now.point.now) }
    requires kept { IsTrue (all_kept at.now.kept) →
        IsPointOf at.now.lp.now at.now.basis.now (value_at at.now.point.now) }
    requires prices { ArePricesOf at.now.lp.now at.now.basis.now (value_at prices.now) }
    requires uncrossed { IsUncrossed at.now.lp.now }
    requires inside { least_outside at.now.lp.now at.now.basis.now
        (value_at at.now.point.now) ≡ None }
    ensures turn { (d xs : ℕ → ℚ) → DualTurnFound result at.now.lp.now at.now.basis.now at.now.steps
        at.now.left d xs (R.state rates.old) (R.state rates.new) }
    ensures rates { StaysAt (R.state rates.old) (R.state rates.new) at.now.lp.now at.now.basis.now }
{
    let point = whole_point(at, rates)?;
    Ok(Turn::Ends(best(at.alloc, point, prices, at.steps)?))
}

/// What the dual path does where it stands; `prices` are the basis's. `row` takes the rates of what leaves, and `direction` those of what
/// enters.
pub fn next_turn<R: Rates>(
    at: &Position<'_>,
    rates: &mut R,
    prices: &[Frac],
    row: &mut [Frac],
    direction: &mut SparseVector,
) -> Result<Turn, DualStop>
    requires lawful { IsLinearProgram at.now.lp.now }
    requires no_change { at.now.lp.now.change ≡ None }
    requires rates { IsAtBasis (R.state rates.old) at.now.lp.now at.now.basis.now }
    requires price_places { length prices.now ≡ size at.now.lp.now.matrix }
    requires row_places { length row.old ≡ size at.now.lp.now.matrix }
    requires direction_places { length direction.old ≡ size at.now.lp.now.matrix }
    requires point { AgreesWithPoint at.now.lp.now at.now.basis.now (value_at at.now.point.now) }
    requires kept { IsTrue (all_kept at.now.kept) →
        IsPointOf at.now.lp.now at.now.basis.now (value_at at.now.point.now) }
    requires prices { ArePricesOf at.now.lp.now at.now.basis.now (value_at prices.now) }
    requires uncrossed { IsUncrossed at.now.lp.now }
    requires broken { at.now.broken ≡
        least_outside at.now.lp.now at.now.basis.now (value_at at.now.point.now) }
    ensures turn { DualTurnFound result at.now.lp.now at.now.basis.now at.now.steps at.now.left
        (value_at direction.new) (value_at row.new) (R.state rates.old) (R.state rates.new) }
    ensures direction_places { OnOk result (length direction.new ≡ size at.now.lp.now.matrix) }
    ensures rates { StaysAt (R.state rates.old) (R.state rates.new) at.now.lp.now at.now.basis.now }
{
    match at.broken {
        Some(r) => restore_feasibility(at, rates, prices, row, direction, r),
        None => optimal(at, rates, prices),
    }
}
