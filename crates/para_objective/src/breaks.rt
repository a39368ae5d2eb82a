//! Who moves at a breakpoint.

ghost use Rattle.std.specs.Prelude.{◌≡◌, length};
ghost use Rattle.exact_values.specs.Rational.{zero_ℚ, ◌+ℚ◌, ◌*ℚ◌};
ghost use Rattle.exact_values.specs.Tests.{eq_ℚ};
ghost use Rattle.lp_definitions.specs.LinearProgram.{size, value_at, IsVariable};
ghost use Rattle.simplex_definitions.specs.Moves.{least};
ghost use Rattle.simplex_laws.specs.Laws.{IsNonsingularBasis};
ghost use Rattle.parametric_run.specs.Standing.{IsWorkspaceOf};
ghost use Rattle.para_objective.specs.Breaks.{is_entering_variable, IsFaceEnteringVariable};
ghost use Rattle.para_objective.specs.Method.{objective_problem, FitsObjective};

use crate::choices::worth;
use crate::method::Objective;
use basis_values::may_lower;
use frac128::Frac;
use lp_model::{Basis, Lp};
use parametric_run::Workspace;

/// Whether the combined rate is 0 at theta. A product that is refused isn't the opposite of a price, which fits: nothing stops this.
fn is_zero_at(theta: Frac, price: Frac, rate: Frac) -> bool
    ensures { result ≡ eq_ℚ (price +ℚ theta *ℚ rate) zero_ℚ }
{
    let opposite = price.neg();
    match theta.mul(rate) {
        Ok(product) => product.compare(opposite).is_eq(),
        Err(_refused) => false,
    }
}

/// Whether the combined rate of `k` is 0 at theta, and `k` may move so as to improve the change row.
fn may_move(lp: &Lp, basis: &Basis, theta: Frac, price: Frac, rate: Frac, k: u32) -> bool
    requires variable { IsVariable lp.now.matrix k }
    requires counted { length basis.now ≡ size lp.now.matrix }
    ensures { result ≡ is_entering_variable lp.now basis.now theta (λ _. price) (λ _. rate) k }
{
    is_zero_at(theta, price, rate) && may_lower(lp, basis, worth(lp.sense, rate), k)
}

/// The least-numbered of those that may move, from the prices and the rates of the change row.
fn entering_variable_by(
    lp: &Lp,
    basis: &Basis,
    prices: &[Frac],
    change: &[Frac],
    theta: Frac,
) -> Option<u32>
    requires counted { length basis.now ≡ size lp.now.matrix }
    requires prices { length prices.now ≡ size lp.now.matrix }
    requires places { length change.now ≡ size lp.now.matrix }
    ensures { result ≡ least lp.now
        (is_entering_variable lp.now basis.now theta (value_at prices.now) (value_at change.now)) }
{
    for k in 0..lp.number_of_variables() {
        let price = prices[k as usize];
        let rate = change[k as usize];
        if may_move(lp, basis, theta, price, rate, k + 1) {
            return Some(k + 1);
        }
    }
    None
}

/// The least-numbered nonbasic whose combined rate is 0 at theta and which may move so as to improve the change row. Nothing stops this.
pub fn face_entering_variable(
    method: &Objective<'_>,
    basis: &Basis,
    workspace: &Workspace,
    theta: Frac,
) -> Option<u32>
    requires fits { FitsObjective method.now.lp.now method.now.row }
    requires basis { IsNonsingularBasis method.now.lp.now basis.now }
    requires workspace { IsWorkspaceOf (objective_problem method.now.lp.now method.now.row)
        basis.now workspace.now }
    ensures { IsFaceEnteringVariable method.now.lp.now method.now.row theta basis.now result }
{
    let prices = workspace.prices.as_slice();
    let change = workspace.change.as_slice();
    entering_variable_by(method.lp, basis, prices, change, theta)
}
