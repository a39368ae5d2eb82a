//! How far a basis stays optimal.

ghost use Rattle.std.specs.Prelude.{◌≡◌, ◌≢◌, length, IsTrue, IfOk, IfErr, OnErr};
ghost use Rattle.exact_values.specs.Rational.{zero_ℚ, ◌≤ℚ◌};
ghost use Rattle.frac128.specs.declared.Op.TheVariants.{Div};
ghost use Rattle.lp_definitions.specs.LinearProgram.{size, value_at, IsVariable};
ghost use Rattle.basis_values.specs.Formulas.{IsRefusal};
ghost use Rattle.simplex_laws.specs.Laws.{IsNonsingularBasis};
ghost use Rattle.parametric_run.specs.Standing.{IsWorkspaceOf};
ghost use Rattle.para_objective.specs.Method.{objective_problem, FitsObjective};
ghost use Rattle.para_objective.specs.Reach.{rate_formula, zero_at, meets, IsLeast, IsWithRate, IsReachOf, IsReachAbove, IsReachFromAny, RateRefused};
ghost use Rattle.para_objective.specs.Reach.{EndRefused};

use crate::choices::worth;
use crate::method::Objective;
use basis_values::{Formula, may_lower, plus_product};
use frac128::Frac;
use lp_model::{Basis, Evidence, Lp};
use parametric_run::Workspace;

/// Whether the combined rate hasn't passed 0 at the theta whose product with the rate this is.
fn meets(product: Frac, price: Frac, rate: Frac) -> bool
    ensures { result ≡ meets product price rate }
{
    if rate.is_less(Frac::whole(0)) {
        return !product.is_less(price.neg());
    }
    !price.neg().is_less(product)
}

/// Whether the combined rate hasn't passed 0 at `best`, by the product of `best` and the rate, or else by the combined rate itself.
fn stands_before(best: Frac, price: Frac, rate: Frac) -> bool
    requires { rate ≢ zero_ℚ }
    ensures { IsTrue result → best ≤ℚ zero_at price rate }
{
    match best.mul(rate) {
        Ok(product) => meets(product, price, rate),
        Err(_refused) => match plus_product(price, best, rate) {
            Some(combined) => meets(combined, Frac::whole(0), rate),
            None => false,
        },
    }
}

/// The lesser of two values.
fn lesser(best: Frac, other: Frac) -> Frac
    ensures { IsLeast best other result }
{
    if other.is_less(best) {
        return other;
    }
    best
}

/// Formula 16 of the nonbasic `j`.
fn formula(j: u32) -> Formula
    ensures { result ≡ rate_formula j }
{
    Formula {
        number: 16,
        p: 0,
        q: 0,
        i: 0,
        j,
        term: 0,
        theta: Frac::whole(0),
    }
}

/// The lesser of `best` and the theta at which the combined rate of `j` is 0. Where a product tells that `best` is the lesser, no
/// quotient is made.
fn nearer(best: Frac, price: Frac, rate: Frac, j: u32) -> Result<Frac, Evidence>
    requires { rate ≢ zero_ℚ }
    ensures nearer { IfOk result (IsLeast best (zero_at price rate)) }
    ensures refused { IfErr result (IsRefusal (rate_formula j) Div price rate) }
{
    if stands_before(best, price, rate) {
        return Ok(best);
    }
    let quotient = formula(j).quotient(price, rate)?;
    Ok(lesser(best, quotient.neg()))
}

/// `best`, or the end that `k` makes if that is less.
fn with_rate(
    lp: &Lp,
    basis: &Basis,
    best: Frac,
    price: Frac,
    rate: Frac,
    k: u32,
) -> Result<Frac, Evidence>
    requires variable { IsVariable lp.now.matrix k }
    requires counted { length basis.now ≡ size lp.now.matrix }
    ensures nearer { IfOk result (IsWithRate lp.now basis.now price rate k best) }
    ensures moves { OnErr result (rate ≢ zero_ℚ) }
    ensures refused { IfErr result (IsRefusal (rate_formula k) Div price rate) }
{
    if rate.is_zero() {
        return Ok(best);
    }
    if !may_lower(lp, basis, worth(lp.sense, rate), k) {
        return Ok(best);
    }
    match nearer(best, price, rate, k) {
        Ok(now) => Ok(now),
        Err(evidence) => Err(evidence),
    }
}

/// The least of `max` and the ends that the variables make, by the plain search.
fn reach_from(
    lp: &Lp,
    basis: &Basis,
    prices: &[Frac],
    change: &[Frac],
    max: Frac,
) -> Result<Frac, Evidence>
    requires counted { length basis.now ≡ size lp.now.matrix }
    requires prices { length prices.now ≡ size lp.now.matrix }
    requires places { length change.now ≡ size lp.now.matrix }
    ensures reach { IfOk result (IsReachOf lp.now basis.now
        (value_at prices.now) (value_at change.now) (size lp.now.matrix) max) }
    ensures refused { IfErr result
        (RateRefused (value_at prices.now) (value_at change.now) (size lp.now.matrix)) }
{
    let mut best = max;
    for k in 0..lp.number_of_variables() {
        let price = prices[k as usize];
        let rate = change[k as usize];
        best = with_rate(lp, basis, best, price, rate, k + 1)?;
    }
    Ok(best)
}

/// The least of `max` and those ends that can be computed in a search that leaves out the others.
fn least_computed(lp: &Lp, basis: &Basis, prices: &[Frac], change: &[Frac], max: Frac) -> Frac
    requires counted { length basis.now ≡ size lp.now.matrix }
    requires prices { length prices.now ≡ size lp.now.matrix }
    requires places { length change.now ≡ size lp.now.matrix }
    ensures { IsReachAbove lp.now basis.now (value_at prices.now)
        (value_at change.now) (size lp.now.matrix) max result }
{
    let mut best = max;
    for k in 0..lp.number_of_variables() {
        let price = prices[k as usize];
        let rate = change[k as usize];
        let Ok(now) = with_rate(lp, basis, best, price, rate, k + 1) else {
            continue;
        };
        best = now;
    }
    best
}

/// The greatest theta up to `max` to which the basis stays optimal, from any theta at which it is, while theta times the change row is
/// added to the objective. Where an end can't be computed, the search begins again from the least of the others, which may show that it
/// isn't needed. An overflow comes only with evidence of it at this basis.
pub fn reach(
    method: &Objective<'_>,
    basis: &Basis,
    workspace: &Workspace,
    max: Frac,
) -> Result<Frac, Evidence>
    requires fits { FitsObjective method.now.lp.now method.now.row }
    requires basis { IsNonsingularBasis method.now.lp.now basis.now }
    requires workspace { IsWorkspaceOf (objective_problem method.now.lp.now method.now.row)
        basis.now workspace.now }
    ensures reaches { IfOk result
        (IsReachFromAny method.now.lp.now method.now.row basis.now max) }
    ensures overflow { IfErr result (EndRefused method.now.lp.now method.now.row basis.now) }
{
    let lp = method.lp;
    let prices = workspace.prices.as_slice();
    let change = workspace.change.as_slice();
    match reach_from(lp, basis, prices, change, max) {
        Ok(to) => Ok(to),
        Err(_evidence) => {
            let best = least_computed(lp, basis, prices, change, max);
            reach_from(lp, basis, prices, change, best)
        }
    }
}
