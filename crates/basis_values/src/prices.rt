//! The prices of a basis.

ghost use Rattle.std.specs.Prelude.{◌≡◌, ◌≢◌, ◌<◌, ◌^◌, Some, length, OnOk, OnErr, IfOk, IfErr};
ghost use Rattle.exact_values.specs.Rational.{zero_ℚ, ◌+ℚ◌, ◌*ℚ◌};
ghost use Rattle.lp_definitions.specs.LinearProgram.{size, value_at, IsLinearProgram};
ghost use Rattle.lp_definitions.specs.Basis.{basics_of, ArePricesOf};
ghost use Rattle.lp_model.specs.RatesCalls.{IsRowOf};
ghost use Rattle.basis_values.specs.Calls.{IsAtBasis, StaysAt};
ghost use Rattle.basis_values.specs.Stops.{PointOverflow};
ghost use Rattle.basis_values.specs.Prices.{SomeChangedRefused, AreChanged, price_formula};

use crate::formula::Formula;
use frac128::Frac;
use lp_model::{Basis, Change, Evidence, Lp, NoMemory, Prices, Rates, Stop};
use std::alloc::Global;

/// Formula 17: the price of `j`, which is the rate of the objective row plus theta times that of the change row.
fn formula(j: u32, theta: Frac) -> Formula
    ensures { result ≡ price_formula j theta }
{
    Formula {
        number: 17,
        p: 0,
        q: 0,
        i: 0,
        j,
        term: 0,
        theta,
    }
}

/// Adds theta times the rates of the change row.
fn add_changes(theta: Frac, change: &[Frac], prices: &mut [Frac]) -> Result<(), Evidence>
    requires small { length change.now < 2 ^ 32 }
    requires places { length prices.old ≡ length change.now }
    ensures changed { OnOk result (AreChanged theta (value_at change.now) (value_at prices.old)
        (length change.now) (value_at prices.new)) }
    ensures refused { IfErr result (SomeChangedRefused theta (value_at change.now)
        (value_at prices.old) (length change.now)) }
{
    for k in 0..prices.len() {
        let rate = prices[k];
        let added = change[k];
        let price = formula(k as u32 + 1, theta).sum_with_product(rate, theta, added)?;
        prices[k] = price;
    }
    Ok(())
}

/// Adds the rates of the change row, theta times, to those of the objective row. `change` is workspace for them.
fn add_change_row<R: Rates>(
    lp: &Lp,
    basis: &Basis,
    rates: &mut R,
    added: Change,
    change: &mut [Frac],
    prices: &mut [Frac],
) -> Result<(), Stop>
    requires rates { IsAtBasis (R.state rates.old) lp.now basis.now }
    requires lawful { IsLinearProgram lp.now }
    requires added { lp.now.change ≡ Some added }
    requires change { length change.old ≡ size lp.now.matrix }
    requires places { length prices.old ≡ size lp.now.matrix }
    requires objective { IsRowOf lp.now.matrix (basics_of basis.now) lp.now.objective
        (value_at prices.old) }
    ensures prices { OnOk result (ArePricesOf lp.now basis.now (value_at prices.new)) }
    ensures rates { StaysAt (R.state rates.old) (R.state rates.new) lp.now basis.now }
    ensures overflow { PointOverflow result lp.now basis.now (R.state rates.old)
        (R.state rates.new) }
{
    if added.theta.is_zero() {
        return Ok(());
    }
    rates.row(added.row, change)?;
    match add_changes(added.theta, change, prices) {
        Ok(()) => Ok(()),
        Err(evidence) => Err(Stop::Overflow(evidence)),
    }
}

/// Fills `prices` with the objective's rates. `change` is workspace for the rates of the change row.
pub fn fill_prices<R: Rates>(
    lp: &Lp,
    basis: &Basis,
    rates: &mut R,
    change: &mut [Frac],
    prices: &mut [Frac],
) -> Result<(), Stop>
    requires rates { IsAtBasis (R.state rates.old) lp.now basis.now }
    requires lawful { IsLinearProgram lp.now }
    requires change { length change.old ≡ size lp.now.matrix }
    requires places { length prices.old ≡ size lp.now.matrix }
    ensures prices { OnOk result (ArePricesOf lp.now basis.now (value_at prices.new)) }
    ensures rates { StaysAt (R.state rates.old) (R.state rates.new) lp.now basis.now }
    ensures overflow { PointOverflow result lp.now basis.now (R.state rates.old)
        (R.state rates.new) }
{
    rates.row(lp.objective, prices)?;
    match lp.change {
        None => Ok(()),
        Some(added) => add_change_row(lp, basis, rates, added, change, prices),
    }
}

/// Fills `out`, which has a place for each variable, with the basis's prices: the objective's rates at the nonbasics, and 0 at
/// the basics. After a Stop `out` is as before.
pub fn prices_of<R: Rates>(
    alloc: Global,
    lp: &Lp,
    basis: &Basis,
    rates: &mut R,
    out: &mut [Frac],
) -> Result<(), Stop>
    requires rates { IsAtBasis (R.state rates.old) lp.now basis.now }
    requires places { length out.old ≡ size lp.now.matrix }
    ensures prices { OnOk result (ArePricesOf lp.now basis.now (value_at out.new)) }
    ensures unchanged { OnErr result (out.new ≡ out.old) }
    ensures rates { StaysAt (R.state rates.old) (R.state rates.new) lp.now basis.now }
    ensures overflow { PointOverflow result lp.now basis.now (R.state rates.old)
        (R.state rates.new) }
{
    let size = lp.number_of_variables() as usize;
    let mut change = vec![in alloc; Frac::whole(0); size].map_err(|_| NoMemory)?;
    let mut prices = vec![in alloc; Frac::whole(0); size].map_err(|_| NoMemory)?;
    fill_prices(lp, basis, rates, &mut change, &mut prices)?;
    out.copy_from_slice(&prices);
    Ok(())
}

/// The basis's prices, in a vector of their own.
pub fn prices_at<R: Rates>(
    alloc: Global,
    lp: &Lp,
    basis: &Basis,
    rates: &mut R,
) -> Result<Prices, Stop>
    requires rates { IsAtBasis (R.state rates.old) lp.now basis.now }
    ensures places { IfOk result (λ prices. length prices ≡ size lp.now.matrix) }
    ensures prices { IfOk result (λ prices. ArePricesOf lp.now basis.now (value_at prices)) }
    ensures rates { StaysAt (R.state rates.old) (R.state rates.new) lp.now basis.now }
    ensures overflow { PointOverflow result lp.now basis.now (R.state rates.old)
        (R.state rates.new) }
{
    let size = lp.number_of_variables() as usize;
    let mut values = vec![in alloc; Frac::whole(0); size].map_err(|_| NoMemory)?;
    prices_of(alloc, lp, basis, rates, &mut values)?;
    Ok(Prices::new(values))
}
