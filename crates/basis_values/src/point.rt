//! The point of a basis.

ghost use Rattle.std.specs.Prelude.{◌≡◌, ◌≤◌, ◌<◌, ◌+◌, ◌-◌, ◌^◌, ℕ, true, if◌then◌else◌, length, vec_len, OnOk, OnErr, IfOk, IfErr};
ghost use Rattle.exact_values.specs.Rational.{◌+ℚ◌, ◌*ℚ◌};
ghost use Rattle.lp_definitions.specs.LinearProgram.{size, value_at, IsVariable, IsLinearProgram};
ghost use Rattle.lp_definitions.specs.Basis.{basics_of, is_in, IsBasis, IsPointOf};
ghost use Rattle.lp_laws.specs.Points.{standing};
ghost use Rattle.basis_values.specs.Calls.{IsAtBasis, StaysAt};
ghost use Rattle.basis_values.specs.Stops.{PointOverflow};
ghost use Rattle.basis_values.specs.Formulas.{IsTermRefusal};
ghost use Rattle.basis_values.specs.Points.{ColumnTermRefused, IsSoFar, AreAdded, nonbasics_to, term_of};

use crate::choices::stands_basic;
use crate::formula::Formula;
use frac128::Frac;
use lp_model::{Basis, Evidence, Lp, NoMemory, Point, Rates, Status, Stop};
use std::alloc::Global;

/// The value of a nonbasic, and 0 at a basic.
fn place(lp: &Lp, basis: &Basis, k: u32) -> Frac
    requires variable { IsVariable lp.now.matrix k }
    requires basis { IsBasis lp.now basis.now }
    ensures { result ≡ standing lp.now basis.now k }
{
    match basis.status(k) {
        Status::Bs | Status::Fr => Frac::whole(0),
        Status::Ll => lp.lower_limit(k).unwrap_or(Frac::whole(0)),
        Status::Ul => lp.upper_limit(k).unwrap_or(Frac::whole(0)),
    }
}

/// The values of the nonbasics, and 0 at the basics.
fn places(alloc: Global, lp: &Lp, basis: &Basis) -> Result<Vec<Frac>, NoMemory>
    requires { IsBasis lp.now basis.now }
    ensures places { IfOk result (λ values. vec_len values ≡ size lp.now.matrix) }
    ensures standing { IfOk result (λ values. (k : ℕ) → IsVariable lp.now.matrix k → value_at
        values.items k ≡ standing lp.now basis.now k) }
{
    let mut values = Vec::new(alloc);
    for k in 0..lp.number_of_variables() {
        values.push(place(lp, basis, k + 1)).map_err(|_| NoMemory)?;
    }
    Ok(values)
}

/// A variable whose direction is added if it is nonbasic: how many nonbasics stand before it, and its value.
#[derive(Clone, Copy)]
struct Summand {
    j: u32,
    before: u32,
    value: Frac,
}

impl Summand {
    /// Formula 10 of the sum of `i`, at this variable.
    fn formula(&self, i: u32) -> Formula
        ensures { result ≡ term_of i self.now.j self.now.before }
    {
        Formula::of_rate(10, i, self.j, self.before)
    }

    /// What `i` comes to, whose rate this is: a basic's sum with the rate times the value, and a nonbasic's value as it is.
    fn added_to(&self, basis: &Basis, sum: Frac, rate: Frac, i: u32) -> Result<Frac, Evidence>
        requires low { 1 ≤ i }
        requires high { i ≤ length basis.now }
        ensures value { IfOk result (λ more. more ≡ (if is_in (basics_of basis.now) i then sum +ℚ
            rate *ℚ self.now.value else sum)) }
        ensures basic { OnErr result (is_in (basics_of basis.now) i ≡ true) }
        ensures refused { IfErr result (IsTermRefusal (term_of i self.now.j self.now.before) sum
            rate self.now.value) }
    {
        if stands_basic(basis, i) {
            self.formula(i).sum_with_product(sum, rate, self.value)
        } else {
            Ok(sum)
        }
    }
}

/// Adds the column, times the value, at the basics.
fn add_multiple(
    basis: &Basis,
    column: &[Frac],
    summand: &Summand,
    point: &mut [Frac],
) -> Result<(), Evidence>
    requires small { length basis.now < 2 ^ 32 }
    requires column { length column.now ≡ length basis.now }
    requires places { length point.old ≡ length basis.now }
    ensures added { OnOk result
        (AreAdded (basics_of basis.now) (value_at column.now) summand.now.value
        (value_at point.old) (length basis.now) (value_at point.new)) }
    ensures refused { IfErr result (ColumnTermRefused (basics_of basis.now) (value_at column.now)
        summand.now.value (value_at point.old) summand.now.j summand.now.before
        (length basis.now)) }
{
    for k in 0..point.len() {
        let i = k as u32 + 1;
        let sum = point[k];
        let rate = column[k];
        let more = summand.added_to(basis, sum, rate, i)?;
        point[k] = more;
    }
    Ok(())
}

/// How many of the first `k + 1` variables are nonbasic, where so many of the first `k` are.
fn counted_on(basis: &Basis, count: u32, k: u32) -> u32
    requires fits { k + 1 < 2 ^ 32 }
    requires high { k < length basis.now }
    requires small { count ≤ k }
    requires counted { count ≡ length (nonbasics_to (basics_of basis.now) k) }
    ensures small { result ≤ k + 1 }
    ensures counted { result ≡ length (nonbasics_to (basics_of basis.now) (k + 1)) }
{
    if stands_basic(basis, k + 1) {
        count
    } else {
        count + 1
    }
}

/// Adds the variable's direction, times its value, if it is nonbasic. `column` is room for the direction.
fn add_direction<R: Rates>(
    lp: &Lp,
    basis: &Basis,
    rates: &mut R,
    summand: &Summand,
    column: &mut [Frac],
    point: &mut [Frac],
) -> Result<(), Stop>
    requires rates { IsAtBasis (R.state rates.old) lp.now basis.now }
    requires lawful { IsLinearProgram lp.now }
    requires variable { IsVariable lp.now.matrix summand.now.j }
    requires before { summand.now.before ≡ length (nonbasics_to (basics_of basis.now)
        (summand.now.j - 1)) }
    requires value { summand.now.value ≡ value_at point.old summand.now.j }
    requires column { length column.old ≡ size lp.now.matrix }
    requires places { length point.old ≡ size lp.now.matrix }
    requires so_far { IsSoFar lp.now.matrix (basics_of basis.now) (standing lp.now basis.now)
        (summand.now.j - 1) (value_at point.old) }
    ensures so_far { OnOk result (IsSoFar lp.now.matrix (basics_of basis.now)
        (standing lp.now basis.now) summand.now.j (value_at point.new)) }
    ensures rates { StaysAt (R.state rates.old) (R.state rates.new) lp.now basis.now }
    ensures overflow { PointOverflow result lp.now basis.now (R.state rates.old)
        (R.state rates.new) }
{
    if stands_basic(basis, summand.j) {
        return Ok(());
    }
    if summand.value.is_zero() {
        return Ok(());
    }
    rates.column(summand.j, column)?;
    match add_multiple(basis, column, summand, point) {
        Ok(()) => Ok(()),
        Err(evidence) => Err(Stop::Overflow(evidence)),
    }
}

/// Adds the directions of the nonbasics, each times the nonbasic's value.
fn add_directions<R: Rates>(
    lp: &Lp,
    basis: &Basis,
    rates: &mut R,
    column: &mut [Frac],
    point: &mut [Frac],
) -> Result<(), Stop>
    requires rates { IsAtBasis (R.state rates.old) lp.now basis.now }
    requires lawful { IsLinearProgram lp.now }
    requires column { length column.old ≡ size lp.now.matrix }
    requires places { length point.old ≡ size lp.now.matrix }
    requires begins { (k : ℕ) → IsVariable lp.now.matrix k → value_at point.old k ≡ standing lp.now
        basis.now k }
    ensures point { OnOk result (IsPointOf lp.now basis.now (value_at point.new)) }
    ensures rates { StaysAt (R.state rates.old) (R.state rates.new) lp.now basis.now }
    ensures overflow { PointOverflow result lp.now basis.now (R.state rates.old)
        (R.state rates.new) }
{
    let mut nonbasics = 0;
    for k in 0..lp.number_of_variables() {
        let summand = Summand {
            j: k + 1,
            before: nonbasics,
            value: point[k as usize],
        };
        add_direction(lp, basis, rates, &summand, column, point)?;
        nonbasics = counted_on(basis, nonbasics, k);
    }
    Ok(())
}

/// Fills `out`, which has a place for each variable, with the basis's point. After a Stop `out` is as before.
pub fn point_of<R: Rates>(
    alloc: Global,
    lp: &Lp,
    basis: &Basis,
    rates: &mut R,
    out: &mut [Frac],
) -> Result<(), Stop>
    requires rates { IsAtBasis (R.state rates.old) lp.now basis.now }
    requires places { length out.old ≡ size lp.now.matrix }
    ensures point { OnOk result (IsPointOf lp.now basis.now (value_at out.new)) }
    ensures unchanged { OnErr result (out.new ≡ out.old) }
    ensures rates { StaysAt (R.state rates.old) (R.state rates.new) lp.now basis.now }
    ensures overflow { PointOverflow result lp.now basis.now (R.state rates.old)
        (R.state rates.new) }
{
    let size = lp.number_of_variables() as usize;
    let mut column = vec![in alloc; Frac::whole(0); size].map_err(|_| NoMemory)?;
    let mut point = places(alloc, lp, basis)?;
    add_directions(lp, basis, rates, &mut column, &mut point)?;
    out.copy_from_slice(&point);
    Ok(())
}

/// The basis's point, in a vector of its own.
pub fn point_at<R: Rates>(
    alloc: Global,
    lp: &Lp,
    basis: &Basis,
    rates: &mut R,
) -> Result<Point, Stop>
    requires rates { IsAtBasis (R.state rates.old) lp.now basis.now }
    ensures places { IfOk result (λ point. length point ≡ size lp.now.matrix) }
    ensures point { IfOk result (λ point. IsPointOf lp.now basis.now (value_at point)) }
    ensures rates { StaysAt (R.state rates.old) (R.state rates.new) lp.now basis.now }
    ensures overflow { PointOverflow result lp.now basis.now (R.state rates.old)
        (R.state rates.new) }
{
    let size = lp.number_of_variables() as usize;
    let mut values = vec![in alloc; Frac::whole(0); size].map_err(|_| NoMemory)?;
    point_of(alloc, lp, basis, rates, &mut values)?;
    Ok(Point::new(values))
}
