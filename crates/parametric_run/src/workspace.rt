//! The vectors of a basis.

ghost use Rattle.std.specs.Prelude.{◌≡◌, ◌≢◌, ℕ, length, replicate, IfOk, IfErr, OnOk, OnErr};
ghost use Rattle.exact_values.specs.Rational.{zero_ℚ};
ghost use Rattle.lp_definitions.specs.LinearProgram.{size, value_at};
ghost use Rattle.lp_definitions.specs.Basis.{basics_of, IsBasic, IsNonbasic, IsDirectionOf, IsPointOf};
ghost use Rattle.lp_model.specs.RatesCalls.{IsRowOf};
ghost use Rattle.basis_values.specs.Calls.{IsAtBasis, StaysAt, MovesTo};
ghost use Rattle.basis_values.specs.Stops.{PointOverflow};
ghost use Rattle.simplex_definitions.specs.Path.{after};
ghost use Rattle.bounded_primal.specs.Moves.{IsStepBy, StepOverflow, move_by};
ghost use Rattle.parametric_run.specs.Standing.{AreSized};

use bounded_primal::{BlockingVariable, Kept, Move, copied, step_over, zeroed};
use frac128::Frac;
use lp_model::{
    Basis, Lp, NoMemory, Point, Prices, Rates, Ratio, SparseVector, Stop, ratios_of, reduced_values,
};
use std::alloc::Global;

/// The vectors of a basis, each with a place for each variable: its point at 0, its prices, and how it moves with the parameter; and
/// those of the variables that move at a breakpoint, a row and a direction. What a run answers is made by `alloc`.
#[derive(Drop)]
pub struct Workspace {
    pub alloc: Global,
    pub point: Vec<Ratio>,
    pub prices: Vec<Frac>,
    pub change: Vec<Frac>,
    pub row: Vec<Frac>,
    pub direction: SparseVector,
}

impl Workspace {
    /// The vectors of a basis with this point; the others are yet to be filled.
    pub fn with_point(alloc: Global, point: Vec<Frac>) -> Result<Workspace, NoMemory>
        ensures sized { IfOk result (AreSized (length point.items)) }
        ensures point { IfOk result (λ workspace. workspace.point.items ≡ point.items) }
    {
        let size = point.len();
        Ok(Workspace {
            alloc,
            point: ratios_of(alloc, &point)?,
            prices: zeroed(alloc, size)?,
            change: zeroed(alloc, size)?,
            row: zeroed(alloc, size)?,
            direction: SparseVector::zeros(alloc, size)?,
        })
    }

    /// Fills the row with the rates of the basic `i`.
    pub fn read_row<R: Rates>(
        &mut self,
        lp: &Lp,
        basis: &Basis,
        rates: &mut R,
        i: u32,
    ) -> Result<(), Stop>
        requires rates { IsAtBasis (R.state rates.old) lp.now basis.now }
        requires basic { IsBasic lp.now.matrix (basics_of basis.now) i }
        requires places { length self.old.row.items ≡ size lp.now.matrix }
        ensures row { OnOk result
            (IsRowOf lp.now.matrix (basics_of basis.now) i (value_at self.new.row.items)) }
        ensures others { self.new ≡ record self.old { row = self.new.row } }
        ensures places { length self.new.row.items ≡ length self.old.row.items }
        ensures rates { StaysAt (R.state rates.old) (R.state rates.new) lp.now basis.now }
        ensures overflow { PointOverflow result lp.now basis.now (R.state rates.old)
            (R.state rates.new) }
    {
        rates.row(i, &mut self.row)
    }

    /// Fills the direction with that of the nonbasic `j`.
    pub fn read_direction<R: Rates>(
        &mut self,
        lp: &Lp,
        basis: &Basis,
        rates: &mut R,
        j: u32,
    ) -> Result<(), Stop>
        requires rates { IsAtBasis (R.state rates.old) lp.now basis.now }
        requires nonbasic { IsNonbasic lp.now.matrix (basics_of basis.now) j }
        requires places { length self.old.direction ≡ size lp.now.matrix }
        ensures direction { OnOk result (IsDirectionOf lp.now.matrix (basics_of basis.now) j
            (value_at self.new.direction)) }
        ensures others { self.new ≡ record self.old { direction = self.new.direction } }
        ensures places { OnOk result (length self.new.direction ≡ size lp.now.matrix) }
        ensures rates { StaysAt (R.state rates.old) (R.state rates.new) lp.now basis.now }
        ensures overflow { PointOverflow result lp.now basis.now (R.state rates.old)
            (R.state rates.new) }
    {
        let _size = lp.number_of_variables();
        rates.direction(j, &mut self.direction)
    }
}

/// A 0 for each variable.
pub fn zeros(alloc: Global, lp: &Lp) -> Result<Vec<Frac>, NoMemory>
    ensures { IfOk result (λ values. values.items ≡ replicate (size lp.now.matrix) zero_ℚ) }
{
    zeroed(alloc, lp.number_of_variables() as usize)
}

/// The point with these values.
pub fn point_with(alloc: Global, values: &[Frac]) -> Result<Point, NoMemory>
    ensures { IfOk result (λ point. point ≡ values.now) }
{
    let values = copied(alloc, values)?;
    Ok(Point::new(values))
}

/// The point with these values, which may not be in lowest terms.
pub fn reduced_point(alloc: Global, values: &[Ratio]) -> Result<Point, NoMemory>
    ensures { IfOk result (λ point. point ≡ values.now) }
{
    let values = reduced_values(alloc, values)?;
    Ok(Point::new(values))
}

/// The prices with these values.
pub fn prices_with(alloc: Global, values: &[Frac]) -> Result<Prices, NoMemory>
    ensures { IfOk result (λ prices. prices ≡ values.now) }
{
    let values = copied(alloc, values)?;
    Ok(Prices::new(values))
}

/// The rates of a point that stands still.
pub fn still_point(alloc: Global, lp: &Lp) -> Result<Point, NoMemory>
    ensures { IfOk result (λ rates. rates ≡ replicate (size lp.now.matrix) zero_ℚ) }
{
    let values = zeros(alloc, lp)?;
    Ok(Point::new(values))
}

/// The rates of prices that stand still.
pub fn still_prices(alloc: Global, lp: &Lp) -> Result<Prices, NoMemory>
    ensures { IfOk result (λ rates. rates ≡ replicate (size lp.now.matrix) zero_ℚ) }
{
    let values = zeros(alloc, lp)?;
    Ok(Prices::new(values))
}

/// A variable that moves, and what stops it.
#[derive(Clone, Copy)]
pub struct StoppedMove<'a> {
    pub q: u32,
    pub by: &'a BlockingVariable,
}

/// Makes the step along this direction: the basis, the rates and the point go over to the next basis. After a stop the basis is as before.
pub fn step_along<R: Rates>(
    lp: &Lp,
    basis: &mut Basis,
    rates: &mut R,
    point: &mut [Ratio],
    direction: &SparseVector,
    stopped: &StoppedMove<'_>,
) -> Result<(), Stop>
    requires rates { IsAtBasis (R.state rates.old) lp.now basis.old }
    requires places { length point.old ≡ size lp.now.matrix }
    requires direction_places { length direction.now ≡ size lp.now.matrix }
    requires point { IsPointOf lp.now basis.old (value_at point.old) }
    requires nonbasic { IsNonbasic lp.now.matrix (basics_of basis.old) stopped.now.q }
    requires direction { IsDirectionOf lp.now.matrix (basics_of basis.old) stopped.now.q
        (value_at direction.now) }
    requires pivot { value_at direction.now stopped.now.by.now.p ≢ zero_ℚ }
    requires step { IsStepBy lp.now basis.old (value_at point.old) (value_at direction.now)
        stopped.now.q stopped.now.by.now }
    ensures basis { OnOk result
        (basis.new ≡ after basis.old (move_by stopped.now.q stopped.now.by.now)) }
    ensures point { OnOk result (IsPointOf lp.now basis.new (value_at point.new)) }
    ensures unchanged { OnErr result (basis.new ≡ basis.old) }
    ensures rates { IsAtBasis (R.state rates.new) lp.now basis.new }
    ensures waypoints { MovesTo (R.state rates.old) (R.state rates.new) lp.now basis.old basis.new }
    ensures overflow { StepOverflow result lp.now basis.old stopped.now.q stopped.now.by.now
        (R.state rates.old) (R.state rates.new) }
{
    let StoppedMove { q, by } = *stopped;
    let step = Move { q, by, direction };
    match step_over(lp, basis, rates, point, &step, Kept::All) {
        Ok(_) => Ok(()),
        Err(stop) => Err(stop),
    }
}
