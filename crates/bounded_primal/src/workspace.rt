//! The vectors that a path works with.

ghost use Rattle.std.specs.Prelude.{◌≡◌, length, replicate, IfOk, OnOk};
ghost use Rattle.exact_values.specs.Rational.{zero_ℚ};
ghost use Rattle.lp_definitions.specs.LinearProgram.{size, value_at, IsLinearProgram};
ghost use Rattle.lp_definitions.specs.Basis.{ArePricesOf, IsPointOf};
ghost use Rattle.basis_values.specs.Calls.{IsAtBasis, StaysAt};
ghost use Rattle.basis_values.specs.Stops.{PointOverflow};
ghost use Rattle.bounded_primal.specs.Workspaces.{AreSized};

use basis_values::{fill_prices, point_of};
use frac128::Frac;
use lp_model::{Basis, Lp, NoMemory, Rates, Ratio, SparseVector, Stop, zero_ratios};
use std::alloc::Global;

/// The vectors that a path works with, each with a place for each variable: the values of its point, prices, the row of a basic, and
/// the direction of what enters. `alloc` made them.
#[derive(Drop)]
pub struct Workspace {
    pub alloc: Global,
    pub point: Vec<Ratio>,
    pub prices: Vec<Frac>,
    pub row: Vec<Frac>,
    pub direction: SparseVector,
}

/// So many zeros.
pub fn zeroed(alloc: Global, size: usize) -> Result<Vec<Frac>, NoMemory>
    ensures { IfOk result (λ values. values.items ≡ replicate size zero_ℚ) }
{
    let values = vec![in alloc; Frac::whole(0); size].map_err(|_| NoMemory)?;
    Ok(values)
}

/// Makes the values of one vector those of another.
pub fn copy_ratios(from: &[Frac], to: &mut [Ratio])
    requires { length from.now ≡ length to.old }
    ensures { to.new ≡ from.now }
{
    for place in 0..from.len() {
        to[place] = Ratio::of(from[place]);
    }
}

impl Workspace {
    /// Vectors that are yet to be filled.
    pub fn new(alloc: Global, lp: &Lp) -> Result<Workspace, NoMemory>
        ensures { IfOk result (AreSized (size lp.now.matrix)) }
    {
        let size = lp.number_of_variables() as usize;
        Ok(Workspace {
            alloc,
            point: zero_ratios(alloc, size)?,
            prices: zeroed(alloc, size)?,
            row: zeroed(alloc, size)?,
            direction: SparseVector::zeros(alloc, size)?,
        })
    }

    /// Fills the point with that of the basis. The row is room.
    pub fn fill_point<R: Rates>(
        &mut self,
        lp: &Lp,
        basis: &Basis,
        rates: &mut R,
    ) -> Result<(), Stop>
        requires rates { IsAtBasis (R.state rates.old) lp.now basis.now }
        requires sized { AreSized (size lp.now.matrix) self.old }
        ensures sized { AreSized (size lp.now.matrix) self.new }
        ensures point { OnOk result (IsPointOf lp.now basis.now (value_at self.new.point.items)) }
        ensures prices { self.new.prices ≡ self.old.prices }
        ensures rates { StaysAt (R.state rates.old) (R.state rates.new) lp.now basis.now }
        ensures overflow { PointOverflow result lp.now basis.now (R.state rates.old)
            (R.state rates.new) }
    {
        point_of(self.alloc, lp, basis, rates, &mut self.row)?;
        copy_ratios(&self.row, &mut self.point);
        Ok(())
    }

    /// Fills the prices with those of the basis. The row is room.
    pub fn fill_prices<R: Rates>(
        &mut self,
        lp: &Lp,
        basis: &Basis,
        rates: &mut R,
    ) -> Result<(), Stop>
        requires rates { IsAtBasis (R.state rates.old) lp.now basis.now }
        requires lawful { IsLinearProgram lp.now }
        requires sized { AreSized (size lp.now.matrix) self.old }
        ensures sized { AreSized (size lp.now.matrix) self.new }
        ensures prices { OnOk result
            (ArePricesOf lp.now basis.now (value_at self.new.prices.items)) }
        ensures rates { StaysAt (R.state rates.old) (R.state rates.new) lp.now basis.now }
        ensures overflow { PointOverflow result lp.now basis.now (R.state rates.old)
            (R.state rates.new) }
    {
        fill_prices(lp, basis, rates, &mut self.row, &mut self.prices)
    }
}
