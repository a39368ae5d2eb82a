//! The rates of a basic.

ghost use Rattle.std.specs.Prelude.{◌≡◌, length, OnOk};
ghost use Rattle.lp_definitions.specs.LinearProgram.{size, value_at};
ghost use Rattle.lp_definitions.specs.Basis.{basics_of, IsBasic};
ghost use Rattle.lp_model.specs.RatesCalls.{IsRowOf};
ghost use Rattle.basis_values.specs.Calls.{IsAtBasis, StaysAt};
ghost use Rattle.basis_values.specs.Stops.{PointOverflow};

use frac128::Frac;
use lp_model::{Basis, Lp, Rates, Stop};

/// Fills `out` with the rates of the basic `i`.
pub fn read_row<R: Rates>(
    lp: &Lp,
    basis: &Basis,
    rates: &mut R,
    i: u32,
    out: &mut [Frac],
) -> Result<(), Stop>
    requires rates { IsAtBasis (R.state rates.old) lp.now basis.now }
    requires basic { IsBasic lp.now.matrix (basics_of basis.now) i }
    requires places { length out.old ≡ size lp.now.matrix }
    ensures row { OnOk result (IsRowOf lp.now.matrix (basics_of basis.now) i (value_at out.new)) }
    ensures rates { StaysAt (R.state rates.old) (R.state rates.new) lp.now basis.now }
    ensures overflow { PointOverflow result lp.now basis.now (R.state rates.old)
        (R.state rates.new) }
{
    rates.row(i, out)
}
