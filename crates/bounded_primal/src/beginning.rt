//! Where a path may begin.

ghost use Rattle.std.specs.Prelude.{◌≡◌, [], ◌∷◌, IfOk};
ghost use Rattle.lp_definitions.specs.Basis.{opening_statuses};
ghost use Rattle.basis_values.specs.Calls.{LieIn, IsAtBasis};

use lp_model::{Basis, Engine, Lp, NoMemory};
use std::alloc::Global;

/// The opening basis, in which every row is basic, and the rates of its basics, whose waypoints lie in it.
pub fn opening<R: Engine>(alloc: Global, lp: &Lp) -> Result<(Basis, R), NoMemory>
    ensures basis { IfOk result (λ opened. opened.0 ≡ opening_statuses lp.now) }
    ensures rates { IfOk result (λ opened. IsAtBasis (R.state opened.1) lp.now opened.0) }
    ensures waypoints { IfOk result (λ opened. LieIn lp.now.matrix (R.state opened.1).waypoints
        (opened.0 ∷ [])) }
{
    let basis = Basis::opening(alloc, lp)?;
    let rates = R::start(alloc, lp)?;
    Ok((basis, rates))
}
