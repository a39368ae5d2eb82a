//! The run.

ghost use Rattle.std.specs.Prelude.{◌≡◌, List, None, IfOk, IfErr};
ghost use Rattle.exact_values.specs.Rational.{◌≤ℚ◌};
ghost use Rattle.lp_definitions.specs.LinearProgram.{IsRow, HasNoLimits};
ghost use Rattle.lp_definitions.specs.declared.Status.{Status};
ghost use Rattle.basis_values.specs.Calls.{IsAtBasis};
ghost use Rattle.simplex_definitions.specs.Chain.{RunReport};
ghost use Rattle.parametric_run.specs.Complete.{IsRunOrMemory};
ghost use Rattle.para_objective.specs.Runs.{ObjectiveEnds, ObjectiveStops, ObjectiveFollows, ObjectiveOverflowFree, IsTrueObjective};

use crate::method::Objective;
use crate::parts::ParaObj;
use bounded_primal::PrimalStop;
use lp_model::{Basis, Lp, ParaReport, Rates};
use parametric_run::{Span, follow};
use std::alloc::Global;

/// A parametric run of the objective: theta times the row `run.row` is added to it, while theta goes from `run.from` to `run.to`. The
/// opening path goes from the basis to the end of the path of the linear program at the first value. Where that is optimal, the
/// intervals follow, each as far as its basis stays optimal (Gass and Saaty, The Computational Algorithm for the Parametric Objective
/// Function, 1955); at a breakpoint the least-numbered nonbasic moves that may improve the row at no cost, until none is left. `Limit`
/// comes exactly where the run has not ended after `run.limit` steps, opening and breakpoints together. The basis and the rates are those
/// that the run has reached, after a stop too. Where the run ends within the limit and no evidence of an overflow holds on it, the
/// answer is its report, or there is no memory.
pub fn para_obj<R: Rates>(
    alloc: Global,
    lp: &Lp,
    basis: &mut Basis,
    rates: &mut R,
    run: &ParaObj,
) -> Result<ParaReport, PrimalStop>
    requires rates { IsAtBasis (R.state rates.old) lp.now basis.old }
    requires no_change { lp.now.change ≡ None }
    requires row { IsRow lp.now.matrix run.now.row }
    requires free { HasNoLimits lp.now run.now.row }
    requires forward { run.now.from ≤ℚ run.now.to }
    ensures ends { IfOk result (ObjectiveEnds lp.now run.now basis.old basis.new
        (R.state rates.old).waypoints (R.state rates.new).waypoints) }
    ensures stops { IfErr result (ObjectiveStops lp.now run.now basis.old basis.new
        (R.state rates.old).waypoints (R.state rates.new).waypoints) }
    ensures rates { IsAtBasis (R.state rates.new) lp.now basis.new }
    ensures waypoints { ObjectiveFollows lp.now run.now basis.old basis.new (R.state rates.old)
        (R.state rates.new) }
    ensures truth { IfOk result (IsTrueObjective lp.now run.now) }
    ensures complete { (report : RunReport) → (path : List (List Status)) →
        ObjectiveOverflowFree lp.now run.now basis.old (R.state rates.old).waypoints report path →
        IsRunOrMemory basis.old report path basis.new result }
{
    let _size = lp.number_of_variables();
    let method = Objective { lp, row: run.row };
    let span = Span {
        from: run.from,
        to: run.to,
        limit: run.limit,
    };
    follow(alloc, &method, &span, basis, rates)
}
