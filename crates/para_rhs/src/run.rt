//! The run.

ghost use Rattle.std.specs.Prelude.{◌≡◌, List, None, length, IfOk, IfErr};
ghost use Rattle.exact_values.specs.Rational.{◌≤ℚ◌};
ghost use Rattle.basis_values.specs.Calls.{IsAtBasis};
ghost use Rattle.lp_definitions.specs.declared.Status.{Status};
ghost use Rattle.simplex_definitions.specs.Chain.{RunReport};
ghost use Rattle.parametric_run.specs.Complete.{IsRunOrMemory};
ghost use Rattle.para_rhs.specs.Runs.{RhsEnds, RhsStops, RhsFollows, RhsOverflowFree, IsTrueRhs};

use crate::method::RightHandSide;
use crate::parts::ParaRhs;
use crate::slopes::slope_program;
use bounded_primal::PrimalStop;
use lp_model::{Basis, Lp, ParaReport, Rates};
use parametric_run::{Span, follow};
use std::alloc::Global;

/// A parametric run of the right-hand side: theta times the shift of each row is added to the row's limits, while theta goes from
/// `run.from` to `run.to`. The opening path goes from the basis to the end of the path of the linear program at the first value. Where
/// that is optimal, the intervals follow, each as far as its basis stays optimal: its point moves along a line, and its prices stay.
/// This is the dual of the procedure for the objective (Gass and Saaty, The Computational Algorithm for the Parametric Objective
/// Function, 1955), and at a breakpoint it takes steps of Lemke's dual method (The Dual Method of Solving the Linear Programming
/// Problem, 1954): the least-numbered basic that would leave a limit goes, for the nonbasic that brings it back at the least price, and
/// of equals the least-numbered, until none is left. `Limit` comes exactly where the run has not ended after `run.limit` steps, opening
/// and breakpoints together. The basis and the rates are those that the run has reached, after a stop too. Where the run ends within the
/// limit and no evidence of an overflow holds on it, the answer is its report, or there is no memory.
pub fn para_rhs<R: Rates>(
    alloc: Global,
    lp: &Lp,
    basis: &mut Basis,
    rates: &mut R,
    run: &ParaRhs,
) -> Result<ParaReport, PrimalStop>
    requires rates { IsAtBasis (R.state rates.old) lp.now basis.old }
    requires no_change { lp.now.change ≡ None }
    requires shifts { length run.now.shift.items ≡ lp.now.rows }
    requires forward { run.now.from ≤ℚ run.now.to }
    ensures ends { IfOk result (RhsEnds lp.now run.now basis.old basis.new
        (R.state rates.old).waypoints (R.state rates.new).waypoints) }
    ensures stops { IfErr result (RhsStops lp.now run.now basis.old basis.new
        (R.state rates.old).waypoints (R.state rates.new).waypoints) }
    ensures rates { IsAtBasis (R.state rates.new) lp.now basis.new }
    ensures waypoints { RhsFollows lp.now run.now basis.old basis.new (R.state rates.old)
        (R.state rates.new) }
    ensures truth { IfOk result (IsTrueRhs lp.now run.now) }
    ensures complete { (report : RunReport) → (path : List (List Status)) →
        RhsOverflowFree lp.now run.now basis.old (R.state rates.old).waypoints report path →
        IsRunOrMemory basis.old report path basis.new result }
{
    let shift = run.shift.as_slice();
    let moving = slope_program(alloc, lp, shift)?;
    let method = RightHandSide {
        lp,
        shift,
        moving: &moving,
    };
    let span = Span {
        from: run.from,
        to: run.to,
        limit: run.limit,
    };
    follow(alloc, &method, &span, basis, rates)
}
