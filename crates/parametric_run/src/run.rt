//! The whole run: its opening path, and the chain of intervals.

ghost use Rattle.std.specs.Prelude.{◌≡◌, ◌≤◌, List, IfOk, IfErr};
ghost use Rattle.exact_values.specs.Rational.{◌≤ℚ◌};
ghost use Rattle.lp_definitions.specs.declared.Status.{Status};
ghost use Rattle.basis_values.specs.Calls.{IsAtBasis};
ghost use Rattle.simplex_definitions.specs.Chain.{RunReport};
ghost use Rattle.parametric_run.specs.Chains.{MethodEnds, MethodStops, MethodFollows, MethodOverflowFree};
ghost use Rattle.parametric_run.specs.Complete.{IsRunOrMemory};
ghost use Rattle.parametric_run.specs.Programs.{IsParametric};
ghost use Rattle.parametric_run.specs.Truth.{IsTrueReported};

use crate::chain::chain;
use crate::method::{Opened, Parametric, Span};
use bounded_primal::PrimalStop;
use lp_model::{Basis, Outcome, ParaReport, Rates};
use std::alloc::Global;

/// A parametric run. The opening path goes from the basis to the end of the path of the linear program at the first value. Where that
/// is optimal, the intervals follow, each as far as its basis stays optimal; at a breakpoint the face steps are taken until none is left.
/// `Limit` comes exactly where the run has not ended after as many steps as the limit, opening and breakpoints together. The basis and
/// the rates are those that the run has reached, after a stop too. Where the run ends within the limit and no evidence of an overflow
/// holds on it, the answer is its report, or there is no memory.
pub fn follow<M: Parametric, R: Rates>(
    alloc: Global,
    method: &M,
    span: &Span,
    basis: &mut Basis,
    rates: &mut R,
) -> Result<ParaReport, PrimalStop>
    requires parametric { IsParametric (M.problem method.now) }
    requires fits { M.fits method.now }
    requires rates { IsAtBasis (R.state rates.old) (M.problem method.now).program basis.old }
    requires forward { span.now.from ≤ℚ span.now.to }
    ensures ends { IfOk result (MethodEnds (M.problem method.now) span.now basis.old basis.new
        (R.state rates.old).waypoints (R.state rates.new).waypoints) }
    ensures stops { IfErr result (MethodStops (M.problem method.now) span.now basis.old basis.new
        (R.state rates.old).waypoints (R.state rates.new).waypoints) }
    ensures rates { IsAtBasis (R.state rates.new) (M.problem method.now).program basis.new }
    ensures waypoints { MethodFollows (M.problem method.now) span.now basis.old basis.new
        (R.state rates.old) (R.state rates.new) }
    ensures truth { IfOk result (IsTrueReported (M.problem method.now).family span.now.from
        span.now.to) }
    ensures complete { (report : RunReport) → (path : List (List Status)) →
        MethodOverflowFree (M.problem method.now) span.now basis.old (R.state rates.old).waypoints
        report path →
        IsRunOrMemory basis.old report path basis.new result }
{
    let outcome = method.opening(alloc, span, basis, rates)?;
    match outcome {
        Outcome::Optimal {
            steps,
            point,
            prices: _,
        } => {
            let opened = Opened {
                point,
                left: span.limit - steps,
            };
            let chain = chain(alloc, method, span, basis, rates, &opened)?;
            Ok(ParaReport::Run(chain))
        }
        failed => Ok(ParaReport::Opening(failed)),
    }
}
