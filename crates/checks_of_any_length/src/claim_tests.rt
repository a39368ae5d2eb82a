// The tests of what a verdict claims.
ghost use Rattle.std.specs.Prelude.{◌≡◌, IfOk};
ghost use Rattle.exact_values.specs.Rational.{ℚ};
ghost use Rattle.lp_definitions.specs.LinearProgram.{IsLinearProgram};
ghost use Rattle.walk_definitions.specs.Checkers.{checker_of_any_length};
ghost use Rattle.listing_claims.specs.Asked.{IsAskedOf, sheet_of, changing_in};
ghost use Rattle.listing_claims.specs.Claims.{Fits, claim_test, opening_test};
ghost use Rattle.long_vectors.specs.Vectors.{IsValue};
ghost use Rattle.long_programs.specs.Programs.{program_of, IsPlain};
ghost use Rattle.long_solutions.specs.Answers.{Answers};
ghost use Rattle.long_solutions.specs.Lines.{IsNumber};

use crate::directions::pair_holds;
use crate::rays::ray_holds;
use listing_claims::{Claim, SheetRun};
use listing_words::Allowance;
use long_programs::{AtTheta, ProgramAt, as_it_is, change_at, own_theta};
use long_rays::limits_cross;
use long_vectors::value_of;
use lp_model::Lp;
use std::alloc::{AllocError, Global};

// Whether a claim of the linear program at theta passes. An optimal one is tested where SOLUTION shows it.
fn claim_holds(
    alloc: Global,
    at: &AtTheta<'_>,
    claim: &Claim<'_>,
    allowance: &mut Allowance,
) -> Result<bool, AllocError>
    requires plain { IsPlain at.now.program.lp.now at.now.program.change }
    requires number { IsNumber at.now.theta.now }
    requires fits { Fits at.now.program.lp.now claim.now }
    ensures { IfOk result
        (λ holds. (x : ℚ) → IsValue x at.now.theta.now →
        Answers holds
        (claim_test checker_of_any_length
        (program_of at.now.program.lp.now at.now.program.change x) claim.now)) }
{
    match claim {
        Claim::Optimal(_) => Ok(true),
        Claim::Crossed(k) => {
            let crosses = limits_cross(at.program.lp, *k);
            Ok(crosses)
        }
        Claim::Infeasible(ray) => {
            let shown = ray_holds(alloc, at, ray, allowance)?;
            Ok(shown)
        }
        Claim::Unbounded(objective, pair) => {
            let goes_on = pair_holds(alloc, at, objective, pair, allowance)?;
            Ok(goes_on)
        }
    }
}

/// Whether a claim of a linear program passes.
pub fn own_claim_holds(
    alloc: Global,
    lp: &Lp,
    claim: &Claim<'_>,
    allowance: &mut Allowance,
) -> Result<bool, AllocError>
    requires { Fits lp.now claim.now }
    ensures { IfOk result
        (λ holds. Answers holds (claim_test checker_of_any_length lp.now claim.now)) }
{
    let theta = own_theta(alloc, lp)?;
    let at = AtTheta {
        program: as_it_is(lp),
        theta: &theta,
    };
    let holds = claim_holds(alloc, &at, claim, allowance)?;
    Ok(holds)
}

/// Whether a claim of the linear program at the first value of a parametric run passes.
pub fn opening_holds(
    alloc: Global,
    run: &SheetRun<'_, '_>,
    claim: &Claim<'_>,
    allowance: &mut Allowance,
) -> Result<bool, AllocError>
    requires asked { IsAskedOf run.now.sheet run.now.request.now }
    requires fits { Fits run.now.sheet.lp.now claim.now }
    ensures { IfOk result
        (λ holds. Answers holds
        (opening_test checker_of_any_length (sheet_of run.now) (changing_in run.now)
        run.now.request.now.from claim.now)) }
{
    let program = ProgramAt {
        lp: run.sheet.lp,
        change: change_at(&run.request.change),
    };
    let theta = value_of(alloc, &run.request.from)?;
    let at = AtTheta {
        program,
        theta: &theta,
    };
    let holds = claim_holds(alloc, &at, claim, allowance)?;
    Ok(holds)
}
