// The tests of what a verdict claims.
ghost use Rattle.std.specs.Prelude.{◌≡◌, length};
ghost use Rattle.lp_definitions.specs.LinearProgram.{size, value_at};
ghost use Rattle.check_definitions.specs.Checks.{infeasible_check};
ghost use Rattle.walk_definitions.specs.Checkers.{checker_of_128_bits};
ghost use Rattle.listing_claims.specs.Asked.{IsAskedOf, sheet_of, changing_in};
ghost use Rattle.listing_claims.specs.Claims.{IsPairOf, Fits, pair_test, claim_test, opening_test};
ghost use Rattle.listing_claims.specs.Passing.{Judges};
ghost use Rattle.checks_of_128_bits.specs.Fractions.{HasPair, pair_verdict};

use crate::families::program_at;
use crate::fractions::{FractionPair, fraction, fractions, pair_of};
use crate::judging::{asked, both, judge};
use certificate_check::{Verdict, check_crossed, check_infeasible, check_unbounded, is_equal};
use frac128::Frac;
use listing_claims::{Claim, Pair, SheetRun, Stop};
use listing_tables::objective_of;
use listing_words::Number;
use lp_model::Lp;
use std::alloc::Global;

// A point with this objective, and a direction, in fractions.
fn test_pair(lp: &Lp, objective: Frac, pair: &FractionPair) -> Verdict
    requires { HasPair lp.now pair.now }
    ensures { result ≡ pair_verdict lp.now objective pair.now }
{
    let proof = check_unbounded(lp, &pair.point, &pair.direction);
    both(
        proof,
        asked(is_equal(objective, objective_of(lp, &pair.point))),
    )
}

// A point with this objective, and a direction.
fn check_pair(alloc: Global, lp: &Lp, objective: &Number<'_>, pair: &Pair<'_>) -> Result<(), Stop>
    requires { IsPairOf lp.now pair.now }
    ensures { Judges (pair_test checker_of_128_bits lp.now objective.now pair.now) result }
{
    let objective = fraction(objective)?;
    let made = pair_of(alloc, pair)?;
    judge(test_pair(lp, objective, &made))
}

// The multipliers of a ray.
fn check_ray(alloc: Global, lp: &Lp, ray: &[Number<'_>]) -> Result<(), Stop>
    requires { length ray.now ≡ size lp.now.matrix }
    ensures { Judges (infeasible_check lp.now (value_at ray.now)) result }
{
    let made = fractions(alloc, ray)?;
    judge(check_infeasible(lp, &made))
}

/// A claim of a linear program. An optimal one is tested where SOLUTION shows it.
pub fn check_claim(alloc: Global, lp: &Lp, claim: &Claim<'_>) -> Result<(), Stop>
    requires { Fits lp.now claim.now }
    ensures { Judges (claim_test checker_of_128_bits lp.now claim.now) result }
{
    match claim {
        Claim::Optimal(_) => Ok(()),
        Claim::Crossed(k) => judge(check_crossed(lp, *k)),
        Claim::Infeasible(ray) => check_ray(alloc, lp, ray),
        Claim::Unbounded(objective, pair) => check_pair(alloc, lp, objective, pair),
    }
}

/// A claim of the linear program at a value, which is made for it.
pub fn check_claim_at(
    alloc: Global,
    run: &SheetRun<'_, '_>,
    theta: Frac,
    claim: &Claim<'_>,
) -> Result<(), Stop>
    requires asked { IsAskedOf run.now.sheet run.now.request.now }
    requires fits { Fits run.now.sheet.lp.now claim.now }
    ensures { Judges
        (opening_test checker_of_128_bits (sheet_of run.now) (changing_in run.now)
        theta claim.now) result }
{
    let program = program_at(alloc, run, theta)?;
    check_claim(alloc, &program, claim)
}
