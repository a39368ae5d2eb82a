// What comes of verdicts.
ghost use Rattle.std.specs.Prelude.{◌≡◌, [], ◌∷◌};
ghost use Rattle.exact_values.specs.Tests.{le_ℚ};
ghost use Rattle.check_definitions.specs.Steps.{comparison, verdict_of, in_turn, followed_by};
ghost use Rattle.walk_definitions.specs.Tests.{asked};
ghost use Rattle.listing_claims.specs.Passing.{Judges};

use check_definitions::Verdict;
use frac128::Frac;
use listing_claims::Stop;

/// Goes on where all is checked.
pub fn judge(verdict: Verdict) -> Result<(), Stop>
    ensures { Judges verdict result }
{
    match verdict {
        Verdict::Checked => Ok(()),
        Verdict::Failed { .. } => Err(Stop::Wrong),
        Verdict::Unchecked(_) => Err(Stop::Unchecked),
    }
}

/// The verdict of one comparison.
pub fn asked(holds: bool) -> Verdict
    ensures { result ≡ asked holds }
{
    if holds {
        Verdict::Checked
    } else {
        Verdict::Failed { part: 6, number: 0 }
    }
}

/// Whether a number isn't greater than another.
pub fn is_at_most(x: Frac, y: Frac) -> bool
    ensures { result ≡ le_ℚ x y }
{
    !y.is_less(x)
}

/// Goes on where the comparison of a row or of a variable holds.
pub fn judge_at(holds: bool, number: u32) -> Result<(), Stop>
    ensures { Judges (verdict_of (comparison 6 number holds ∷ [])) result }
{
    if holds { Ok(()) } else { Err(Stop::Wrong) }
}

/// Goes on where a comparison holds.
pub fn ask(holds: bool) -> Result<(), Stop>
    ensures { Judges (asked holds) result }
{
    judge(asked(holds))
}

/// The first verdict where it stops, and else the second.
pub fn followed_by(first: Verdict, second: Verdict) -> Verdict
    ensures { result ≡ followed_by first second }
{
    match first {
        Verdict::Checked => second,
        _ => first,
    }
}

/// The first of two verdicts that stops.
pub fn both(first: Verdict, second: Verdict) -> Verdict
    ensures { result ≡ in_turn (first ∷ second ∷ []) }
{
    followed_by(first, followed_by(second, Verdict::Checked))
}
