// What comes of a test.
ghost use Rattle.check_definitions.specs.declared.Verdict.{Verdict};
ghost use Rattle.listing_claims.specs.Passing.{Judges};
ghost use Rattle.long_solutions.specs.Answers.{Answers};

use listing_claims::Stop;

/// Goes on where a test holds.
pub fn judged(holds: bool) -> Result<(), Stop>
    ensures { (verdict : Verdict) → Answers holds verdict → Judges verdict result }
{
    if holds { Ok(()) } else { Err(Stop::Wrong) }
}
