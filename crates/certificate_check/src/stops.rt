//! Where a check stops.

ghost use Rattle.std.specs.Prelude.{◌≡◌, [], ◌∷◌};
ghost use Rattle.check_definitions.specs.Steps.{comparison, verdict_of};

use check_definitions::Verdict;
use frac128::Refused;

/// What a check stops at: a comparison that fails, with its part and the number of its row, column or variable; or an operation that is
/// refused.
#[derive(Clone, Copy)]
pub enum Stopped {
    Comparison { part: u8, number: u32 },
    Operation(Refused),
}

impl From<Refused> for Stopped {
    ghost use Rattle.std.specs.Prelude.{◌≡◌};
    ghost use Rattle.certificate_check.specs.declared.stops.Stopped.TheVariants.{Operation};

    ghost from_gives = { λ refused stopped. stopped ≡ Operation refused };

    fn from(refused: Refused) -> Stopped {
        Stopped::Operation(refused)
    }
}

ghost use Rattle.certificate_check.specs.Results.{verdict_from};

/// The verdict of a check that may stop.
pub fn verdict(outcome: Result<(), Stopped>) -> Verdict
    ensures { result ≡ verdict_from outcome }
{
    match outcome {
        Ok(()) => Verdict::Checked,
        Err(Stopped::Comparison { part, number }) => Verdict::Failed { part, number },
        Err(Stopped::Operation(refused)) => Verdict::Unchecked(refused),
    }
}

/// Stops where the comparison does not hold.
pub fn compare(holds: bool, part: u8, number: u32) -> Result<(), Stopped>
    ensures { verdict_from result ≡ verdict_of (comparison part number holds ∷ []) }
{
    if holds {
        Ok(())
    } else {
        Err(Stopped::Comparison { part, number })
    }
}
