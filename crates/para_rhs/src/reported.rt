//! A stop of the opening path, as that of a run.

ghost use Rattle.std.specs.Prelude.{◌≡◌};
ghost use Rattle.para_rhs.specs.Runs.{reported_at};

use bounded_primal::PrimalStop;
use frac128::Frac;
use lp_model::Evidence;

/// The stop of the path at this value of the parameter, as that of a run.
pub fn reported_at(theta: Frac, stop: PrimalStop) -> PrimalStop
    ensures { result ≡ reported_at theta stop }
{
    match stop {
        PrimalStop::Limit => PrimalStop::Limit,
        PrimalStop::Overflow(evidence) => PrimalStop::Overflow(Evidence { theta, ..evidence }),
        PrimalStop::NoMemory => PrimalStop::NoMemory,
    }
}
