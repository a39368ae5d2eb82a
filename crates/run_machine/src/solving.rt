// The verbs that follow a path.
ghost use Rattle.std.specs.Prelude.{◌≡◌};
ghost use Rattle.run_machine.specs.SolvingVerbs.{solver_of};

use listing_definitions::Solver;

/// A verb that follows a path.
#[derive(Clone, Copy, Debug)]
pub enum SolvingVerb {
    Primal,
    Dual,
}

/// The verb, as a listing names it.
pub fn solver_of(verb: SolvingVerb) -> Solver
    ensures { result ≡ solver_of verb }
{
    match verb {
        SolvingVerb::Primal => Solver::Primal,
        SolvingVerb::Dual => Solver::Dual,
    }
}
