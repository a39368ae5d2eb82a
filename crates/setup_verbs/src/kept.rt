// What SETUP keeps for a run.

use control_verbs::SetupOptions;
use lp_model::{Basis, Engine, Lp};
use name_table::Name;
use run_machine::Kept;
use std::marker::Model;

/// What SETUP keeps, and PRIMAL goes on with: the name under which the problem is on file, the options, the linear program that was
/// selected last, with the names of the objective and of the right-hand side set that selected it, the present basis, and the engine
/// with its rates. Contracts see the engine by what the trait promises of it.
#[derive(Drop)]
pub struct Setup<E: Engine> {
    pub name: Name,
    pub options: SetupOptions,
    pub objective: Option<Name>,
    pub rhs: Option<Name>,
    pub lp: Lp,
    pub basis: Basis,
    pub engine: E,
}

impl<E: Engine> Model for Setup<E> {
    ghost use Rattle.setup_verbs.specs.Kept.{Setup as Seen};

    ghost Value = { Seen };

    ghost view = { λ s. record {
      name = s.name;
      options = s.options;
      objective = s.objective;
      rhs = s.rhs;
      lp = s.lp;
      basis = s.basis;
      engine = E.state s.engine;
    } };
}

impl<E: Engine> Kept for Setup<E> {
    ghost use Rattle.setup_verbs.specs.Standing.{IsPresent, IsReady, IsSolved};

    ghost shows = { IsPresent };

    ghost ready = { IsReady };

    ghost solved = { IsSolved };
}
