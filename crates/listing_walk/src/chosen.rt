// What SETUP keeps.

use control_verbs::SetupOptions;
use lp_model::Lp;
use name_table::Name;
use run_machine::Kept;

/// What SETUP keeps of a problem, without a basis: the name under which it is on file, the options, and the linear program that was
/// selected last.
#[derive(Drop)]
pub struct Chosen {
    pub name: Name,
    pub options: SetupOptions,
    pub lp: Lp,
}

impl Kept for Chosen {
    ghost use Rattle.listing_walk.specs.Standing.{IsView, IsReady, IsSolved};

    ghost shows = { IsView };

    ghost ready = { IsReady };

    ghost solved = { IsSolved };
}

/// A problem that was chosen: its own name, and what is kept of it.
#[derive(Drop)]
pub struct Named {
    pub name: Name,
    pub chosen: Chosen,
}
