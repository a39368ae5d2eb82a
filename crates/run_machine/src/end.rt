// How a run ends, where no device fails.
ghost use Rattle.std.specs.Prelude.{◌≡◌, length};
ghost use Rattle.lp_definitions.specs.LinearProgram.{size};
ghost use Rattle.problem_file.specs.Filed.{filed_under};
ghost use Rattle.run_machine.specs.Singular.{IsSheetOf, IsSheetOf-prop};

use deck_definitions::DeckFault;
use listing_definitions::VerbFault;
use lp_definitions::Evidence;
use lp_model::{Basis, Direction, Lp};
use name_table::Name;
use problem_file::ProblemFile;

/// Where an operation is refused: the present basis, and a mark for each basic of the set that the evidence speaks of.
#[derive(Drop)]
pub struct Place {
    pub basis: Basis,
    pub way: Vec<bool>,
}

/// A singular basis that a deck has given: the problems on file, the name of the one whose variables its columns are, the linear program
/// that is selected of that one, and a coefficient for each variable by which these columns depend on each other.
#[derive(Drop)]
pub struct SingularBasis {
    pub file: ProblemFile,
    pub name: Name,
    pub lp: Lp,
    pub dependency: Direction,
    pub ghost on_file: { IsSheetOf (filed_under name file) lp } by { IsSheetOf-prop (filed_under name file) lp },
    pub ghost full: { length dependency ≡ size lp.matrix },
}

/// How a run ends, where no device fails.
#[derive(Drop)]
pub enum End {
    /// At the program's end, or with EXIT.
    Done,
    /// With an infeasible verdict, where no demand is set for it.
    Infeasible,
    /// With an unbounded verdict, where no demand is set for it.
    Unbounded,
    /// The statement of this card is refused.
    Verb {
        fault: VerbFault,
        card: u32,
    },
    /// The deck that the statement of this card takes gives a singular basis.
    Singular {
        card: u32,
        basis: SingularBasis,
    },
    /// The prices at which the statement of this card is to begin are wrong: that of this variable is the first.
    WrongPrices {
        card: u32,
        variable: u32,
    },
    /// A card of a deck is refused.
    Deck(DeckFault),
    /// The statement of this card has made as many steps as the limit allows.
    Limit {
        limit: u32,
        card: u32,
    },
    /// The run has made as many statements as it may.
    Statements,
    /// An operation is refused in the statement of this card. One of a selection has no place.
    Overflow {
        evidence: Evidence,
        place: Option<Place>,
        card: u32,
    },
    /// There is no memory.
    Memory,
}
