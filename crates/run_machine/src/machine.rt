// The machine that runs a program.

ghost use Rattle.std.specs.Prelude.{◌≡◌, ◌≤◌, ◌+◌, ◌-◌, Some, IsSome, length, drop};
ghost use Rattle.std.specs.Option.{option_copied};
ghost use Rattle.card_definitions.specs.Cards.{numbered_cards};
ghost use Rattle.deck_definitions.specs.Decks.{decks_of};
ghost use Rattle.control_definitions.specs.Cells.{name_in};
ghost use Rattle.problem_file.specs.Filed.{filed_under};
ghost use Rattle.run_definitions.specs.State.{start};
ghost use Rattle.run_machine.specs.Standing.{IsSound, Represents, named, filed};

use crate::kept::Kept;
use card_reader::Cards;
use control_definitions::NameCell;
use listing_definitions::Mark;
use name_table::Name;
use problem_file::{Problem, ProblemFile};
use run_cells::Cells;
use std::alloc::Global;

/// A run executes at most so many statements.
pub const MAX_EXECUTED: u32 = 100_000;

/// All that statements see and change: the cells and demands, the problems on file, the number of the first card whose deck isn't
/// taken yet, the setup and the mark. `S` is the type of what SETUP keeps.
#[derive(Drop)]
pub struct Machine<S> {
    pub cells: Cells,
    pub file: ProblemFile,
    pub decks_from: u32,
    pub setup: Option<S>,
    pub mark: Option<Mark>,
}

/// The name under which the problem that is wanted is filed: that of its cell, or else the one put last.
pub fn wanted_name(moved: Option<Name>, file: &ProblemFile) -> Option<Name>
    ensures { result ≡ named moved file.now }
{
    match moved {
        Some(name) => Some(name),
        None => file.last(),
    }
}

/// The problem of a name that is on file.
pub fn problem_on_file<'a>(file: &'a ProblemFile, name: &Name) -> &'a Problem
    requires { IsSome (filed_under name.now file.now) }
    ensures { filed_under name.now file.now ≡ Some result.now }
{
    match file.get(name) {
        Some(problem) => problem,
        None => unreachable!(),
    }
}

// The number of a card, but at least 1, and at most one more than that of the last card: the cards from there on are the same.
fn clamped(number: u32, cards: &Cards) -> u32
    ensures first { 1 ≤ result }
    ensures last { result ≤ length cards.now + 1 }
    ensures same { drop (result - 1) (numbered_cards cards.now) ≡ drop (number - 1)
        (numbered_cards cards.now) }
{
    number.max(1).min(cards.count() + 1)
}

impl<S: Kept> Machine<S> {
    /// A machine at the start of a run over these cards, whose decks begin with the card of this number.
    pub fn new(alloc: Global, cards: &Cards, decks_from: u32) -> Machine<S>
        ensures start { Represents S.shows cards.now result 1 0
            (start (decks_of (drop (decks_from - 1) (numbered_cards cards.now)))) }
        ensures sound { IsSound S.ready S.solved cards.now result }
    {
        Machine {
            cells: Cells::new(),
            file: ProblemFile::new(alloc),
            decks_from: clamped(decks_from, cards),
            setup: None,
            mark: None,
        }
    }

    /// The problem that this cell names, or else the one filed last.
    pub fn problem_in(&self, cell: NameCell) -> Option<&Problem>
        ensures { option_copied result ≡ filed (name_in cell self.now.cells) self.now.file }
    {
        let name = wanted_name(self.cells.name(cell), &self.file)?;
        self.file.get(&name)
    }
}
