// The statements that set cells and demands, and those that choose the next statement.
ghost use Rattle.std.specs.Prelude.{◌≡◌, ◌≤◌, IfSome};
ghost use Rattle.control_definitions.specs.Program as program;
ghost use Rattle.control_definitions.specs.declared.TheConstants.{MAX_STEPS};
ghost use Rattle.run_definitions.specs.Verbs.{mark_after};
ghost use Rattle.run_machine.specs.Standing.{StaysSound};
ghost use Rattle.run_machine.specs.Statements.{DecidesOnAny};

use crate::act::Act;
use crate::end::End;
use crate::kept::Kept;
use crate::machine::Machine;
use control_definitions::{Demand, NameCell, NumberCell};
use frac128::Frac;
use listing_definitions::Mark;
use name_table::Name;
use run_cells::Cells;

// The mark after a name is moved to a cell.
fn mark_after(cell: NameCell, mark: Option<Mark>) -> Option<Mark>
    ensures { result ≡ mark_after cell mark }
{
    match cell {
        NameCell::Xobj | NameCell::Xrhs => None,
        NameCell::Xdata
        | NameCell::Xpbname
        | NameCell::Xoldname
        | NameCell::Xchrow
        | NameCell::Xchcol => mark,
    }
}

impl<S: Kept> Machine<S> {
    /// INITIALZ: the cells and demands become what they were at the start of the run, and the mark is cleared.
    pub fn initialize(&mut self) -> Act
        ensures acts { DecidesOnAny S.shows program.Initialz self.old self.new result }
        ensures sound { StaysSound S.ready S.solved self.old self.new }
    {
        self.cells = Cells::new();
        self.mark = None;
        Act::Next
    }

    /// MOVE of a name. Another objective or right-hand side clears the mark.
    pub fn move_name(&mut self, cell: NameCell, name: Name) -> Act
        ensures acts { DecidesOnAny S.shows (program.MoveName cell name) self.old self.new result }
        ensures sound { StaysSound S.ready S.solved self.old self.new }
    {
        self.cells.move_name(cell, name);
        self.mark = mark_after(cell, self.mark);
        Act::Next
    }

    /// MOVE of a number.
    pub fn move_number(&mut self, cell: NumberCell, value: Frac) -> Act
        ensures acts { DecidesOnAny S.shows (program.MoveNumber cell value) self.old self.new result }
        ensures sound { StaysSound S.ready S.solved self.old self.new }
    {
        self.cells.move_number(cell, value);
        Act::Next
    }

    /// MOVE of the number of steps that a verb may take, or of no limit on them.
    pub fn move_limit(&mut self, limit: Option<u32>) -> Act
        requires { IfSome limit (λ steps. steps ≤ MAX_STEPS) }
        ensures acts { DecidesOnAny S.shows (program.MoveLimit limit) self.old self.new result }
        ensures sound { StaysSound S.ready S.solved self.old self.new }
    {
        self.cells.move_limit(limit);
        Act::Next
    }

    /// MVADR: sets a demand to a position.
    pub fn set_demand(&mut self, demand: Demand, position: u32) -> Act
        requires { 1 ≤ position }
        ensures acts { DecidesOnAny S.shows (program.Mvadr demand position) self.old self.new result }
        ensures sound { StaysSound S.ready S.solved self.old self.new }
    {
        self.cells.set_demand(demand, position);
        Act::Next
    }

    /// GOTO: the statement at a position follows.
    pub fn jump(&self, position: u32) -> Act
        requires { 1 ≤ position }
        ensures { DecidesOnAny S.shows (program.Goto position) self.now self.now result }
    {
        Act::Jump(position)
    }

    /// EXIT: the run ends.
    pub fn exit(&self) -> Act
        ensures { DecidesOnAny S.shows program.Exit self.now self.now result }
    {
        Act::Ends(End::Done)
    }
}
