// What a statement does with XPARAM.
ghost use Rattle.std.specs.Prelude.{◌≡◌};
ghost use Rattle.control_verbs.specs.Views.{viewed};
ghost use Rattle.listing_walk.specs.Parameter.{cell_use, use_of, as_next};

use crate::walk_step::WalkStep;
use control_compiler::Verb;
use parametric_request::ParametricVerb;
use run_cells::NumberCell;

/// What a statement does with the value in XPARAM.
#[derive(Clone, Copy, Debug)]
pub enum ParameterUse {
    /// A run of this verb begins there.
    Reads(ParametricVerb),
    /// It puts another one there.
    Sets,
    /// It leaves it alone.
    Neither,
}

// What MOVE to a cell of numbers does.
fn cell_use(cell: NumberCell) -> ParameterUse
    ensures { result ≡ cell_use cell }
{
    match cell {
        NumberCell::Xparam => ParameterUse::Sets,
        NumberCell::Xparmax => ParameterUse::Neither,
    }
}

/// What the statement of a verb does.
pub fn use_of(verb: &Verb<u32>) -> ParameterUse
    ensures { result ≡ use_of (viewed verb.now) }
{
    match verb {
        Verb::Initialz => ParameterUse::Sets,
        Verb::MoveNumber(cell, _) => cell_use(*cell),
        Verb::Paraobj => ParameterUse::Reads(ParametricVerb::Paraobj),
        Verb::Pararhs => ParameterUse::Reads(ParametricVerb::Pararhs),
        _ => ParameterUse::Neither,
    }
}

/// Where a statement leads that leaves XPARAM alone.
pub fn as_next(next_step: WalkStep<'_>) -> WalkStep<'_>
    ensures { result ≡ as_next next_step.entry }
{
    match next_step {
        WalkStep::Leaves(_) | WalkStep::Next => WalkStep::Next,
        WalkStep::Jump(to) => WalkStep::Jump(to),
        WalkStep::Finds(found) => WalkStep::Finds(found),
    }
}
