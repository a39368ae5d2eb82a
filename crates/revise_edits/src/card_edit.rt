// The edit of a data card in which no fault was found.
ghost use Rattle.std.specs.Prelude.{◌≡◌, OnOk, None};
ghost use Rattle.deck_fields.specs.Views.{viewed};
ghost use Rattle.revise_edits.specs.Summary.{edited_by};
ghost use Rattle.revise_edits.specs.EditTests.{edit_test};

use crate::edits::{edit_bounds_of, edit_columns_of, edit_rows_of, edit_sets_of};
use crate::under::{CardUnder, UnderAction};
use deck_fields::DataCard;
use named_problem::{NamedProblem, Section};
use revise_definitions::Action;
use std::alloc::{AllocError, Global};

/// Makes the edit of a data card in which no fault was found.
pub fn edit(
    alloc: Global,
    section: Section,
    action: Action,
    under: &UnderAction,
    card: &DataCard<'_>,
    problem: &mut NamedProblem,
) -> Result<(), AllocError>
    requires { edit_test problem.old section action under.now (viewed card.now) ≡ None }
    ensures { OnOk result (problem.new ≡ edited_by section action under.now (viewed card.now)
        problem.old) }
{
    let at = CardUnder {
        action,
        under,
        card,
    };
    match section {
        Section::Rows => edit_rows_of(alloc, &at, problem),
        Section::Columns => edit_columns_of(alloc, &at, problem),
        Section::Rhs => edit_sets_of(alloc, action, card, &mut problem.rhs),
        Section::Ranges => edit_sets_of(alloc, action, card, &mut problem.ranges),
        Section::Bounds => edit_bounds_of(alloc, action, card, &mut problem.bounds),
        Section::Header | Section::Endata => Ok(()),
    }
}
