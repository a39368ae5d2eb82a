// The fault of a data card under an action of its section.
ghost use Rattle.std.specs.Prelude.{◌≡◌, [], take};
ghost use Rattle.deck_definitions.specs.declared.Section.TheVariants.{Columns, Bounds};
ghost use Rattle.deck_definitions.specs.Tests.{rows_fault};
ghost use Rattle.deck_fields.specs.Views.{viewed};
ghost use Rattle.named_problem.specs.Views.{rows_alone};
ghost use Rattle.revise_definitions.specs.Tests.{edit_fault};
ghost use Rattle.revise_edits.specs.Summary.{goes_on_row_from};
ghost use Rattle.revise_edits.specs.EditTests.{earlier_among, edit_test, sets_test};

use crate::faults::{
    deleted_bounds_fault, deleted_column_fault, deleted_row_fault, deleted_set_fault,
    inserted_column_fault, inserted_row_fault, modified_bounds_fault, modified_column_fault,
    modified_row_fault, modified_set_fault,
};
use crate::places::next_row_place;
use crate::under::{CardUnder, UnderAction};
use deck_fields::DataCard;
use named_problem::{DeckFaultKind, Groups, NamedProblem, Rows, Section};
use revise_definitions::Action;

// How many rows are the earlier ones of a card under BEFORE or AFTER.
fn earlier_count(rows: &Rows, at: &CardUnder<'_>, goes_on: bool) -> usize
    requires { goes_on ≡ goes_on_row_from at.now.under.now (viewed at.now.card.now) }
    ensures { take result rows.now ≡ earlier_among at.now.action at.now.under.now
        (viewed at.now.card.now) rows.now }
{
    if goes_on {
        return rows.place_of(&at.card.name1);
    }
    next_row_place(at.action, at.under, rows)
}

// The fault of a card of ROWS under BEFORE or AFTER.
fn added_row_fault(rows: &Rows, at: &CardUnder<'_>) -> Option<DeckFaultKind>
    ensures { result ≡ rows_fault (rows_alone rows.now)
        (goes_on_row_from at.now.under.now (viewed at.now.card.now))
        (earlier_among at.now.action at.now.under.now (viewed at.now.card.now) rows.now)
        (viewed at.now.card.now) }
{
    let goes_on = at.under.goes_on_row(at.card);
    let limit = earlier_count(rows, at, goes_on);
    inserted_row_fault(rows, goes_on, limit, at.card)
}

// The fault of a card of ROWS.
fn rows_fault_of(seen: &NamedProblem, at: &CardUnder<'_>) -> Option<DeckFaultKind>
    ensures { result ≡ edit_test seen.now Section.Rows at.now.action at.now.under.now
        (viewed at.now.card.now) }
{
    match at.action {
        Action::Modify => modified_row_fault(seen, at.card),
        Action::Delete => deleted_row_fault(seen, at.card),
        Action::Before => added_row_fault(&seen.rows, at),
        Action::After => added_row_fault(&seen.rows, at),
    }
}

// The fault of a card of COLUMNS.
fn columns_fault_of(seen: &NamedProblem, at: &CardUnder<'_>) -> Option<DeckFaultKind>
    ensures { result ≡ edit_test seen.now Columns at.now.action at.now.under.now
        (viewed at.now.card.now) }
{
    match at.action {
        Action::Modify => modified_column_fault(seen, at.card),
        Action::Delete => deleted_column_fault(seen, at.card),
        Action::Before | Action::After => {
            inserted_column_fault(seen, at.under.goes_on(at.card), at.card)
        }
    }
}

// The fault of a card of RHS or RANGES, with these sets.
fn sets_fault_of(
    seen: &NamedProblem,
    section: Section,
    sets: &Groups,
    action: Action,
    card: &DataCard<'_>,
) -> Option<DeckFaultKind>
    ensures { result ≡ sets_test seen.now section sets.now action (viewed card.now) }
{
    match action {
        Action::Delete => deleted_set_fault(seen, sets, card),
        _ => modified_set_fault(seen, section, card),
    }
}

// The fault of a card of BOUNDS.
fn bounds_fault_of(
    seen: &NamedProblem,
    action: Action,
    card: &DataCard<'_>,
) -> Option<DeckFaultKind>
    ensures { result ≡ edit_fault seen.now Bounds action [] [] (viewed card.now) }
{
    match action {
        Action::Delete => deleted_bounds_fault(seen, card),
        _ => modified_bounds_fault(seen, card),
    }
}

/// The fault of a data card under an action of its section, with the data cards before it under that action.
pub fn edit_fault_of(
    seen: &NamedProblem,
    section: Section,
    action: Action,
    under: &UnderAction,
    card: &DataCard<'_>,
) -> Option<DeckFaultKind>
    ensures { result ≡ edit_test seen.now section action under.now (viewed card.now) }
{
    let at = CardUnder {
        action,
        under,
        card,
    };
    match section {
        Section::Rows => rows_fault_of(seen, &at),
        Section::Columns => columns_fault_of(seen, &at),
        Section::Rhs => sets_fault_of(seen, Section::Rhs, &seen.rhs, action, card),
        Section::Ranges => sets_fault_of(seen, Section::Ranges, &seen.ranges, action, card),
        Section::Bounds => bounds_fault_of(seen, action, card),
        Section::Header | Section::Endata => Some(DeckFaultKind::SectionOrder),
    }
}
