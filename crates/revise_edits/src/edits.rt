// The edits of data cards under actions.
ghost use Rattle.std.specs.Prelude.{◌≡◌, [], OnOk, IfOk, insert, None, false, unwrap_or, option_map};
ghost use Rattle.problem_definitions.specs.Problem.{has_row, has_group};
ghost use Rattle.problem_definitions.specs.Groups.{in_all, filled};
ghost use Rattle.deck_definitions.specs.DataCards.{entries_of, pairs_of, parts_on, part_pairs_of, row_of};
ghost use Rattle.deck_fields.specs.Views.{viewed};
ghost use Rattle.revise_definitions.specs.Edits.{without_row, without_column, delete_row, delete_column, edit_sets, edit_bounds};
ghost use Rattle.named_problem.specs.Additions.{AreNew};
ghost use Rattle.revise_edits.specs.Needs.{IsNewRow, IsNewColumn, HasBound, CanEditRows, CanEditColumns, CanEditSets, CanEditBounds};
ghost use Rattle.revise_edits.specs.Summary.{row_inserted, column_inserted, rows_edited, columns_edited, edited_by};

use crate::places::{next_column_place, next_row_place};
use crate::under::CardUnder;
use deck_fields::{DataCard, bound_kind, combination_kind, is_blank, row_kind};
use name_table::Name;
use named_problem::{BoundChange, BoundSets, Entries, EntryChange, Groups, NamedProblem, Rows};
use revise_definitions::Action;
use std::alloc::{AllocError, Global};

// Takes the items on a row out of all sets, and the sets that have none left.
fn remove_row_from_sets(row: &Name, sets: &mut Groups)
    ensures { sets.new ≡ filled (in_all (without_row row.now) sets.old) }
{
    sets.remove_row(row);
    sets.remove_empty();
}

// Takes the bounds on a column out of all sets, and the sets that have none left.
fn remove_column_from_sets(column: &Name, sets: &mut BoundSets)
    ensures { sets.new ≡ filled (in_all (without_column column.now) sets.old) }
{
    sets.remove_column(column);
    sets.remove_empty();
}

// Takes out a row, with its entries and its items.
fn remove_row(name: Name, problem: &mut NamedProblem)
    ensures { problem.new ≡ delete_row name problem.old }
{
    problem.rows.remove(&name);
    problem.columns.remove_row(&name);
    remove_row_from_sets(&name, &mut problem.rhs);
    remove_row_from_sets(&name, &mut problem.ranges);
}

// Takes out a column, with its bounds.
fn remove_column(name: Name, problem: &mut NamedProblem)
    ensures { problem.new ≡ delete_column name problem.old }
{
    problem.columns.remove(&name);
    remove_column_from_sets(&name, &mut problem.bounds);
}

// The parts on a card that begins a combination.
fn parts_of(alloc: Global, card: &DataCard<'_>) -> Result<Entries, AllocError>
    requires { AreNew [] (part_pairs_of (viewed card.now)) }
    ensures { IfOk result (λ parts. parts ≡ parts_on (viewed card.now)) }
{
    let mut parts = Entries::new(alloc);
    parts.append_parts(card)?;
    Ok(parts)
}

// Puts the row of a card at this place, if the card has a type.
fn insert_row_at(
    alloc: Global,
    rows: &mut Rows,
    place: usize,
    card: &DataCard<'_>,
) -> Result<(), AllocError>
    requires is_new { has_row rows.old card.now.name1 ≡ false }
    requires parts { AreNew [] (part_pairs_of (viewed card.now)) }
    ensures { OnOk result (rows.new ≡ unwrap_or (option_map (insert rows.old place)
        (row_of (viewed card.now))) rows.old) }
{
    if let Some(kind) = row_kind(card.kind) {
        return rows.insert(place, kind, card.name1, None);
    }
    match combination_kind(card.kind) {
        Some(kind) => {
            let parts = parts_of(alloc, card)?;
            rows.insert(place, kind, card.name1, Some(parts))
        }
        None => Ok(()),
    }
}

// Puts the row of a card next to the anchor, or goes on with the combination of the card before.
fn insert_row_of(alloc: Global, at: &CardUnder<'_>, rows: &mut Rows) -> Result<(), AllocError>
    requires { IsNewRow at.now.under.now (viewed at.now.card.now) rows.old }
    ensures { OnOk result (rows.new ≡ row_inserted at.now.action at.now.under.now
        (viewed at.now.card.now) rows.old) }
{
    if at.under.goes_on_row(at.card) {
        return rows.append_parts(at.card);
    }
    let place = next_row_place(at.action, at.under, rows);
    insert_row_at(alloc, rows, place, at.card)
}

// Puts a new column with the entries of a card at a place.
fn insert_new_column(
    alloc: Global,
    place: usize,
    card: &DataCard<'_>,
    columns: &mut Groups,
) -> Result<(), AllocError>
    requires is_new { has_group columns.old card.now.name1 ≡ false }
    requires entries { AreNew [] (pairs_of (viewed card.now)) }
    ensures { OnOk result (columns.new ≡ insert columns.old place
        (record { name = card.now.name1; items = entries_of (viewed card.now) })) }
{
    let mut items = Entries::new(alloc);
    items.append_all(card)?;
    columns.insert(place, card.name1, items)
}

// Puts the column of a card next to the anchor, or goes on with that of the card before.
fn insert_column_of(
    alloc: Global,
    at: &CardUnder<'_>,
    columns: &mut Groups,
) -> Result<(), AllocError>
    requires { IsNewColumn at.now.under.now (viewed at.now.card.now) columns.old }
    ensures { OnOk result (columns.new ≡ column_inserted at.now.action at.now.under.now
        (viewed at.now.card.now) columns.old) }
{
    if at.under.goes_on(at.card) {
        return columns.change(alloc, EntryChange::Append, at.card);
    }
    let place = next_column_place(at.action, at.under, columns);
    insert_new_column(alloc, place, at.card, columns)
}

/// The edit of a card of ROWS.
pub fn edit_rows_of(
    alloc: Global,
    at: &CardUnder<'_>,
    problem: &mut NamedProblem,
) -> Result<(), AllocError>
    requires { CanEditRows at.now.action at.now.under.now (viewed at.now.card.now)
        problem.old.rows }
    ensures { OnOk result (problem.new ≡ rows_edited at.now.action at.now.under.now
        (viewed at.now.card.now) problem.old) }
{
    match at.action {
        Action::Modify => problem.rows.modify(at.card),
        Action::Delete => {
            remove_row(at.card.name1, problem);
            Ok(())
        }
        Action::Before | Action::After => insert_row_of(alloc, at, &mut problem.rows),
    }
}

// Takes out a column, or its entry on the row in field 3.
fn delete_column_of(
    alloc: Global,
    card: &DataCard<'_>,
    problem: &mut NamedProblem,
) -> Result<(), AllocError>
    ensures { OnOk result (problem.new ≡ columns_edited Action.Delete
        (record { anchor = []; there = 0; names = []; last = None; combination = None })
        (viewed card.now) problem.old) }
{
    if is_blank(card.name2.bytes()) {
        remove_column(card.name1, problem);
        return Ok(());
    }
    problem.columns.change(alloc, EntryChange::Without, card)
}

/// The edit of a card of COLUMNS.
pub fn edit_columns_of(
    alloc: Global,
    at: &CardUnder<'_>,
    problem: &mut NamedProblem,
) -> Result<(), AllocError>
    requires { CanEditColumns at.now.action at.now.under.now (viewed at.now.card.now)
        problem.old.columns }
    ensures { OnOk result (problem.new ≡ columns_edited at.now.action at.now.under.now
        (viewed at.now.card.now) problem.old) }
{
    match at.action {
        Action::Modify => problem.columns.change(alloc, EntryChange::Put, at.card),
        Action::Delete => delete_column_of(alloc, at.card, problem),
        Action::Before | Action::After => insert_column_of(alloc, at, &mut problem.columns),
    }
}

/// The edit of a card of RHS or RANGES.
pub fn edit_sets_of(
    alloc: Global,
    action: Action,
    card: &DataCard<'_>,
    sets: &mut Groups,
) -> Result<(), AllocError>
    requires { CanEditSets action (viewed card.now) }
    ensures { OnOk result (sets.new ≡ edit_sets action (viewed card.now) sets.old) }
{
    match action {
        Action::Delete => sets.delete(alloc, card),
        _ => sets.change_or_add(alloc, EntryChange::Put, card),
    }
}

// Puts the bound of a card into its set, if its type is known.
fn put_bound_of(alloc: Global, card: &DataCard<'_>, sets: &mut BoundSets) -> Result<(), AllocError>
    requires { HasBound (viewed card.now) }
    ensures { OnOk result (sets.new ≡ edit_bounds Action.Modify (viewed card.now) sets.old) }
{
    match bound_kind(card.kind) {
        Some(kind) => sets.change_or_add(alloc, BoundChange::Put(kind), card),
        None => Ok(()),
    }
}

/// The edit of a card of BOUNDS.
pub fn edit_bounds_of(
    alloc: Global,
    action: Action,
    card: &DataCard<'_>,
    sets: &mut BoundSets,
) -> Result<(), AllocError>
    requires { CanEditBounds action (viewed card.now) }
    ensures { OnOk result (sets.new ≡ edit_bounds action (viewed card.now) sets.old) }
{
    match action {
        Action::Delete => sets.delete(alloc, card),
        _ => put_bound_of(alloc, card, sets),
    }
}
