// A problem with names in place of numbers.
ghost use Rattle.std.specs.Prelude.{◌≡◌, ◌++◌, ◌∷◌, [], false, IfOk, IfSome, OnOk, map, option_map};
ghost use Rattle.problem_definitions.specs.Names.{name_at};
ghost use Rattle.problem_definitions.specs.Numbering.{entry_by, row_by, bound_by, group_by, by_names};
ghost use Rattle.problem_definitions.specs.Problem.{group_names, has_entry};
ghost use Rattle.revise_deck.specs.Different.{AreDifferentEntries, AreDifferentBounds, AreDifferentRows, AreDifferentGroups};

use deck_fields::name_in;
use name_table::Name;
use named_problem::{BoundSets, Bounds, Entries, Groups, NamedBound, NamedProblem, OnRow, Rows};
use problem_file::{BoundItem, BoundSet, ColumnDecl, DeckEntry, Group, Problem, RowDecl};
use std::alloc::{AllocError, Global};

// The name of the row of this number, from 1, or the empty name.
fn row_name(rows: &[RowDecl], number: u32) -> Name
    ensures { result ≡ name_at (map (λ row. row.name) rows.now) number }
{
    match rows.get((number as usize).saturating_sub(1)) {
        Some(row) => row.name,
        None => name_in(b""),
    }
}

// The name of the column of this number, from 1, or the empty name.
fn column_name(columns: &[ColumnDecl], number: u32) -> Name
    ensures { result ≡ name_at (group_names columns.now) number }
{
    match columns.get((number as usize).saturating_sub(1)) {
        Some(column) => column.name,
        None => name_in(b""),
    }
}

// Adds an entry on the name of its row, which has none.
fn add_named(list: &mut Entries, rows: &[RowDecl], entry: DeckEntry) -> Result<(), AllocError>
    requires { has_entry list.old (name_at (map (λ row. row.name) rows.now) entry.row) ≡ false }
    ensures { OnOk result (list.new ≡ list.old ++ entry_by
        (name_at (map (λ row. row.name) rows.now)) entry ∷ []) }
{
    let row = row_name(rows, entry.row);
    let number = OnRow {
        place: (entry.row as usize).saturating_sub(1),
        value: entry.value,
    };
    list.add(row, number)
}

fn named_bound(columns: &[ColumnDecl], bound: BoundItem) -> NamedBound
    ensures { result ≡ bound_by (name_at (group_names columns.now)) bound }
{
    NamedBound {
        kind: bound.kind,
        column: column_name(columns, bound.column),
        value: bound.value,
    }
}

// Entries on the names of their rows.
fn named_entries(
    alloc: Global,
    rows: &[RowDecl],
    entries: &[DeckEntry],
) -> Result<Entries, AllocError>
    requires { AreDifferentEntries (map (entry_by (name_at (map (λ row. row.name) rows.now)))
        entries.now) }
    ensures { IfOk result (λ list. list ≡ map (entry_by (name_at (map (λ row. row.name) rows.now)))
        entries.now) }
{
    let mut list = Entries::new(alloc);
    for entry in entries {
        add_named(&mut list, rows, *entry)?;
    }
    Ok(list)
}

// Bounds on the names of their columns.
fn named_bounds(
    alloc: Global,
    columns: &[ColumnDecl],
    bounds: &[BoundItem],
) -> Result<Bounds, AllocError>
    requires { AreDifferentBounds (map (bound_by (name_at (group_names columns.now))) bounds.now) }
    ensures { IfOk result (λ list. list ≡ map (bound_by (name_at (group_names columns.now)))
        bounds.now) }
{
    let mut list = Bounds::new(alloc);
    for bound in bounds {
        list.add(named_bound(columns, *bound))?;
    }
    Ok(list)
}

// Columns or sets with the names of their rows.
fn named_groups(
    alloc: Global,
    rows: &[RowDecl],
    groups: &[Group<DeckEntry>],
) -> Result<Groups, AllocError>
    requires { AreDifferentGroups AreDifferentEntries (map (group_by
        (entry_by (name_at (map (λ row. row.name) rows.now)))) groups.now) }
    ensures { IfOk result (λ list. list ≡ map (group_by
        (entry_by (name_at (map (λ row. row.name) rows.now)))) groups.now) }
{
    let mut list = Groups::new(alloc);
    for group in groups {
        list.add(group.name, named_entries(alloc, rows, &group.items)?)?;
    }
    Ok(list)
}

// Sets of bounds with the names of their columns.
fn named_bound_sets(
    alloc: Global,
    columns: &[ColumnDecl],
    sets: &[BoundSet],
) -> Result<BoundSets, AllocError>
    requires { AreDifferentGroups AreDifferentBounds (map (group_by
        (bound_by (name_at (group_names columns.now)))) sets.now) }
    ensures { IfOk result (λ list. list ≡ map (group_by
        (bound_by (name_at (group_names columns.now)))) sets.now) }
{
    let mut list = BoundSets::new(alloc);
    for set in sets {
        list.add(set.name, named_bounds(alloc, columns, &set.items)?)?;
    }
    Ok(list)
}

// The parts of a row on the names of their rows.
fn named_parts(
    alloc: Global,
    rows: &[RowDecl],
    parts: &Option<Vec<DeckEntry>>,
) -> Result<Option<Entries>, AllocError>
    requires { IfSome (option_map (map (entry_by (name_at (map (λ row. row.name) rows.now))))
        (option_map (λ p. p.items) parts.now)) AreDifferentEntries }
    ensures { IfOk result (λ list. list ≡ option_map
        (map (entry_by (name_at (map (λ row. row.name) rows.now))))
        (option_map (λ p. p.items) parts.now)) }
{
    match parts {
        Some(parts) => Ok(Some(named_entries(alloc, rows, parts)?)),
        None => Ok(None),
    }
}

// Rows with names for the rows that they refer to.
fn named_rows(alloc: Global, rows: &[RowDecl]) -> Result<Rows, AllocError>
    requires { AreDifferentRows (map (row_by (name_at (map (λ row. row.name) rows.now))) rows.now) }
    ensures { IfOk result (λ list. list ≡ map (row_by (name_at (map (λ row. row.name) rows.now)))
        rows.now) }
{
    let mut list = Rows::new(alloc);
    for row in rows {
        list.add(row.kind, row.name, named_parts(alloc, rows, &row.parts)?)?;
    }
    Ok(list)
}

/// The problem with names in place of numbers.
pub fn named(alloc: Global, problem: &Problem) -> Result<NamedProblem, AllocError>
    ensures { IfOk result (λ named. named ≡ by_names problem.now) }
{
    let rows = problem.rows();
    let columns = problem.columns();
    Ok(NamedProblem {
        name: problem.name(),
        rows: named_rows(alloc, rows)?,
        columns: named_groups(alloc, rows, columns)?,
        rhs: named_groups(alloc, rows, problem.rhs())?,
        ranges: named_groups(alloc, rows, problem.ranges())?,
        bounds: named_bound_sets(alloc, columns, problem.bounds())?,
    })
}
