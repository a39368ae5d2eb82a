// The faults of data cards under actions.
ghost use Rattle.std.specs.Prelude.{◌≡◌, [], ◌∷◌, None, Some, ◌&&◌, not, nat_le, length, take, sum_by};
ghost use Rattle.card_definitions.specs.Words.{is_empty, ◌⟹◌, first_fault};
ghost use Rattle.problem_definitions.specs.Problem.{has_row, has_group};
ghost use Rattle.problem_definitions.specs.Groups.{items_of};
ghost use Rattle.deck_definitions.specs.DataCards.{pairs_of};
ghost use Rattle.deck_definitions.specs.declared.Section.TheVariants.{Columns};
ghost use Rattle.deck_definitions.specs.Tests.{kind_filled, marks, filled_from_3, filled_from_4, row_fields_fault, rows_fault, pairs_fault, of_bound_type};
ghost use Rattle.deck_fields.specs.Views.{viewed};
ghost use Rattle.named_problem.specs.Views.{rows_alone};
ghost use Rattle.revise_definitions.specs.Tests.{has_range, has_type_for, frees, modified_fields_fault, puts_fault, modify_rows_fault, delete_rows_fault};
ghost use Rattle.revise_definitions.specs.Tests.{modify_columns_fault, modify_sets_fault, delete_entry_fault, delete_columns_fault, delete_sets_fault};
ghost use Rattle.revise_definitions.specs.Tests.{modify_bound_fault, delete_bounds_fault};
ghost use Rattle.revise_edits.specs.EditTests.{insert_columns_test};

use crate::pairs::{first_of, pairs_fault_of, parts_fault_of, put_parts_fault_of, puts_fault_of};
use deck_fields::{DataCard, bound_kind, combination_kind, is_blank, row_kind};
use name_table::Name;
use named_problem::{
    DeckFaultKind, Groups, NamedProblem, Rows, Section, bound_value, has_more, is_free, is_marker,
    kind_on,
};
use problem_definitions::{BoundKind, MAX_COLUMNS, MAX_ROWS};

// Whether a range set has an item on this row.
fn has_range_on(seen: &NamedProblem, row: &Name) -> bool
    ensures { result ≡ has_range seen.now row.now }
{
    seen.ranges.any_on(row)
}

// The fault of a card on which the fields from field 4 on are to be blank.
fn rest_fault(card: &DataCard<'_>) -> Option<DeckFaultKind>
    ensures { result ≡ filled_from_4 (viewed card.now) }
{
    if is_blank(card.value1) && is_blank(card.name3.bytes()) && is_blank(card.value2) {
        return None;
    }
    Some(DeckFaultKind::ExtraField)
}

// Whether the type on a card is one for a combination, or one for a plain row.
fn has_type_for(combines: bool, card: &DataCard<'_>) -> bool
    ensures { result ≡ has_type_for combines (viewed card.now) }
{
    if combines {
        combination_kind(card.kind).is_some()
    } else {
        row_kind(card.kind).is_some()
    }
}

// Whether the type on a card is that of a free row.
fn frees(card: &DataCard<'_>) -> bool
    ensures { result ≡ frees (viewed card.now) }
{
    match kind_on(card) {
        Some(kind) => is_free(kind),
        None => false,
    }
}

// The fault of a card on which the fields from field 3 on are to be blank.
fn fields_fault(card: &DataCard<'_>) -> Option<DeckFaultKind>
    ensures { result ≡ filled_from_3 (viewed card.now) }
{
    if has_more(card) {
        return Some(DeckFaultKind::ExtraField);
    }
    None
}

// Whether a card would free a row that has a range.
fn frees_ranged(seen: &NamedProblem, card: &DataCard<'_>) -> bool
    ensures { result ≡ (frees (viewed card.now) && has_range seen.now card.now.name1) }
{
    frees(card) && has_range_on(seen, &card.name1)
}

// The fault of the fields after the name of a card that modifies one of these rows.
fn changed_fields_fault(rows: &Rows, card: &DataCard<'_>) -> Option<DeckFaultKind>
    ensures { result ≡ modified_fields_fault (rows_alone rows.now) (viewed card.now) }
{
    if rows.has_combination(&card.name1) {
        return put_parts_fault_of(rows, rows.place_of(&card.name1), card);
    }
    fields_fault(card)
}

/// The fault of a card of ROWS under MODIFY.
pub fn modified_row_fault(seen: &NamedProblem, card: &DataCard<'_>) -> Option<DeckFaultKind>
    ensures { result ≡ modify_rows_fault seen.now (viewed card.now) }
{
    if is_blank(card.name1.bytes()) {
        return Some(DeckFaultKind::EmptyName);
    }
    if !seen.rows.has(&card.name1) {
        return Some(DeckFaultKind::ModifyMissing);
    }
    if !has_type_for(seen.rows.has_combination(&card.name1), card) {
        return Some(DeckFaultKind::BadRowType);
    }
    if frees_ranged(seen, card) {
        return Some(DeckFaultKind::RangeOnFree);
    }
    changed_fields_fault(&seen.rows, card)
}

/// The fault of a card of ROWS under DELETE.
pub fn deleted_row_fault(seen: &NamedProblem, card: &DataCard<'_>) -> Option<DeckFaultKind>
    ensures { result ≡ delete_rows_fault seen.now (viewed card.now) }
{
    if is_blank(card.name1.bytes()) {
        return Some(DeckFaultKind::EmptyName);
    }
    if !seen.rows.has(&card.name1) {
        return Some(DeckFaultKind::DeleteMissing);
    }
    fields_fault(card)
}

// The fault of a name that begins a row, or goes on with one.
fn new_row_fault(rows: &Rows, goes_on: bool, name: &Name) -> Option<DeckFaultKind>
    ensures { result ≡ first_fault
        ((not goes_on && has_row rows.now name.now ⟹ DeckFaultKind.DuplicateRow) ∷
        (not goes_on && nat_le MAX_ROWS (length rows.now) ⟹ DeckFaultKind.TooManyRows) ∷ []) }
{
    if goes_on {
        return None;
    }
    if rows.has(name) {
        return Some(DeckFaultKind::DuplicateRow);
    }
    if MAX_ROWS <= rows.len() {
        return Some(DeckFaultKind::TooManyRows);
    }
    None
}

// The fault of the fields after the name of a card of ROWS, where the first rows, up to a limit, are the earlier ones.
fn row_fields_fault_of(rows: &Rows, limit: usize, card: &DataCard<'_>) -> Option<DeckFaultKind>
    ensures { result ≡ row_fields_fault (rows_alone rows.now) (take limit rows.now)
        (viewed card.now) }
{
    if combination_kind(card.kind).is_some() {
        return parts_fault_of(rows, limit, rows.parts(&card.name1), card);
    }
    fields_fault(card)
}

// The fault of a card of ROWS that has a type and a name.
fn row_rest_fault(
    rows: &Rows,
    goes_on: bool,
    limit: usize,
    card: &DataCard<'_>,
) -> Option<DeckFaultKind>
    ensures { result ≡ first_fault
        ((not goes_on && has_row rows.now card.now.name1 ⟹ DeckFaultKind.DuplicateRow) ∷
        (not goes_on && nat_le MAX_ROWS (length rows.now) ⟹ DeckFaultKind.TooManyRows) ∷
        row_fields_fault (rows_alone rows.now) (take limit rows.now) (viewed card.now) ∷ []) }
{
    first_of(
        new_row_fault(rows, goes_on, &card.name1),
        row_fields_fault_of(rows, limit, card),
    )
}

/// The fault of a card of ROWS under BEFORE or AFTER that goes on with the combination of the card before it, or begins a row, where
/// the first rows, up to a limit, are the earlier ones.
pub fn inserted_row_fault(
    rows: &Rows,
    goes_on: bool,
    limit: usize,
    card: &DataCard<'_>,
) -> Option<DeckFaultKind>
    ensures { result ≡ rows_fault (rows_alone rows.now) goes_on (take limit rows.now)
        (viewed card.now) }
{
    if kind_on(card).is_none() {
        return Some(DeckFaultKind::BadRowType);
    }
    if is_blank(card.name1.bytes()) {
        return Some(DeckFaultKind::EmptyName);
    }
    row_rest_fault(rows, goes_on, limit, card)
}

// The fault of a card of COLUMNS before those of its column: field 1, a marker, or no name.
fn column_head_fault(card: &DataCard<'_>) -> Option<DeckFaultKind>
    ensures { result ≡ first_fault (kind_filled (viewed card.now) ∷ marks (viewed card.now) ∷
        (is_empty card.now.name1 ⟹ DeckFaultKind.EmptyName) ∷ []) }
{
    if !is_blank(card.kind) {
        return Some(DeckFaultKind::ExtraField);
    }
    if is_marker(card) {
        return Some(DeckFaultKind::Marker);
    }
    if is_blank(card.name1.bytes()) {
        return Some(DeckFaultKind::EmptyName);
    }
    None
}

// The fault of a card's column that is to be modified, and then of its pairs.
fn put_column_fault(
    seen: &NamedProblem,
    columns: &Groups,
    card: &DataCard<'_>,
) -> Option<DeckFaultKind>
    ensures { result ≡ first_fault
        ((not (has_group columns.now card.now.name1) ⟹ DeckFaultKind.ModifyMissing) ∷ puts_fault
        seen.now Columns (items_of card.now.name1 columns.now)
        (sum_by (λ column. length column.items) columns.now) (pairs_of (viewed card.now)) ∷ []) }
{
    if !columns.has(&card.name1) {
        return Some(DeckFaultKind::ModifyMissing);
    }
    let count = columns.item_count();
    puts_fault_of(
        seen,
        Section::Columns,
        columns.items(&card.name1),
        count,
        card,
    )
}

/// The fault of a card of COLUMNS under MODIFY.
pub fn modified_column_fault(seen: &NamedProblem, card: &DataCard<'_>) -> Option<DeckFaultKind>
    ensures { result ≡ modify_columns_fault seen.now (viewed card.now) }
{
    let head = column_head_fault(card);
    let rest = put_column_fault(seen, &seen.columns, card);
    first_of(head, rest)
}

/// The fault of a card of RHS or RANGES under MODIFY.
pub fn modified_set_fault(
    seen: &NamedProblem,
    section: Section,
    card: &DataCard<'_>,
) -> Option<DeckFaultKind>
    ensures { result ≡ modify_sets_fault seen.now section (viewed card.now) }
{
    if !is_blank(card.kind) {
        return Some(DeckFaultKind::ExtraField);
    }
    puts_fault_of(seen, section, None, 0, card)
}

// The fault of what a card deletes of these columns or sets.
fn deleted_entry_fault(
    seen: &NamedProblem,
    groups: &Groups,
    card: &DataCard<'_>,
) -> Option<DeckFaultKind>
    ensures { result ≡ delete_entry_fault seen.now groups.now (viewed card.now) }
{
    if !groups.has(&card.name1) {
        return Some(DeckFaultKind::DeleteMissing);
    }
    if is_blank(card.name2.bytes()) {
        return rest_fault(card);
    }
    if !seen.rows.has(&card.name2) {
        return Some(DeckFaultKind::UnknownRow);
    }
    if !groups.has_item(&card.name1, &card.name2) {
        return Some(DeckFaultKind::DeleteMissing);
    }
    rest_fault(card)
}

/// The fault of a card of COLUMNS under DELETE.
pub fn deleted_column_fault(seen: &NamedProblem, card: &DataCard<'_>) -> Option<DeckFaultKind>
    ensures { result ≡ delete_columns_fault seen.now (viewed card.now) }
{
    if !is_blank(card.kind) {
        return Some(DeckFaultKind::ExtraField);
    }
    if is_blank(card.name1.bytes()) {
        return Some(DeckFaultKind::EmptyName);
    }
    deleted_entry_fault(seen, &seen.columns, card)
}

/// The fault of a card of RHS or RANGES, with these sets, under DELETE.
pub fn deleted_set_fault(
    seen: &NamedProblem,
    sets: &Groups,
    card: &DataCard<'_>,
) -> Option<DeckFaultKind>
    ensures { result ≡ delete_sets_fault seen.now sets.now (viewed card.now) }
{
    if !is_blank(card.kind) {
        return Some(DeckFaultKind::ExtraField);
    }
    deleted_entry_fault(seen, sets, card)
}

// The fault of a new column, or of one that goes on with that of the card before.
fn new_column_fault(columns: &Groups, goes_on: bool, name: &Name) -> Option<DeckFaultKind>
    ensures { result ≡ first_fault
        ((has_group columns.now name.now && not goes_on ⟹ DeckFaultKind.ColumnSplit) ∷
        (not (has_group columns.now name.now) && nat_le MAX_COLUMNS (length columns.now) ⟹
        DeckFaultKind.TooManyColumns) ∷ []) }
{
    let is_there = columns.has(name);
    if is_there && !goes_on {
        return Some(DeckFaultKind::ColumnSplit);
    }
    if !is_there && MAX_COLUMNS <= columns.len() {
        return Some(DeckFaultKind::TooManyColumns);
    }
    None
}

// The fault of a card's column that is inserted or goes on, and then of its pairs.
fn insert_column_fault(
    seen: &NamedProblem,
    columns: &Groups,
    goes_on: bool,
    card: &DataCard<'_>,
) -> Option<DeckFaultKind>
    ensures { result ≡ first_fault
        ((has_group columns.now card.now.name1 && not goes_on ⟹ DeckFaultKind.ColumnSplit) ∷
        (not (has_group columns.now card.now.name1) && nat_le MAX_COLUMNS (length columns.now) ⟹
        DeckFaultKind.TooManyColumns) ∷ pairs_fault seen.now Columns
        (items_of card.now.name1 columns.now) (sum_by (λ column. length column.items) columns.now)
        (pairs_of (viewed card.now)) ∷ []) }
{
    let count = columns.item_count();
    first_of(
        new_column_fault(columns, goes_on, &card.name1),
        pairs_fault_of(seen, columns.items(&card.name1), count, card),
    )
}

/// The fault of a card of COLUMNS under BEFORE or AFTER that goes on with the column of the card before, or doesn't.
pub fn inserted_column_fault(
    seen: &NamedProblem,
    goes_on: bool,
    card: &DataCard<'_>,
) -> Option<DeckFaultKind>
    ensures { result ≡ insert_columns_test seen.now goes_on (viewed card.now) }
{
    let head = column_head_fault(card);
    let rest = insert_column_fault(seen, &seen.columns, goes_on, card);
    first_of(head, rest)
}

// The fault of a card of BOUNDS of this type under MODIFY.
fn modified_bound_fault(
    seen: &NamedProblem,
    kind: BoundKind,
    card: &DataCard<'_>,
) -> Option<DeckFaultKind>
    ensures { result ≡ modify_bound_fault seen.now (viewed card.now) kind }
{
    if is_blank(card.name2.bytes()) {
        return Some(DeckFaultKind::EmptyName);
    }
    if !seen.columns.has(&card.name2) {
        return Some(DeckFaultKind::UnknownColumn);
    }
    match bound_value(kind, card) {
        Ok(_) => None,
        Err(fault) => Some(fault),
    }
}

/// The fault of a card of BOUNDS under MODIFY.
pub fn modified_bounds_fault(seen: &NamedProblem, card: &DataCard<'_>) -> Option<DeckFaultKind>
    ensures { result ≡ of_bound_type (viewed card.now) (modify_bound_fault seen.now
        (viewed card.now)) }
{
    match bound_kind(card.kind) {
        Some(kind) => modified_bound_fault(seen, kind, card),
        None => Some(DeckFaultKind::BadBoundType),
    }
}

/// The fault of a card of BOUNDS under DELETE.
pub fn deleted_bounds_fault(seen: &NamedProblem, card: &DataCard<'_>) -> Option<DeckFaultKind>
    ensures { result ≡ delete_bounds_fault seen.now (viewed card.now) }
{
    if !seen.bounds.has(&card.name1) {
        return Some(DeckFaultKind::DeleteMissing);
    }
    if is_blank(card.name2.bytes()) {
        return rest_fault(card);
    }
    if !seen.columns.has(&card.name2) {
        return Some(DeckFaultKind::UnknownColumn);
    }
    if !seen.bounds.has_bound(&card.name1, &card.name2) {
        return Some(DeckFaultKind::DeleteMissing);
    }
    rest_fault(card)
}
