// The number of a deck's cards, which goes no further than 4,294,967,295.
ghost use Rattle.std.specs.Prelude.{◌≡◌, ◌+◌, ℕ, min, length, sum_by, if◌then◌else◌};
ghost use Rattle.std.specs.Option.{option_to_list};
ghost use Rattle.card_definitions.specs.Words.{is_empty};
ghost use Rattle.problem_definitions.specs.Numbering.{by_names};
ghost use Rattle.deck_definitions.specs.Written.{written};
ghost use Rattle.bcd_out.specs.Lines.{CountsEach, row_count, first_plain, column_count, section_count, max_counted};

use crate::sections::plain_row;
use problem_file::{BoundSet, ColumnDecl, Problem, RowDecl, ValueSet};

// The cards that begin a deck and its sections of rows and columns, and the one that ends it.
const ALWAYS: u32 = 4;

// So many more.
fn added(count: u32, more: usize) -> u32
    ensures { result ≡ min (count + more) max_counted }
{
    count.saturating_add(u32::try_from(more).unwrap_or(u32::MAX))
}

// So many more for each of these.
fn with_each<T, F: Fn(&T) -> usize>(count: u32, items: &[T], cards: F) -> u32
    requires { F.IsAlwaysCallable cards }
    ensures { (size : T → ℕ) → CountsEach (F.post cards) size →
        result ≡ min (count + sum_by size items.now) max_counted }
{
    let mut total = count;
    for item in items {
        total = added(total, cards(item));
    }
    total
}

// So many more for each of these, and one for the card of their section, if there are any.
fn with_section<T, F: Fn(&T) -> usize>(count: u32, items: &[T], cards: F) -> u32
    requires { F.IsAlwaysCallable cards }
    ensures { (size : T → ℕ) → CountsEach (F.post cards) size →
        result ≡ min (count + (if is_empty items.now then 0 else 1 + sum_by size items.now))
        max_counted }
{
    if items.is_empty() {
        count
    } else {
        with_each(added(count, 1), items, cards)
    }
}

fn row_cards(row: &RowDecl) -> usize
    ensures { result ≡ row_count row.now }
{
    match &row.parts {
        None => 1,
        Some(parts) if parts.is_empty() => 1,
        Some(parts) => parts.len(),
    }
}

fn with_rows(count: u32, rows: &[RowDecl]) -> u32
    ensures { result ≡ min (count + sum_by row_count rows.now) max_counted }
{
    with_each(count, rows, row_cards)
}

// How many cards a column without entries has.
fn zero_cards(rows: &[RowDecl]) -> usize
    ensures { result ≡ length (option_to_list (first_plain rows.now)) }
{
    match plain_row(rows) {
        Some(_) => 1,
        None => 0,
    }
}

fn column_cards(rows: &[RowDecl], column: &ColumnDecl) -> usize
    ensures { result ≡ column_count rows.now column.now }
{
    if column.items.is_empty() {
        zero_cards(rows)
    } else {
        column.items.len()
    }
}

fn with_columns(count: u32, rows: &[RowDecl], columns: &[ColumnDecl]) -> u32
    ensures { result ≡ min (count + sum_by (column_count rows.now) columns.now) max_counted }
{
    with_each(count, columns, |column| column_cards(rows, column))
}

fn with_values(count: u32, sets: &[ValueSet]) -> u32
    ensures { result ≡ min (count + section_count sets.now) max_counted }
{
    with_section(count, sets, |set| set.items.len())
}

fn with_bounds(count: u32, sets: &[BoundSet]) -> u32
    ensures { result ≡ min (count + section_count sets.now) max_counted }
{
    with_section(count, sets, |set| set.items.len())
}

/// How many cards the deck of a problem has: at most 4,294,967,295.
pub fn card_count(problem: &Problem) -> u32
    ensures { result ≡ min (length (written (by_names problem.now))) max_counted }
{
    let rows = problem.rows();
    let count = with_rows(ALWAYS, rows);
    let count = with_columns(count, rows, problem.columns());
    let count = with_values(count, problem.rhs());
    let count = with_values(count, problem.ranges());
    with_bounds(count, problem.bounds())
}
