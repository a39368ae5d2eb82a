// The tests of the pairs of a card.
ghost use Rattle.std.specs.Prelude.{◌≡◌, ◌<◌, ◌+◌, ◌^◌, ◌||◌, [], None, Some, if◌then◌else◌, take, option_map, unwrap_or};
ghost use Rattle.std.specs.Option.{option_or, option_copied, option_to_list};
ghost use Rattle.problem_definitions.specs.Names.{same};
ghost use Rattle.problem_definitions.specs.Problem.{has_entry};
ghost use Rattle.deck_definitions.specs.declared.Section.TheVariants.{Columns};
ghost use Rattle.deck_definitions.specs.DataCards.{pairs_of, part_pairs_of};
ghost use Rattle.deck_definitions.specs.Tests.{value_fault, pair_row_fault, pairs_fault};
ghost use Rattle.deck_fields.specs.Views.{viewed, pair_view};
ghost use Rattle.named_problem.specs.Views.{rows_alone};
ghost use Rattle.revise_definitions.specs.Tests.{puts_fault};
ghost use Rattle.revise_edits.specs.EditTests.{put_test, pair_test, part_test};

use deck_fields::{DataCard, PairText, first_pair, first_part, is_blank, is_section, second_pair};
use name_table::Name;
use named_problem::{DeckFaultKind, Entries, NamedProblem, Rows, Section, number_in, row_of};
use problem_definitions::MAX_ENTRIES;

// The fault of the row in a pair.
fn row_fault(seen: &NamedProblem, section: Section, row: &Name) -> Option<DeckFaultKind>
    ensures { result ≡ pair_row_fault seen.now section row.now }
{
    match row_of(&seen.rows, section, row) {
        Ok(_) => None,
        Err(kind) => Some(kind),
    }
}

// The fault of the number in a pair.
fn number_fault(pair: &PairText<'_>) -> Option<DeckFaultKind>
    ensures { result ≡ value_fault (pair_view pair.now).column (pair_view pair.now).value }
{
    match number_in(pair.column, pair.value) {
        Ok(_) => None,
        Err(kind) => Some(kind),
    }
}

// The fault of a pair that replaces an item or adds one, where so many entries are there.
fn put_fault_at(
    seen: &NamedProblem,
    section: Section,
    is_there: bool,
    count: u128,
    pair: &PairText<'_>,
) -> Option<DeckFaultKind>
    ensures { result ≡ put_test seen.now section is_there count (pair_view pair.now) }
{
    if let Some(kind) = row_fault(seen, section, &pair.row) {
        return Some(kind);
    }
    if let Some(kind) = number_fault(pair) {
        return Some(kind);
    }
    if is_section(Section::Columns, section) && !is_there && MAX_ENTRIES as u128 <= count {
        return Some(DeckFaultKind::TooManyEntries);
    }
    None
}

// The fault of a pair that adds an entry to a column, where so many entries are there.
fn pair_fault_at(
    seen: &NamedProblem,
    is_taken: bool,
    count: u128,
    pair: &PairText<'_>,
) -> Option<DeckFaultKind>
    ensures { result ≡ pair_test seen.now Columns is_taken count (pair_view pair.now) }
{
    if let Some(kind) = row_fault(seen, Section::Columns, &pair.row) {
        return Some(kind);
    }
    if is_taken {
        return Some(DeckFaultKind::DuplicateEntry);
    }
    if let Some(kind) = number_fault(pair) {
        return Some(kind);
    }
    if MAX_ENTRIES as u128 <= count {
        return Some(DeckFaultKind::TooManyEntries);
    }
    None
}

// The fault of a part whose row is to be one of the first, up to a limit.
fn part_fault_at(
    rows: &Rows,
    limit: usize,
    is_taken: bool,
    part: &PairText<'_>,
) -> Option<DeckFaultKind>
    ensures { result ≡ part_test (take limit rows.now) is_taken (pair_view part.now) }
{
    if is_blank(part.row.bytes()) {
        return Some(DeckFaultKind::EmptyName);
    }
    if !rows.stands_before(&part.row, limit) {
        return Some(DeckFaultKind::UnknownRow);
    }
    if is_taken {
        return Some(DeckFaultKind::DuplicateEntry);
    }
    number_fault(part)
}

// The number of entries once one more is put on a row that has one or hasn't.
fn count_with(count: u128, is_there: bool) -> u128
    requires { count + 1 < 2 ^ 128 }
    ensures { result ≡ count + (if is_there then 0 else 1) }
{
    if is_there {
        return count;
    }
    count + 1
}

// Whether one of these items stands on a row, if there are any.
fn stands_on(items: Option<&Entries>, row: &Name) -> bool
    ensures { result ≡ has_entry (unwrap_or (option_copied items.entry) []) row.now }
{
    match items {
        Some(items) => items.has(row),
        None => false,
    }
}

// Whether a row is that of the pair before, or has an item.
fn is_second_there(items: Option<&Entries>, first: &Name, row: &Name) -> bool
    ensures { result ≡ (same row.now first.now || has_entry
        (unwrap_or (option_copied items.entry) []) row.now) }
{
    *row == *first || stands_on(items, row)
}

/// The first of two faults.
pub fn first_of(
    first: Option<DeckFaultKind>,
    second: Option<DeckFaultKind>,
) -> Option<DeckFaultKind>
    ensures { result ≡ option_or first second }
{
    match first {
        Some(kind) => Some(kind),
        None => second,
    }
}

/// The fault of a card's pairs that replace some of these items or add some, where so many entries are there.
pub fn puts_fault_of(
    seen: &NamedProblem,
    section: Section,
    items: Option<&Entries>,
    count: u128,
    card: &DataCard<'_>,
) -> Option<DeckFaultKind>
    requires { count + 1 < 2 ^ 128 }
    ensures { result ≡ puts_fault seen.now section (unwrap_or (option_copied items.entry) []) count
        (pairs_of (viewed card.now)) }
{
    let first = first_pair(card);
    let is_first = stands_on(items, &first.row);
    let fault = put_fault_at(seen, section, is_first, count, &first);
    match second_pair(card) {
        Some(second) => {
            let is_second = is_second_there(items, &first.row, &second.row);
            let more = count_with(count, is_first);
            let other = put_fault_at(seen, section, is_second, more, &second);
            first_of(fault, other)
        }
        None => fault,
    }
}

/// The fault of a card's pairs that add entries to those of a column, where so many entries are there.
pub fn pairs_fault_of(
    seen: &NamedProblem,
    items: Option<&Entries>,
    count: u128,
    card: &DataCard<'_>,
) -> Option<DeckFaultKind>
    requires { count + 1 < 2 ^ 128 }
    ensures { result ≡ pairs_fault seen.now Columns (unwrap_or (option_copied items.entry) []) count
        (pairs_of (viewed card.now)) }
{
    let first = first_pair(card);
    let is_first = stands_on(items, &first.row);
    let fault = pair_fault_at(seen, is_first, count, &first);
    match second_pair(card) {
        Some(second) => {
            let is_second = is_second_there(items, &first.row, &second.row);
            let other = pair_fault_at(seen, is_second, count + 1, &second);
            first_of(fault, other)
        }
        None => fault,
    }
}

// The fault of a part that is added to these, if there is one, or none.
fn part_fault_if(
    rows: &Rows,
    limit: usize,
    parts: Option<&Entries>,
    part: &Option<PairText<'_>>,
) -> Option<DeckFaultKind>
    ensures { result ≡ pairs_fault (rows_alone (take limit rows.now)) Section.Rows
        (unwrap_or (option_copied parts.entry) []) 0
        (option_to_list (option_map pair_view part.now)) }
{
    match part {
        Some(part) => part_fault_at(rows, limit, stands_on(parts, &part.row), part),
        None => None,
    }
}

/// The fault of the parts on a card that are added to these, where each is to stand on one of the first rows, up to a limit.
pub fn parts_fault_of(
    rows: &Rows,
    limit: usize,
    parts: Option<&Entries>,
    card: &DataCard<'_>,
) -> Option<DeckFaultKind>
    ensures { result ≡ pairs_fault (rows_alone (take limit rows.now)) Section.Rows
        (unwrap_or (option_copied parts.entry) []) 0 (part_pairs_of (viewed card.now)) }
{
    let Some(first) = first_part(card) else {
        return part_fault_if(rows, limit, parts, &second_pair(card));
    };
    let is_first = stands_on(parts, &first.row);
    let fault = part_fault_at(rows, limit, is_first, &first);
    match second_pair(card) {
        Some(second) => {
            let is_second = is_second_there(parts, &first.row, &second.row);
            let other = part_fault_at(rows, limit, is_second, &second);
            first_of(fault, other)
        }
        None => fault,
    }
}

// The fault of a part that replaces one or is added, if there is one, or none.
fn put_part_fault_if(
    rows: &Rows,
    limit: usize,
    part: &Option<PairText<'_>>,
) -> Option<DeckFaultKind>
    ensures { result ≡ puts_fault (rows_alone (take limit rows.now)) Section.Rows [] 0
        (option_to_list (option_map pair_view part.now)) }
{
    match part {
        Some(part) => part_fault_at(rows, limit, false, part),
        None => None,
    }
}

/// The fault of the parts on a card that replace some or are added, where each is to stand on one of the first rows, up to a limit.
pub fn put_parts_fault_of(rows: &Rows, limit: usize, card: &DataCard<'_>) -> Option<DeckFaultKind>
    ensures { result ≡ puts_fault (rows_alone (take limit rows.now)) Section.Rows [] 0
        (part_pairs_of (viewed card.now)) }
{
    first_of(
        put_part_fault_if(rows, limit, &first_part(card)),
        put_part_fault_if(rows, limit, &second_pair(card)),
    )
}
