// The pairs of a card of COLUMNS, RHS or RANGES, and the parts on a card of ROWS.
ghost use Rattle.std.specs.Prelude.{◌≡◌, ◌≤◌, ◌++◌, ◌∷◌, [], None, Some, ℕ, length, map, option_map, IfOk, OnOk, IfErr};
ghost use Rattle.std.specs.Option.{option_to_list};
ghost use Rattle.card_definitions.specs.Numbers.{decimal_of};
ghost use Rattle.card_definitions.specs.declared.NumberFault.TheVariants.{BadCharacter};
ghost use Rattle.deck_definitions.specs.DataCards.{entry_of, entries_of, pairs_of, part_pairs_of, parts_on};
ghost use Rattle.deck_definitions.specs.Tests.{number_fault_from, value_fault, pair_row_fault, pair_fault, pairs_fault};
ghost use Rattle.named_problem.specs.Taken.{TakesCard};
ghost use Rattle.named_problem.specs.Views.{rows_alone, pair_value_fault, parts_fault};
ghost use Rattle.deck_fields.specs.Views.{viewed, pair_view};
ghost use Rattle.card_definitions.specs.declared.TheConstants.{CARD_COLUMNS};

use crate::entries::Entries;
use crate::fault_after::fault_after;
use crate::on_row::OnRow;
use crate::rows::{FoundRow, Rows, is_free};
use card_definitions::NumberFault;
use deck_definitions::{DeckFaultKind, Section};
use deck_fields::{
    CardStop, DataCard, Decimal, PairText, first_pair, first_part, is_blank, is_section, number,
    second_pair,
};
use name_table::Name;
use problem_definitions::MAX_ENTRIES;

/// The row in a pair, or its fault.
pub fn row_of(rows: &Rows, section: Section, row: &Name) -> Result<FoundRow, DeckFaultKind>
    ensures no_fault { OnOk result (pair_row_fault (rows_alone rows.now) section row.now ≡ None) }
    ensures fault { IfErr result (λ kind. pair_row_fault (rows_alone rows.now) section row.now
        ≡ Some kind) }
{
    if is_blank(row.bytes()) {
        return Err(DeckFaultKind::EmptyName);
    }
    let Some(found) = rows.find(row) else {
        return Err(DeckFaultKind::UnknownRow);
    };
    if is_section(Section::Columns, section) && found.is_combination {
        return Err(DeckFaultKind::EntryOnCombination);
    }
    if is_section(Section::Ranges, section) && is_free(found.kind) {
        return Err(DeckFaultKind::RangeOnFree);
    }
    Ok(found)
}

// The fault of a number in a field that begins in this column.
fn fault_from(column: u8, fault: NumberFault) -> DeckFaultKind
    requires from_one { 1 ≤ column }
    requires in_card { column ≤ CARD_COLUMNS }
    requires in_field { (place : ℕ) → fault ≡ BadCharacter place → place ≤ 12 }
    ensures { result ≡ number_fault_from column fault }
{
    match fault {
        NumberFault::Empty => DeckFaultKind::Number(NumberFault::Empty, 0),
        NumberFault::BadCharacter(place) => {
            DeckFaultKind::Number(NumberFault::BadCharacter(place), column + place - 1)
        }
        NumberFault::NoDigit => DeckFaultKind::Number(NumberFault::NoDigit, 0),
        NumberFault::ExponentRange => DeckFaultKind::Number(NumberFault::ExponentRange, 0),
    }
}

// The number in a field that begins in this column.
pub fn number_in(column: u8, field: &[u8]) -> Result<Decimal, DeckFaultKind>
    requires short { length field.now ≤ 12 }
    requires from_one { 1 ≤ column }
    requires in_card { column ≤ CARD_COLUMNS }
    ensures value { IfOk result (λ v. v ≡ decimal_of field.now) }
    ensures no_fault { OnOk result (value_fault column field.now ≡ None) }
    ensures fault { IfErr result (λ kind. value_fault column field.now ≡ Some kind) }
{
    match number(field) {
        Ok(value) => Ok(value),
        Err(fault) => Err(fault_from(column, fault)),
    }
}

// The number of a pair, where there is room for one more, or the fault.
fn decimal_of(section: Section, count: u32, pair: &PairText<'_>) -> Result<Decimal, DeckFaultKind>
    ensures value { IfOk result (λ v. v ≡ decimal_of pair.now.value.now) }
    ensures no_fault { OnOk result (pair_value_fault section count (pair_view pair.now) ≡ None) }
    ensures fault { IfErr result (λ kind. pair_value_fault section count (pair_view pair.now)
        ≡ Some kind) }
{
    let value = number_in(pair.column, pair.value)?;
    if is_section(Section::Columns, section) && MAX_ENTRIES <= count as usize {
        return Err(DeckFaultKind::TooManyEntries);
    }
    Ok(value)
}

// Takes a pair.
pub fn take_pair(
    rows: &Rows,
    section: Section,
    items: &mut Entries,
    count: u32,
    pair: &PairText<'_>,
) -> Result<(), CardStop<DeckFaultKind>>
    ensures { TakesCard
        (pair_fault (rows_alone rows.now) section items.old count (pair_view pair.now)) items.new
        (items.old ++ entry_of (pair_view pair.now) ∷ []) result }
{
    let found = row_of(rows, section, &pair.row).map_err(CardStop::Fault)?;
    match decimal_of(section, count, pair) {
        Ok(value) => {
            let place = found.place;
            items.take(pair.row, OnRow { place, value })
        }
        Err(kind) => {
            let is_taken = items.has(&pair.row);
            let fault = fault_after(is_taken, DeckFaultKind::DuplicateEntry, kind);
            Err(CardStop::Fault(fault))
        }
    }
}

// Takes the pairs of a card.
pub fn take_pairs(
    rows: &Rows,
    section: Section,
    items: &mut Entries,
    count: u32,
    card: &DataCard<'_>,
) -> Result<(), CardStop<DeckFaultKind>>
    requires { count ≤ 100000 }
    ensures { TakesCard
        (pairs_fault (rows_alone rows.now) section items.old count (pairs_of (viewed card.now)))
        items.new (items.old ++ entries_of (viewed card.now)) result }
{
    take_pair(rows, section, items, count, &first_pair(card))?;
    match second_pair(card) {
        Some(second) => take_pair(rows, section, items, count + 1, &second),
        None => Ok(()),
    }
}

// Takes a pair, where there is one, as a part of a combination of which these rows are the earlier ones.
fn take_part(
    rows: &Rows,
    parts: &mut Entries,
    pair: &Option<PairText<'_>>,
) -> Result<(), CardStop<DeckFaultKind>>
    ensures { TakesCard
        (parts_fault rows.now parts.old (option_to_list (option_map pair_view pair.now))) parts.new
        (parts.old ++ map entry_of (option_to_list (option_map pair_view pair.now))) result }
{
    match pair {
        Some(pair) => take_pair(rows, Section::Rows, parts, 0, pair),
        None => Ok(()),
    }
}

/// Takes the parts on a card of a combination, where these rows are the earlier ones.
pub fn take_parts(
    rows: &Rows,
    parts: &mut Entries,
    card: &DataCard<'_>,
) -> Result<(), CardStop<DeckFaultKind>>
    ensures { TakesCard (parts_fault rows.now parts.old (part_pairs_of (viewed card.now))) parts.new
        (parts.old ++ parts_on (viewed card.now)) result }
{
    match take_part(rows, parts, &first_part(card)) {
        Ok(()) => take_part(rows, parts, &second_pair(card)),
        Err(stop) => Err(stop),
    }
}
