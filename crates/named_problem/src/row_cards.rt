// The cards of ROWS.
ghost use Rattle.std.specs.Prelude.{◌≡◌, ◌++◌, ◌∷◌, [], None, Some, true, false, not, OnOk, IfErr};
ghost use Rattle.card_definitions.specs.Words.{is_empty};
ghost use Rattle.problem_definitions.specs.Problem.{plain_row, combination, has_row};
ghost use Rattle.deck_definitions.specs.DataCards.{part_pairs_of, parts_on, goes_on_last, with_row};
ghost use Rattle.deck_definitions.specs.Tests.{filled_from_3, row_fault};
ghost use Rattle.deck_fields.specs.Reported.{ReportsDeckFault};
ghost use Rattle.named_problem.specs.Taken.{TakesCard};
ghost use Rattle.deck_fields.specs.Views.{viewed};
ghost use Rattle.named_problem.specs.Bodies.{row_at};
ghost use Rattle.named_problem.specs.Views.{rows_alone, new_row_fault, begun_fault, parts_fault};

use crate::entries::Entries;
use crate::pairs::take_parts;
use crate::rows::{RowBody, Rows};
use deck_definitions::DeckFaultKind;
use deck_fields::{CardStop, DataCard, combination_kind, is_blank, row_kind};
use name_table::Name;
use problem_definitions::{MAX_ROWS, RowKind};
use std::alloc::Global;

// Whether one of the fields 3 to 6 isn't blank.
pub fn has_more(card: &DataCard<'_>) -> bool
    ensures { result ≡ not (is_empty (card.now.name2 ++ card.now.value1.now ++ card.now.name3 ++
        card.now.value2.now)) }
{
    !(is_blank(card.name2.bytes())
        && is_blank(card.value1)
        && is_blank(card.name3.bytes())
        && is_blank(card.value2))
}

// Whether a row of this name may be begun, or the fault.
fn name_new_row(rows: &Rows, name: &Name) -> Result<(), CardStop<DeckFaultKind>>
    ensures no_fault { OnOk result (new_row_fault rows.now name.now ≡ None) }
    ensures is_new { OnOk result (has_row rows.now name.now ≡ false) }
    ensures stop { IfErr result (ReportsDeckFault (new_row_fault rows.now name.now)) }
{
    if is_blank(name.bytes()) {
        return Err(CardStop::Fault(DeckFaultKind::EmptyName));
    }
    if rows.has(name) {
        return Err(CardStop::Fault(DeckFaultKind::DuplicateRow));
    }
    if MAX_ROWS <= rows.len() {
        return Err(CardStop::Fault(DeckFaultKind::TooManyRows));
    }
    Ok(())
}

// Takes a card that begins a plain row of this type.
fn begin_plain(
    rows: &mut Rows,
    kind: RowKind,
    card: &DataCard<'_>,
) -> Result<(), CardStop<DeckFaultKind>>
    ensures { TakesCard (begun_fault rows.old card.now.name1 (filled_from_3 (viewed card.now)))
        rows.new (rows.old ++ plain_row kind card.now.name1 ∷ []) result }
{
    name_new_row(rows, &card.name1)?;
    if has_more(card) {
        return Err(CardStop::Fault(DeckFaultKind::ExtraField));
    }
    rows.add(kind, card.name1, None)?;
    Ok(())
}

// Takes a card that begins a combination of this type.
fn begin_combination(
    alloc: Global,
    rows: &mut Rows,
    kind: RowKind,
    card: &DataCard<'_>,
) -> Result<(), CardStop<DeckFaultKind>>
    ensures { TakesCard
        (begun_fault rows.old card.now.name1
        (parts_fault rows.old [] (part_pairs_of (viewed card.now)))) rows.new
        (rows.old ++ combination kind card.now.name1 (parts_on (viewed card.now)) ∷ []) result }
{
    name_new_row(rows, &card.name1)?;
    let mut parts = Entries::new(alloc);
    take_parts(rows, &mut parts, card)?;
    rows.add(kind, card.name1, Some(parts))?;
    Ok(())
}

// Takes a card that begins a row.
fn begin_row(
    alloc: Global,
    rows: &mut Rows,
    card: &DataCard<'_>,
) -> Result<(), CardStop<DeckFaultKind>>
    requires { goes_on_last rows.old (viewed card.now) ≡ false }
    ensures { TakesCard (row_fault (rows_alone rows.old) (viewed card.now)) rows.new
        (with_row rows.old (viewed card.now)) result }
{
    if let Some(kind) = row_kind(card.kind) {
        return begin_plain(rows, kind, card);
    }
    match combination_kind(card.kind) {
        Some(kind) => begin_combination(alloc, rows, kind, card),
        None => Err(CardStop::Fault(DeckFaultKind::BadRowType)),
    }
}

// Takes a card that goes on with a row of this name, which was taken out as the last and is put back with the card's parts added.
fn put_back(
    rows: &mut Rows,
    name: Name,
    body: RowBody,
    card: &DataCard<'_>,
) -> Result<(), CardStop<DeckFaultKind>>
    requires goes_on { goes_on_last (rows.old ++ row_at (name, body) ∷ [])
        (viewed card.now) ≡ true }
    requires apart { has_row rows.old name ≡ false }
    ensures { TakesCard
        (row_fault (rows_alone (rows.old ++ row_at (name, body) ∷ [])) (viewed card.now)) rows.new
        (with_row (rows.old ++ row_at (name, body) ∷ []) (viewed card.now)) result }
{
    if is_blank(card.name1.bytes()) {
        return Err(CardStop::Fault(DeckFaultKind::EmptyName));
    }
    let RowBody { kind, parts } = body;
    let Some(mut parts) = parts else {
        unreachable!();
    };
    match take_parts(rows, &mut parts, card) {
        Ok(()) => {
            rows.add(kind, name, Some(parts))?;
            Ok(())
        }
        Err(stop) => Err(stop),
    }
}

// Takes a card that goes on with the last row.
fn go_on(rows: &mut Rows, card: &DataCard<'_>) -> Result<(), CardStop<DeckFaultKind>>
    requires { goes_on_last rows.old (viewed card.now) ≡ true }
    ensures { TakesCard (row_fault (rows_alone rows.old) (viewed card.now)) rows.new
        (with_row rows.old (viewed card.now)) result }
{
    let Some((name, body)) = rows.take_last() else {
        unreachable!();
    };
    put_back(rows, name, body, card)
}

/// Takes a card of ROWS, which goes on with the last row or begins one. An `Err` may leave the last row out.
pub fn take_row_card(
    alloc: Global,
    rows: &mut Rows,
    card: &DataCard<'_>,
) -> Result<(), CardStop<DeckFaultKind>>
    ensures { TakesCard (row_fault (rows_alone rows.old) (viewed card.now)) rows.new
        (with_row rows.old (viewed card.now)) result }
{
    if rows.goes_on(card) {
        return go_on(rows, card);
    }
    begin_row(alloc, rows, card)
}
