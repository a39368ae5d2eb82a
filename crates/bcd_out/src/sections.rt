// The sections of a deck.
ghost use Rattle.std.specs.Prelude.{◌≡◌, ◌≤◌, ◌++◌, ℕ, List, [], codes, map, length, if◌then◌else◌};
ghost use Rattle.card_definitions.specs.Words.{is_empty};
ghost use Rattle.std.specs.List.{flat_map};
ghost use Rattle.std.specs.Option.{option_copied, option_to_list};
ghost use Rattle.problem_definitions.specs.Names.{name_at};
ghost use Rattle.problem_definitions.specs.Problem.{group_names};
ghost use Rattle.job_devices.specs.Text.{Writes, text_of_pieces};
ghost use Rattle.bcd_out.specs.Lines.{WritesEach, line, bare_line, item_line, combination_lines, row_lines, first_plain, zero_line, entry_lines, column_lines};
ghost use Rattle.bcd_out.specs.Lines.{bound_line, number_text, bound_lines, section_lines};

use crate::card::{WrittenCard, put_card};
use deck_fields::{bound_kind_word, combination_word, row_kind_word};
use job_devices::{Sink, WriteStop, put_all, put_each};
use name_table::Name;
use problem_file::{BoundItem, BoundSet, ColumnDecl, DeckEntry, RowDecl, RowKind, ValueSet};

/// The name of the row with this number.
pub fn row_name(rows: &[RowDecl], number: u32) -> &[u8]
    ensures name { result.now ≡ name_at (map (λ row. row.name) rows.now) number }
    ensures short { length result.now ≤ 8 }
{
    match rows.get((number as usize).saturating_sub(1)) {
        Some(row) => row.name.bytes(),
        None => b"",
    }
}

/// The name of the column with this number.
pub fn column_name(columns: &[ColumnDecl], number: u32) -> &[u8]
    ensures name { result.now ≡ name_at (group_names columns.now) number }
    ensures short { length result.now ≤ 8 }
{
    match columns.get((number as usize).saturating_sub(1)) {
        Some(column) => column.name.bytes(),
        None => b"",
    }
}

// Writes what a function writes of each of these, one after the other.
fn put_in_turn<P: Sink, T, F: Fn(&mut P, &T) -> Result<(), WriteStop>>(
    punch: &mut P,
    items: &[T],
    put: F,
) -> Result<(), WriteStop>
    requires { F.IsAlwaysCallable put }
    ensures { (lines : T → List ℕ) → WritesEach P.taken (F.post put) lines →
        Writes (P.taken punch.old) (P.taken punch.new) result (flat_map lines items.now) }
{
    for item in items {
        put(punch, item)?;
    }
    Ok(())
}

// Writes the pieces of a section's card, and what a function writes of each of these.
fn put_under<P: Sink, T, F: Fn(&mut P, &T) -> Result<(), WriteStop>>(
    punch: &mut P,
    card: &[&[u8]],
    items: &[T],
    put: F,
) -> Result<(), WriteStop>
    requires { F.IsAlwaysCallable put }
    ensures { (lines : T → List ℕ) → WritesEach P.taken (F.post put) lines →
        Writes (P.taken punch.old) (P.taken punch.new) result
        (text_of_pieces card.now ++ flat_map lines items.now) }
{
    put_each(punch, card)?;
    put_in_turn(punch, items, put)
}

// Writes a section with these pieces of its card, if there is something in it.
fn put_section<P: Sink, T, F: Fn(&mut P, &T) -> Result<(), WriteStop>>(
    punch: &mut P,
    card: &[&[u8]],
    items: &[T],
    put: F,
) -> Result<(), WriteStop>
    requires { F.IsAlwaysCallable put }
    ensures { (lines : T → List ℕ) → WritesEach P.taken (F.post put) lines →
        Writes (P.taken punch.old) (P.taken punch.new) result
        (if is_empty items.now then [] else text_of_pieces card.now ++ flat_map lines items.now) }
{
    if items.is_empty() {
        return put_all(punch, b"");
    }
    put_under(punch, card, items, put)
}

// A row without parts, by the word of its type.
fn put_bare_row<P: Sink>(punch: &mut P, word: &[u8], name: Name) -> Result<(), WriteStop>
    requires { length word.now ≤ 2 }
    ensures { Writes (P.taken punch.old) (P.taken punch.new) result (bare_line word.now name) }
{
    let card = WrittenCard {
        kind: word,
        name1: name.bytes(),
        name2: b"",
        value: b"",
    };
    put_card(punch, card)
}

// A part of the combination of this word and name, or, with no word, an entry or item of a column or set of this name.
fn put_item<P: Sink>(
    punch: &mut P,
    rows: &[RowDecl],
    word: &[u8],
    name: Name,
    item: DeckEntry,
) -> Result<(), WriteStop>
    requires { length word.now ≤ 2 }
    ensures { Writes (P.taken punch.old) (P.taken punch.new) result
        (item_line (map (λ row. row.name) rows.now) word.now name item) }
{
    let card = WrittenCard {
        kind: word,
        name1: name.bytes(),
        name2: row_name(rows, item.row),
        value: item.value.text(),
    };
    put_card(punch, card)
}

fn put_items<P: Sink>(
    punch: &mut P,
    rows: &[RowDecl],
    word: &[u8],
    name: Name,
    items: &[DeckEntry],
) -> Result<(), WriteStop>
    requires { length word.now ≤ 2 }
    ensures { Writes (P.taken punch.old) (P.taken punch.new) result
        (flat_map (item_line (map (λ row. row.name) rows.now) word.now name) items.now) }
{
    put_in_turn(punch, items, |punch, item| {
        put_item(punch, rows, word, name, *item)
    })
}

fn put_combination<P: Sink>(
    punch: &mut P,
    rows: &[RowDecl],
    kind: RowKind,
    name: Name,
    parts: &[DeckEntry],
) -> Result<(), WriteStop>
    ensures { Writes (P.taken punch.old) (P.taken punch.new) result
        (combination_lines (map (λ row. row.name) rows.now) kind name parts.now) }
{
    if parts.is_empty() {
        put_bare_row(punch, combination_word(kind), name)
    } else {
        put_items(punch, rows, combination_word(kind), name, parts)
    }
}

fn put_row<P: Sink>(punch: &mut P, rows: &[RowDecl], row: &RowDecl) -> Result<(), WriteStop>
    ensures { Writes (P.taken punch.old) (P.taken punch.new) result
        (row_lines (map (λ row. row.name) rows.now) row.now) }
{
    match &row.parts {
        None => put_bare_row(punch, row_kind_word(row.kind), row.name),
        Some(parts) => put_combination(punch, rows, row.kind, row.name, parts),
    }
}

/// The first plain row, if there is one.
pub fn plain_row(rows: &[RowDecl]) -> Option<&RowDecl>
    ensures { option_copied result ≡ first_plain rows.now }
{
    rows.iter().find(|row| !row.is_combination())
}

// The number 0 of a column on the first plain row, if there is one.
fn put_zero<P: Sink>(punch: &mut P, rows: &[RowDecl], name: Name) -> Result<(), WriteStop>
    ensures { Writes (P.taken punch.old) (P.taken punch.new) result
        (flat_map (zero_line name) (option_to_list (first_plain rows.now))) }
{
    let Some(row) = plain_row(rows) else {
        return put_all(punch, b"");
    };
    let card = WrittenCard {
        kind: b"",
        name1: name.bytes(),
        name2: row.name.bytes(),
        value: b"0",
    };
    put_card(punch, card)
}

fn put_column<P: Sink>(
    punch: &mut P,
    rows: &[RowDecl],
    column: &ColumnDecl,
) -> Result<(), WriteStop>
    ensures { Writes (P.taken punch.old) (P.taken punch.new) result
        (column_lines rows.now column.now) }
{
    if column.items.is_empty() {
        put_zero(punch, rows, column.name)
    } else {
        put_items(punch, rows, b"", column.name, &column.items)
    }
}

fn put_value_set<P: Sink>(punch: &mut P, rows: &[RowDecl], set: &ValueSet) -> Result<(), WriteStop>
    ensures { Writes (P.taken punch.old) (P.taken punch.new) result
        (entry_lines (map (λ row. row.name) rows.now) set.now) }
{
    put_items(punch, rows, b"", set.name, &set.items)
}

fn put_bound<P: Sink>(
    punch: &mut P,
    columns: &[ColumnDecl],
    name: Name,
    bound: BoundItem,
) -> Result<(), WriteStop>
    ensures { Writes (P.taken punch.old) (P.taken punch.new) result
        (bound_line (group_names columns.now) name bound) }
{
    let value = match &bound.value {
        Some(value) => value.text(),
        None => b"",
    };
    let card = WrittenCard {
        kind: bound_kind_word(bound.kind),
        name1: name.bytes(),
        name2: column_name(columns, bound.column),
        value,
    };
    put_card(punch, card)
}

fn put_bound_set<P: Sink>(
    punch: &mut P,
    columns: &[ColumnDecl],
    set: &BoundSet,
) -> Result<(), WriteStop>
    ensures { Writes (P.taken punch.old) (P.taken punch.new) result
        (bound_lines (group_names columns.now) set.now) }
{
    put_in_turn(punch, &set.items, |punch, bound| {
        put_bound(punch, columns, set.name, *bound)
    })
}

/// Writes the section of the rows.
pub fn put_rows<P: Sink>(punch: &mut P, rows: &[RowDecl]) -> Result<(), WriteStop>
    ensures { Writes (P.taken punch.old) (P.taken punch.new) result
        (line (codes "ROWS") ++ flat_map (row_lines (map (λ row. row.name) rows.now)) rows.now) }
{
    put_under(
        punch,
        &[b"ROWS\n"],
        rows,
        |punch, row| put_row(punch, rows, row),
    )
}

/// Writes the section of the columns.
pub fn put_columns<P: Sink>(
    punch: &mut P,
    rows: &[RowDecl],
    columns: &[ColumnDecl],
) -> Result<(), WriteStop>
    ensures { Writes (P.taken punch.old) (P.taken punch.new) result
        (line (codes "COLUMNS") ++ flat_map (column_lines rows.now) columns.now) }
{
    put_under(punch, &[b"COLUMNS\n"], columns, |punch, column| {
        put_column(punch, rows, column)
    })
}

/// Writes a section of right-hand sides or of ranges, if there is a set.
pub fn put_value_section<P: Sink>(
    punch: &mut P,
    word: &'static [u8],
    rows: &[RowDecl],
    sets: &[ValueSet],
) -> Result<(), WriteStop>
    ensures { Writes (P.taken punch.old) (P.taken punch.new) result
        (section_lines word.now (entry_lines (map (λ row. row.name) rows.now)) sets.now) }
{
    put_section(punch, &[word, b"\n"], sets, |punch, set| {
        put_value_set(punch, rows, set)
    })
}

/// Writes the section of the bounds, if there is a set.
pub fn put_bound_section<P: Sink>(
    punch: &mut P,
    columns: &[ColumnDecl],
    sets: &[BoundSet],
) -> Result<(), WriteStop>
    ensures { Writes (P.taken punch.old) (P.taken punch.new) result
        (section_lines (codes "BOUNDS") (bound_lines (group_names columns.now)) sets.now) }
{
    put_section(punch, &[b"BOUNDS\n"], sets, |punch, set| {
        put_bound_set(punch, columns, set)
    })
}
