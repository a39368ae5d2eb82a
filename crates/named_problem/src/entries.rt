// The entries of a column, or the items of a set.
ghost use Rattle.std.specs.Prelude.{◌≡◌, ◌≤◌, ◌++◌, ◌∷◌, [], None, false, IfOk, OnOk, IfErr, map, length, option_map};
ghost use Rattle.std.specs.Option.{option_to_list};
ghost use Rattle.card_definitions.specs.Numbers.{decimal_of};
ghost use Rattle.card_definitions.specs.Words.{◌⟹◌, is_empty as is_none_left};
ghost use Rattle.problem_definitions.specs.Numbering.{entry_by};
ghost use Rattle.problem_definitions.specs.Problem.{has_entry};
ghost use Rattle.deck_definitions.specs.DataCards.{entry_of, entries_of, parts_on, pairs_of, part_pairs_of};
ghost use Rattle.deck_definitions.specs.Tests.{value_fault};
ghost use Rattle.deck_fields.specs.Reported.{ReportsDeckFault};
ghost use Rattle.deck_fields.specs.Views.{viewed, pair_view};
ghost use Rattle.revise_definitions.specs.Edits.{put_entry, put_entries, without_row};
ghost use Rattle.named_problem.specs.Additions.{AreNumbers, AreNew, CanChange};
ghost use Rattle.named_problem.specs.Changes.{entries_changed};
ghost use Rattle.named_problem.specs.Views.{entry_at, row_number};

use crate::changes::EntryChange;
use crate::named::{add_new, made_of_each};
use crate::on_row::OnRow;
use crate::pairs::number_in;
use crate::rows::Rows;
use deck_definitions::DeckFaultKind;
use deck_fields::{CardStop, DataCard, PairText, first_pair, first_part, second_pair};
use indexmap::IndexMap;
use name_table::Name;
use problem_definitions::MAX_ROWS;
use problem_file::{DeckEntry, NoMemory};
use std::alloc::{AllocError, Global};
use std::marker::Model;

/// Numbers on rows, in order.
#[derive(Drop)]
pub struct Entries {
    values: IndexMap<Name, OnRow>,
}

impl Model for Entries {
    ghost use Rattle.std.specs.Prelude.{List, map};
    ghost use Rattle.std.specs.List.{IsDistinct};
    ghost use Rattle.std.specs.Map.{keys_of};
    ghost use Rattle.problem_definitions.specs.Names.{Name as Text, same};
    ghost use Rattle.problem_definitions.specs.Problem.{Entry};
    ghost use Rattle.named_problem.specs.Views.{entry_at};

    ghost Value = { List (Entry Text) };

    ghost view = { λ entries. map entry_at entries.values.entries };

    ghost invariant = { λ entries. IsDistinct same (keys_of entries.values.entries) };
}

// The number of a pair, which has no fault.
fn number_of(pair: &PairText<'_>) -> OnRow
    requires { value_fault pair.now.column pair.now.value.now ≡ None }
    ensures { result.value ≡ decimal_of pair.now.value.now }
{
    match number_in(pair.column, pair.value) {
        Ok(value) => OnRow { place: 0, value },
        Err(_) => unreachable!(),
    }
}

impl Entries {
    pub fn new(alloc: Global) -> Entries
        ensures { result ≡ [] }
    {
        Entries {
            values: IndexMap::new(alloc),
        }
    }

    /// How many entries there are.
    pub fn len(&self) -> usize
        ensures { result ≡ length self.now }
    {
        self.values.len()
    }

    /// Whether there is none.
    pub fn is_empty(&self) -> bool
        ensures { result ≡ is_none_left self.now }
    {
        self.values.is_empty()
    }

    /// Whether a number stands on this row.
    pub fn has(&self, row: &Name) -> bool
        ensures { result ≡ has_entry self.now row.now }
    {
        self.values.contains_key(row)
    }

    /// Puts a number in the place of the one on its row, or at the end where there is none.
    pub fn put(&mut self, row: Name, number: OnRow) -> Result<(), AllocError>
        ensures { OnOk result (self.new ≡ put_entry self.old
            (record { row = row; value = number.value })) }
    {
        self.values.insert(row, number)?;
        Ok(())
    }

    /// Adds a number at the end, on a row that has none.
    pub fn add(&mut self, row: Name, number: OnRow) -> Result<(), AllocError>
        requires { has_entry self.old row ≡ false }
        ensures { OnOk result (self.new ≡ self.old ++ record
            { row = row; value = number.value } ∷ []) }
    {
        let _is_new = add_new(&mut self.values, row, number)?;
        Ok(())
    }

    /// Adds a number at the end, or refuses a row that has one.
    pub fn take(&mut self, row: Name, number: OnRow) -> Result<(), CardStop<DeckFaultKind>>
        ensures is_new { OnOk result (has_entry self.old row ≡ false) }
        ensures added { OnOk result (self.new ≡ self.old ++ record
            { row = row; value = number.value } ∷ []) }
        ensures stop { IfErr result (ReportsDeckFault (has_entry self.old row ⟹
            DeckFaultKind.DuplicateEntry)) }
    {
        let is_new = add_new(&mut self.values, row, number)?;
        if !is_new {
            return Err(CardStop::Fault(DeckFaultKind::DuplicateEntry));
        }
        Ok(())
    }

    /// Takes out the number on this row.
    pub fn remove(&mut self, row: &Name)
        ensures { self.new ≡ without_row row.now self.old }
    {
        self.values.shift_remove(row);
    }

    /// The numbers on the numbers of their rows.
    pub fn numbered(&self, alloc: Global, rows: &Rows) -> Result<Vec<DeckEntry>, NoMemory>
        requires { length rows.now ≤ MAX_ROWS }
        ensures { IfOk result (λ list. list.items ≡ map (entry_by
            (row_number rows.now)) self.now) }
    {
        made_of_each(alloc, &self.values, |row, number| {
            Ok(DeckEntry {
                row: rows.number_at(number.place, row),
                value: number.value,
            })
        })
    }

    // Puts the entry of a pair in, if there is one.
    fn put_if(&mut self, pair: &Option<PairText<'_>>) -> Result<(), AllocError>
        requires { AreNumbers (option_to_list (option_map pair_view pair.now)) }
        ensures { OnOk result (self.new ≡ put_entries
            (map entry_of (option_to_list (option_map pair_view pair.now))) self.old) }
    {
        match pair {
            Some(pair) => self.put(pair.row, number_of(pair)),
            None => Ok(()),
        }
    }

    // Adds the entry of a pair at the end, if there is one.
    fn add_if(&mut self, pair: &Option<PairText<'_>>) -> Result<(), AllocError>
        requires { AreNew self.old (option_to_list (option_map pair_view pair.now)) }
        ensures { OnOk result (self.new ≡ self.old ++ map entry_of
            (option_to_list (option_map pair_view pair.now))) }
    {
        match pair {
            Some(pair) => self.add(pair.row, number_of(pair)),
            None => Ok(()),
        }
    }

    // Puts the entries of a card in, one after another.
    fn put_all(&mut self, card: &DataCard<'_>) -> Result<(), AllocError>
        requires { AreNumbers (pairs_of (viewed card.now)) }
        ensures { OnOk result (self.new ≡ put_entries (entries_of (viewed card.now)) self.old) }
    {
        let first = first_pair(card);
        self.put(first.row, number_of(&first))?;
        self.put_if(&second_pair(card))
    }

    /// Adds the entries of a card at the end.
    pub fn append_all(&mut self, card: &DataCard<'_>) -> Result<(), AllocError>
        requires { AreNew self.old (pairs_of (viewed card.now)) }
        ensures { OnOk result (self.new ≡ self.old ++ entries_of (viewed card.now)) }
    {
        let first = first_pair(card);
        self.add(first.row, number_of(&first))?;
        self.add_if(&second_pair(card))
    }

    /// Puts the parts on a card in, one after another.
    pub fn put_parts(&mut self, card: &DataCard<'_>) -> Result<(), AllocError>
        requires { AreNumbers (part_pairs_of (viewed card.now)) }
        ensures { OnOk result (self.new ≡ put_entries (parts_on (viewed card.now)) self.old) }
    {
        self.put_if(&first_part(card))?;
        self.put_if(&second_pair(card))
    }

    /// Adds the parts on a card at the end.
    pub fn append_parts(&mut self, card: &DataCard<'_>) -> Result<(), AllocError>
        requires { AreNew self.old (part_pairs_of (viewed card.now)) }
        ensures { OnOk result (self.new ≡ self.old ++ parts_on (viewed card.now)) }
    {
        self.add_if(&first_part(card))?;
        self.add_if(&second_pair(card))
    }

    /// Changes the entries as a card says.
    pub fn change(&mut self, change: EntryChange, card: &DataCard<'_>) -> Result<(), AllocError>
        requires { CanChange change (viewed card.now) self.old }
        ensures { OnOk result (self.new ≡ entries_changed change (viewed card.now) self.old) }
    {
        match change {
            EntryChange::Put => self.put_all(card),
            EntryChange::Append => self.append_all(card),
            EntryChange::Without => {
                self.remove(&card.name2);
                Ok(())
            }
        }
    }
}
