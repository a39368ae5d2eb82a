// Columns, and sets of right-hand sides or of ranges.
ghost use Rattle.std.specs.Prelude.{◌≡◌, ◌≤◌, ◌<◌, ◌+◌, ◌^◌, ◌++◌, ◌∷◌, [], None, ◌&&◌, nat_lt, nat_le, nat_eq, IfOk, OnOk, IfErr, true, false, map, sum_by};
ghost use Rattle.std.specs.Prelude.{length, insert, unwrap_or, not};
ghost use Rattle.std.specs.List.{IsDistinct, list_any};
ghost use Rattle.std.specs.Map.{keys_of, lookup};
ghost use Rattle.std.specs.Option.{option_copied};
ghost use Rattle.indexmap.specs.IndexMap.{insert_entry};
ghost use Rattle.card_definitions.specs.Words.{◌⟹◌, first_fault, is_empty as is_none_left};
ghost use Rattle.problem_definitions.specs.Groups.{in_group, in_set, in_all, without_group, filled, items_of};
ghost use Rattle.problem_definitions.specs.Names.{same, number_in};
ghost use Rattle.problem_definitions.specs.Numbering.{entry_by, group_by};
ghost use Rattle.problem_definitions.specs.Problem.{has_group, has_entry, group_names};
ghost use Rattle.named_problem.specs.Views.{AreShort, IsPut, IsCountBefore, IsSettled, group_at, rows_alone, column_fault, row_number, column_number};
ghost use Rattle.deck_fields.specs.Reported.{ReportsDeckFault};
ghost use Rattle.named_problem.specs.Taken.{TakesCard};
ghost use Rattle.deck_fields.specs.Views.{viewed};
ghost use Rattle.deck_definitions.specs.DataCards.{entries_of, pairs_of};
ghost use Rattle.deck_definitions.specs.declared.Section.TheVariants.{Columns};
ghost use Rattle.deck_definitions.specs.Tests.{pairs_fault};
ghost use Rattle.revise_definitions.specs.Edits.{without_row, delete_items};
ghost use Rattle.named_problem.specs.Additions.{CanChange};
ghost use Rattle.named_problem.specs.Changes.{entries_changed};

use crate::changes::EntryChange;
use crate::entries::Entries;
use crate::named::{insert_new, made_of_each};
use crate::numbers::{number_among, number_from};
use crate::pairs::take_pairs;
use crate::rows::Rows;
use deck_definitions::{DeckFaultKind, Section};
use deck_fields::{CardStop, DataCard, is_blank};
use indexmap::IndexMap;
use name_table::Name;
use problem_definitions::{MAX_COLUMNS, MAX_ROWS};
use problem_file::{DeckEntry, Group, NoMemory};
use std::alloc::{AllocError, Global};
use std::marker::Model;

/// Columns, or sets, in order, with the number of the items of all of them.
#[derive(Drop)]
pub struct Groups {
    groups: IndexMap<Name, Entries>,
    count: u128,
}

impl Model for Groups {
    ghost use Rattle.std.specs.Prelude.{◌≡◌, List, map, sum_by, length};
    ghost use Rattle.std.specs.List.{IsDistinct};
    ghost use Rattle.std.specs.Map.{keys_of};
    ghost use Rattle.problem_definitions.specs.Names.{Name as Text, same};
    ghost use Rattle.problem_definitions.specs.Problem.{Entry, Group};
    ghost use Rattle.named_problem.specs.Views.{group_at, AreShort};

    ghost Value = { List (Group (Entry Text)) };

    ghost view = { λ groups. map group_at groups.groups.entries };

    ghost invariant = { λ groups. IsDistinct same (keys_of groups.groups.entries) ×
        (groups.count ≡ sum_by (λ group. length group.items) (map group_at groups.groups.entries)) ×
        AreShort (map group_at groups.groups.entries) };
}

// How many items stand under a name.
fn count_under(groups: &IndexMap<Name, Entries>, name: &Name) -> usize
    ensures count { result ≡ length (unwrap_or (lookup (same name.now) groups.now.entries) []) }
    ensures distinct { IsDistinct same (keys_of groups.now.entries) }
{
    let _names = groups.len();
    match groups.get(name) {
        Some(items) => items.len(),
        None => 0,
    }
}

// Whether an item under any name stands on this row.
fn any_on_row(groups: &IndexMap<Name, Entries>, row: &Name) -> bool
    ensures { result ≡ list_any (λ group. has_entry group.items row.now)
        (map group_at groups.now.entries) }
{
    for (_, items) in groups {
        if items.has(row) {
            return true;
        }
    }
    false
}

// How many items stand under all names.
fn count_of_all(groups: &IndexMap<Name, Entries>) -> u128
    ensures count { result ≡
        sum_by (λ group. length group.items) (map group_at groups.now.entries) }
    ensures short { AreShort (map group_at groups.now.entries) }
{
    let _names = groups.len();
    let mut count = 0u128;
    for (_, items) in groups {
        count += items.len() as u128;
    }
    count
}

// How many items stood under a name before a change, and how many stand there after it.
#[derive(Clone, Copy)]
struct Lengths {
    before: usize,
    after: usize,
}

// How many items stand under all names, where so many did before those under one name changed.
fn recounted(groups: &IndexMap<Name, Entries>, count: u128, lengths: Lengths) -> u128
    requires { IsCountBefore (map group_at groups.now.entries) count lengths.before lengths.after }
    ensures count { result ≡
        sum_by (λ group. length group.items) (map group_at groups.now.entries) }
    ensures distinct { IsDistinct same (keys_of groups.now.entries) }
{
    let _names = groups.len();
    count - lengths.before as u128 + lengths.after as u128
}

// Counts the items anew after a change under one name. A change that was broken off leaves no name.
fn settle<E>(
    groups: &mut IndexMap<Name, Entries>,
    count: &mut u128,
    changed: Result<Lengths, E>,
) -> Result<(), E>
    requires { IfOk changed (λ lengths. IsCountBefore (map group_at groups.old.entries) count.old
        lengths.before lengths.after) }
    ensures same { IsSettled changed result }
    ensures kept { OnOk result (groups.new.entries ≡ groups.old.entries) }
    ensures distinct { IsDistinct same (keys_of groups.new.entries) }
    ensures count { count.new ≡ sum_by (λ group. length group.items)
        (map group_at groups.new.entries) }
    ensures short { AreShort (map group_at groups.new.entries) }
{
    match changed {
        Ok(lengths) => {
            *count = recounted(groups, *count, lengths);
            Ok(())
        }
        Err(stop) => {
            groups.clear();
            *count = 0;
            Err(stop)
        }
    }
}

// Changes the items under the name in field 2 of a card as it says, where a name that isn't there is added last.
fn change_under(
    alloc: Global,
    change: EntryChange,
    card: &DataCard<'_>,
    groups: &mut IndexMap<Name, Entries>,
) -> Result<Lengths, AllocError>
    requires { CanChange change (viewed card.now)
        (unwrap_or (lookup (same card.now.name1) groups.old.entries) []) }
    ensures { IfOk result (λ lengths. IsPut card.now.name1 (entries_changed change (viewed card.now)
        (unwrap_or (lookup (same card.now.name1) groups.old.entries) [])) groups.old.entries
        groups.new.entries lengths.before lengths.after) }
{
    let items = groups.entry(card.name1)?.or_insert(Entries::new(alloc));
    let before = items.len();
    items.change(change, card)?;
    let after = items.len();
    Ok(Lengths { before, after })
}

// The fault of a card's column, where its name has this place among so many columns, or this many where it isn't among them.
fn place_fault(place: usize, count: usize) -> Option<DeckFaultKind>
    requires { place ≤ count }
    ensures { result ≡ first_fault
        ((nat_lt (place + 1) count ⟹ DeckFaultKind.ColumnSplit) ∷
        (nat_eq place count && nat_le MAX_COLUMNS count ⟹ DeckFaultKind.TooManyColumns) ∷ []) }
{
    if 1 < count - place {
        Some(DeckFaultKind::ColumnSplit)
    } else if place == count && MAX_COLUMNS <= count {
        Some(DeckFaultKind::TooManyColumns)
    } else {
        None
    }
}

// Takes the pairs of a card into the items of a group.
fn take_measured(
    rows: &Rows,
    section: Section,
    items: &mut Entries,
    count: u32,
    card: &DataCard<'_>,
) -> Result<Lengths, CardStop<DeckFaultKind>>
    requires { count ≤ 100000 }
    ensures no_fault { OnOk result (pairs_fault (rows_alone rows.now) section items.old count
        (pairs_of (viewed card.now)) ≡ None) }
    ensures step { IfOk result (λ lengths. (items.new ≡ items.old ++ entries_of (viewed card.now)) ×
        (lengths.before ≡ length items.old) × (lengths.after ≡ length items.new)) }
    ensures stop { IfErr result
        (ReportsDeckFault (pairs_fault (rows_alone rows.now) section items.old count
        (pairs_of (viewed card.now)))) }
{
    let before = items.len();
    take_pairs(rows, section, items, count, card)?;
    let after = items.len();
    Ok(Lengths { before, after })
}

// Takes the pairs of a card into the group in its field 2, which is added last if it isn't there.
fn take_into(
    alloc: Global,
    rows: &Rows,
    section: Section,
    groups: &mut IndexMap<Name, Entries>,
    count: u32,
    card: &DataCard<'_>,
) -> Result<Lengths, CardStop<DeckFaultKind>>
    requires { count ≤ 100000 }
    ensures no_fault { OnOk result
        (pairs_fault (rows_alone rows.now) section (items_of card.now.name1
        (map group_at groups.old.entries)) count (pairs_of (viewed card.now)) ≡ None) }
    ensures put { IfOk result (λ lengths. IsPut card.now.name1
        (unwrap_or
        (lookup (same card.now.name1) groups.old.entries) [] ++ entries_of (viewed card.now))
        groups.old.entries groups.new.entries lengths.before lengths.after) }
    ensures stop { IfErr result (ReportsDeckFault
        (pairs_fault (rows_alone rows.now) section (items_of card.now.name1
        (map group_at groups.old.entries)) count (pairs_of (viewed card.now)))) }
{
    let items = groups.entry(card.name1)?.or_insert(Entries::new(alloc));
    take_measured(rows, section, items, count, card)
}

// Takes the pairs of a card into its column, which is the last or is added last.
fn take_column_into(
    alloc: Global,
    rows: &Rows,
    columns: &mut IndexMap<Name, Entries>,
    count: u32,
    card: &DataCard<'_>,
) -> Result<Lengths, CardStop<DeckFaultKind>>
    requires { count ≤ 100000 }
    ensures no_fault { OnOk result
        (column_fault (map group_at columns.old.entries) card.now.name1
        (pairs_fault (rows_alone rows.now) Columns (items_of card.now.name1
        (map group_at columns.old.entries)) count (pairs_of (viewed card.now))) ≡ None) }
    ensures put { IfOk result (λ lengths. IsPut card.now.name1
        (unwrap_or
        (lookup (same card.now.name1) columns.old.entries) [] ++ entries_of (viewed card.now))
        columns.old.entries columns.new.entries lengths.before lengths.after) }
    ensures stop { IfErr result (ReportsDeckFault
        (column_fault (map group_at columns.old.entries) card.now.name1
        (pairs_fault (rows_alone rows.now) Columns (items_of card.now.name1
        (map group_at columns.old.entries)) count (pairs_of (viewed card.now))))) }
{
    let before = columns.len();
    let entry = columns.entry(card.name1)?;
    let place = entry.index();
    if let Some(kind) = place_fault(place, before) {
        return Err(CardStop::Fault(kind));
    }
    let items = entry.or_insert(Entries::new(alloc));
    take_measured(rows, Section::Columns, items, count, card)
}

// Takes the items on a row out under all names.
fn remove_row_in(groups: &mut IndexMap<Name, Entries>, row: &Name)
    ensures left { map group_at groups.new.entries ≡ in_all (without_row row.now)
        (map group_at groups.old.entries) }
    ensures distinct { IsDistinct same (keys_of groups.new.entries) }
{
    groups.retain(
        |_name: &Name, items: &mut Entries| -> bool
            ensures { (result ≡ true) × (items.new ≡ without_row row.entry.now items.old) }
        {
            items.remove(row);
            true
        },
    );
}

// Takes out the names without items.
fn remove_empty_in(groups: &mut IndexMap<Name, Entries>)
    ensures left { map group_at groups.new.entries ≡ filled (map group_at groups.old.entries) }
    ensures distinct { IsDistinct same (keys_of groups.new.entries) }
{
    groups.retain(
        |_name: &Name, items: &mut Entries| -> bool
            ensures { (result ≡ not (is_none_left items.old)) × (items.new ≡ items.old) }
        { !items.is_empty() },
    );
}

impl Groups {
    pub fn new(alloc: Global) -> Groups
        ensures { result ≡ [] }
    {
        Groups {
            groups: IndexMap::new(alloc),
            count: 0,
        }
    }

    /// How many groups there are.
    #[tactic(auto, using(crate::proofs::Fronts::distinct_groups))]
    pub fn len(&self) -> usize
        ensures count { result ≡ length self.now }
        ensures distinct { IsDistinct same (group_names self.now) }
    {
        self.groups.len()
    }

    /// How many items all groups have.
    pub fn item_count(&self) -> u128
        ensures count { result ≡ sum_by (λ group. length group.items) self.now }
        ensures few { result + 1 < 2 ^ 128 }
    {
        let _names = self.groups.len();
        self.count
    }

    /// Whether a group of this name is there.
    #[tactic(auto, using(crate::proofs::Grouped::group_is_there))]
    pub fn has(&self, name: &Name) -> bool
        ensures { result ≡ has_group self.now name.now }
    {
        self.groups.contains_key(name)
    }

    /// The items of the group of this name, if it is there.
    pub fn items(&self, name: &Name) -> Option<&Entries>
        ensures { unwrap_or (option_copied result) [] ≡ items_of name.now self.now }
    {
        self.groups.get(name)
    }

    /// Whether an item of the group of this name stands on this row.
    pub fn has_item(&self, name: &Name, row: &Name) -> bool
        ensures { result ≡ has_entry (items_of name.now self.now) row.now }
    {
        match self.items(name) {
            Some(items) => items.has(row),
            None => false,
        }
    }

    /// Whether an item of any group stands on this row.
    pub fn any_on(&self, row: &Name) -> bool
        ensures { result ≡ list_any (λ group. has_entry group.items row.now) self.now }
    {
        any_on_row(&self.groups, row)
    }

    /// The number of the group of this name, from 1, or 0 where it isn't there.
    pub fn number_of(&self, name: &Name) -> usize
        ensures number { result ≡ number_in (group_names self.now) name.now }
        ensures within { result ≤ length self.now }
    {
        number_among(&self.groups, name)
    }

    /// The number of the group of this name, from 1, or 0 where it isn't there. It is looked up only where it doesn't stand at this
    /// place, from 0.
    pub fn number_at(&self, place: usize, name: &Name) -> u32
        requires { length self.now ≤ MAX_COLUMNS }
        ensures { result ≡ column_number self.now name.now }
    {
        number_from(&self.groups, place, name)
    }

    /// The groups with the numbers of their rows.
    pub fn numbered(&self, alloc: Global, rows: &Rows) -> Result<Vec<Group<DeckEntry>>, NoMemory>
        requires { length rows.now ≤ MAX_ROWS }
        ensures { IfOk result (λ list. list.items ≡ map
            (group_by (entry_by (row_number rows.now))) self.now) }
    {
        made_of_each(alloc, &self.groups, |name, entries| {
            Ok(Group {
                name: *name,
                items: entries.numbered(alloc, rows)?,
            })
        })
    }

    /// Puts a group of a new name at this place, or at the end where there are fewer.
    pub fn insert(&mut self, place: usize, name: Name, items: Entries) -> Result<(), AllocError>
        requires { has_group self.old name ≡ false }
        ensures { OnOk result (self.new ≡ insert self.old place
            (record { name = name; items = items })) }
    {
        let added = items.len();
        insert_new(&mut self.groups, place, name, items)?;
        let _names = self.groups.len();
        self.count += added as u128;
        Ok(())
    }

    /// Adds a group of a new name at the end.
    pub fn add(&mut self, name: Name, items: Entries) -> Result<(), AllocError>
        requires { has_group self.old name ≡ false }
        ensures { OnOk result (self.new ≡ self.old ++ record { name = name; items = items } ∷ []) }
    {
        let last = self.len();
        self.insert(last, name, items)
    }

    /// Takes the pairs of a card into the group in its field 2, which is added last if it isn't there. An `Err` leaves none.
    pub fn take(
        &mut self,
        alloc: Global,
        rows: &Rows,
        section: Section,
        count: u32,
        card: &DataCard<'_>,
    ) -> Result<(), CardStop<DeckFaultKind>>
        requires { count ≤ 100000 }
        ensures { TakesCard
            (pairs_fault (rows_alone rows.now) section (items_of card.now.name1 self.old) count
            (pairs_of (viewed card.now))) self.new
            (in_set card.now.name1 (λ items. items ++ entries_of (viewed card.now)) self.old)
            result }
    {
        let taken = take_into(alloc, rows, section, &mut self.groups, count, card);
        settle(&mut self.groups, &mut self.count, taken)
    }

    /// Takes the pairs of a card of COLUMNS into the column in its field 2, which is the last or is added last. An `Err` leaves none.
    pub fn take_column(
        &mut self,
        alloc: Global,
        rows: &Rows,
        count: u32,
        card: &DataCard<'_>,
    ) -> Result<(), CardStop<DeckFaultKind>>
        requires { count ≤ 100000 }
        ensures { TakesCard
            (column_fault self.old card.now.name1
            (pairs_fault (rows_alone rows.now) Columns (items_of card.now.name1 self.old) count
            (pairs_of (viewed card.now)))) self.new
            (in_set card.now.name1 (λ items. items ++ entries_of (viewed card.now)) self.old)
            result }
    {
        let taken = take_column_into(alloc, rows, &mut self.groups, count, card);
        settle(&mut self.groups, &mut self.count, taken)
    }

    /// Changes the items of the group in field 2 of a card as it says, or adds a group last that isn't there. An `Err` leaves none.
    pub fn change_or_add(
        &mut self,
        alloc: Global,
        change: EntryChange,
        card: &DataCard<'_>,
    ) -> Result<(), AllocError>
        requires { CanChange change (viewed card.now) (items_of card.now.name1 self.old) }
        ensures { OnOk result (self.new ≡ in_set card.now.name1
            (entries_changed change (viewed card.now)) self.old) }
    {
        let changed = change_under(alloc, change, card, &mut self.groups);
        settle(&mut self.groups, &mut self.count, changed)
    }

    /// Changes the items of the group in field 2 of a card as it says, if the group is there.
    pub fn change(
        &mut self,
        alloc: Global,
        change: EntryChange,
        card: &DataCard<'_>,
    ) -> Result<(), AllocError>
        requires { CanChange change (viewed card.now) (items_of card.now.name1 self.old) }
        ensures { OnOk result (self.new ≡ in_group card.now.name1
            (entries_changed change (viewed card.now)) self.old) }
    {
        if !self.has(&card.name1) {
            return Ok(());
        }
        self.change_or_add(alloc, change, card)
    }

    /// Takes out the group of this name.
    pub fn remove(&mut self, name: &Name)
        ensures { self.new ≡ without_group name.now self.old }
    {
        let before = count_under(&self.groups, name);
        self.groups.shift_remove(name);
        self.count = self.count.saturating_sub(before as u128);
    }

    /// Takes the items on a row out of all groups.
    pub fn remove_row(&mut self, row: &Name)
        ensures { self.new ≡ in_all (without_row row.now) self.old }
    {
        remove_row_in(&mut self.groups, row);
        self.count = count_of_all(&self.groups);
    }

    /// Takes out the groups without items.
    pub fn remove_empty(&mut self)
        ensures { self.new ≡ filled self.old }
    {
        remove_empty_in(&mut self.groups);
    }

    /// Takes out the group in field 2 of a card where field 3 is blank, and else its item on the row in field 3.
    pub fn delete(&mut self, alloc: Global, card: &DataCard<'_>) -> Result<(), AllocError>
        ensures { OnOk result (self.new ≡ delete_items without_row (viewed card.now) self.old) }
    {
        if is_blank(card.name2.bytes()) {
            self.remove(&card.name1);
            return Ok(());
        }
        self.change(alloc, EntryChange::Without, card)?;
        self.remove_empty();
        Ok(())
    }
}
