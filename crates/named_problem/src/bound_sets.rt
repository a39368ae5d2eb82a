// Sets of bounds.
ghost use Rattle.std.specs.Prelude.{◌≡◌, ◌≤◌, ◌++◌, ◌∷◌, [], None, Some, IfOk, OnOk, IfErr, true, false, map, length, not, if◌then◌else◌};
ghost use Rattle.card_definitions.specs.Numbers.{decimal_of};
ghost use Rattle.card_definitions.specs.Words.{is_empty as is_none_left};
ghost use Rattle.problem_definitions.specs.Kinds.{takes_value};
ghost use Rattle.deck_definitions.specs.DataCards.{bound_of, bound_group};
ghost use Rattle.deck_definitions.specs.Tests.{bound_value_fault, bounds_fault};
ghost use Rattle.deck_definitions.specs.Steps.{with_group};
ghost use Rattle.named_problem.specs.Taken.{TakesCard};
ghost use Rattle.problem_definitions.specs.Groups.{in_group, in_set, in_all, without_group, filled, items_of};
ghost use Rattle.problem_definitions.specs.Names.{same};
ghost use Rattle.problem_definitions.specs.Numbering.{bound_by, group_by};
ghost use Rattle.problem_definitions.specs.Problem.{has_group, has_bound};
ghost use Rattle.named_problem.specs.Views.{group_at, bounds_alone, bound_end_fault, bound_rest_fault, column_number};
ghost use Rattle.deck_fields.specs.Views.{viewed};
ghost use Rattle.revise_definitions.specs.Edits.{without_column, delete_items};
ghost use Rattle.named_problem.specs.Additions.{CanChangeBounds};
ghost use Rattle.named_problem.specs.Changes.{bounds_changed};

use crate::bounds::Bounds;
use crate::changes::BoundChange;
use crate::groups::Groups;
use crate::named::{insert_new, made_of_each};
use crate::pairs::number_in;
use crate::parts::NamedBound;
use deck_definitions::DeckFaultKind;
use deck_fields::{CardStop, DataCard, Decimal, bound_kind, has_value, is_blank};
use indexmap::IndexMap;
use name_table::Name;
use problem_definitions::{BoundKind, MAX_COLUMNS};
use problem_file::{BoundSet, Group, NoMemory};
use std::alloc::{AllocError, Global};
use std::marker::Model;

/// Sets of bounds in order.
#[derive(Drop)]
pub struct BoundSets {
    sets: IndexMap<Name, Bounds>,
}

impl Model for BoundSets {
    ghost use Rattle.std.specs.Prelude.{List, map};
    ghost use Rattle.std.specs.List.{IsDistinct};
    ghost use Rattle.std.specs.Map.{keys_of};
    ghost use Rattle.problem_definitions.specs.Names.{Name as Text, same};
    ghost use Rattle.problem_definitions.specs.Problem.{Bound, Group};
    ghost use Rattle.named_problem.specs.Views.{group_at};

    ghost Value = { List (Group (Bound Text)) };

    ghost view = { λ sets. map group_at sets.sets.entries };

    ghost invariant = { λ sets. IsDistinct same (keys_of sets.sets.entries) };
}

// The value on a card of BOUNDS, where its type takes one, or the fault of its value or of what stands after it.
pub fn bound_value(kind: BoundKind, card: &DataCard<'_>) -> Result<Option<Decimal>, DeckFaultKind>
    ensures value { IfOk result (λ v. v ≡ (if takes_value kind then Some
        (decimal_of card.now.value1.now) else None)) }
    ensures no_fault { OnOk result (bound_end_fault (viewed card.now) kind ≡ None) }
    ensures fault { IfErr result (λ fault. bound_end_fault (viewed card.now) kind ≡ Some fault) }
{
    let value = value_taken(kind, card)?;
    if has_second(card) {
        return Err(DeckFaultKind::ExtraField);
    }
    Ok(value)
}

// The value on a card of BOUNDS, where its type takes one.
fn value_taken(kind: BoundKind, card: &DataCard<'_>) -> Result<Option<Decimal>, DeckFaultKind>
    ensures value { IfOk result (λ v. v ≡ (if takes_value kind then Some
        (decimal_of card.now.value1.now) else None)) }
    ensures no_fault { OnOk result (bound_value_fault (viewed card.now) kind ≡ None) }
    ensures fault { IfErr result (λ fault. bound_value_fault (viewed card.now) kind ≡ Some fault) }
{
    if !has_value(kind) {
        return Ok(None);
    }
    let value = number_in(card.value1_column, card.value1)?;
    Ok(Some(value))
}

// Whether field 5 or 6 isn't blank.
fn has_second(card: &DataCard<'_>) -> bool
    ensures { result ≡ not (is_none_left (card.now.name3 ++ card.now.value2.now)) }
{
    !(is_blank(card.name3.bytes()) && is_blank(card.value2))
}

// Takes the bound on a card into the items of its set.
fn take_bound(
    items: &mut Bounds,
    kind: BoundKind,
    card: &DataCard<'_>,
) -> Result<(), CardStop<DeckFaultKind>>
    ensures { TakesCard (bound_rest_fault items.old (viewed card.now) kind) items.new
        (items.old ++ bound_of (viewed card.now) kind ∷ []) result }
{
    if items.has_met(&card.name2, kind) {
        return Err(CardStop::Fault(DeckFaultKind::BoundTwice));
    }
    let bound = NamedBound {
        kind,
        column: card.name2,
        value: bound_value(kind, card).map_err(CardStop::Fault)?,
    };
    items.add(bound)?;
    Ok(())
}

// Takes the bound on a card into the set in its field 2, which is added last if it isn't there.
fn take_bound_into(
    alloc: Global,
    sets: &mut IndexMap<Name, Bounds>,
    kind: BoundKind,
    card: &DataCard<'_>,
) -> Result<(), CardStop<DeckFaultKind>>
    ensures { TakesCard
        (bound_rest_fault (items_of card.now.name1 (map group_at sets.old.entries))
        (viewed card.now) kind) (map group_at sets.new.entries)
        (in_set card.now.name1 (λ items. items ++ bound_of (viewed card.now) kind ∷ [])
        (map group_at sets.old.entries)) result }
{
    let items = sets.entry(card.name1)?.or_insert(Bounds::new(alloc));
    take_bound(items, kind, card)
}

// Changes the bounds of the set in field 2 of a card as it says, or adds a set last that isn't there.
fn change_under(
    alloc: Global,
    change: BoundChange,
    card: &DataCard<'_>,
    sets: &mut IndexMap<Name, Bounds>,
) -> Result<(), AllocError>
    requires { CanChangeBounds change (viewed card.now) }
    ensures { OnOk result (map group_at sets.new.entries ≡ in_set card.now.name1
        (bounds_changed change (viewed card.now)) (map group_at sets.old.entries)) }
{
    let bounds = sets.entry(card.name1)?.or_insert(Bounds::new(alloc));
    bounds.change(alloc, change, card)
}

impl BoundSets {
    pub fn new(alloc: Global) -> BoundSets
        ensures { result ≡ [] }
    {
        BoundSets {
            sets: IndexMap::new(alloc),
        }
    }

    /// Whether a set of this name is there.
    #[tactic(auto, using(crate::proofs::Grouped::group_is_there))]
    pub fn has(&self, name: &Name) -> bool
        ensures { result ≡ has_group self.now name.now }
    {
        self.sets.contains_key(name)
    }

    /// Whether a bound of the set of this name stands on this column.
    pub fn has_bound(&self, name: &Name, column: &Name) -> bool
        ensures { result ≡ has_bound (items_of name.now self.now) column.now }
    {
        match self.sets.get(name) {
            Some(bounds) => bounds.has(column),
            None => false,
        }
    }

    /// The sets with the numbers of their columns.
    pub fn numbered(&self, alloc: Global, columns: &Groups) -> Result<Vec<BoundSet>, NoMemory>
        requires { length columns.now ≤ MAX_COLUMNS }
        ensures { IfOk result (λ list. list.items ≡ map
            (group_by (bound_by (column_number columns.now))) self.now) }
    {
        made_of_each(alloc, &self.sets, |name, bounds| {
            Ok(Group {
                name: *name,
                items: bounds.numbered(alloc, columns)?,
            })
        })
    }

    /// Adds a set of a new name at the end.
    pub fn add(&mut self, name: Name, bounds: Bounds) -> Result<(), AllocError>
        requires { has_group self.old name ≡ false }
        ensures { OnOk result (self.new ≡ self.old ++ record { name = name; items = bounds } ∷ []) }
    {
        let last = self.sets.len();
        insert_new(&mut self.sets, last, name, bounds)
    }

    // Takes the bound on a card into the set in its field 2, which is added last if it isn't there.
    fn take(
        &mut self,
        alloc: Global,
        kind: BoundKind,
        card: &DataCard<'_>,
    ) -> Result<(), CardStop<DeckFaultKind>>
        ensures { TakesCard
            (bound_rest_fault (items_of card.now.name1 self.old) (viewed card.now) kind) self.new
            (in_set card.now.name1 (λ items. items ++ bound_of (viewed card.now) kind ∷ [])
            self.old) result }
    {
        let taken = take_bound_into(alloc, &mut self.sets, kind, card);
        let _names = self.sets.len();
        taken
    }

    /// Changes the bounds of the set in field 2 of a card as it says, or adds a set last that isn't there.
    pub fn change_or_add(
        &mut self,
        alloc: Global,
        change: BoundChange,
        card: &DataCard<'_>,
    ) -> Result<(), AllocError>
        requires { CanChangeBounds change (viewed card.now) }
        ensures { OnOk result (self.new ≡ in_set card.now.name1
            (bounds_changed change (viewed card.now)) self.old) }
    {
        let changed = change_under(alloc, change, card, &mut self.sets);
        let _names = self.sets.len();
        changed
    }

    /// Changes the bounds of the set in field 2 of a card as it says, if the set is there.
    pub fn change(
        &mut self,
        alloc: Global,
        change: BoundChange,
        card: &DataCard<'_>,
    ) -> Result<(), AllocError>
        requires { CanChangeBounds change (viewed card.now) }
        ensures { OnOk result (self.new ≡ in_group card.now.name1
            (bounds_changed change (viewed card.now)) self.old) }
    {
        if !self.has(&card.name1) {
            return Ok(());
        }
        self.change_or_add(alloc, change, card)
    }

    /// Takes out the set of this name.
    pub fn remove(&mut self, name: &Name)
        ensures { self.new ≡ without_group name.now self.old }
    {
        self.sets.shift_remove(name);
    }

    /// Takes the bounds on a column out of all sets.
    pub fn remove_column(&mut self, column: &Name)
        ensures { self.new ≡ in_all (without_column column.now) self.old }
    {
        self.sets.retain(
            |_name: &Name, bounds: &mut Bounds| -> bool
                ensures { (result ≡ true) ×
                    (bounds.new ≡ without_column column.entry.now bounds.old) }
            {
                bounds.remove(column);
                true
            },
        );
    }

    /// Takes out the sets without bounds.
    pub fn remove_empty(&mut self)
        ensures { self.new ≡ filled self.old }
    {
        self.sets.retain(
            |_name: &Name, bounds: &mut Bounds| -> bool
                ensures { (result ≡ not (is_none_left bounds.old)) × (bounds.new ≡ bounds.old) }
            { !bounds.is_empty() },
        );
    }

    /// Takes out the set in field 2 of a card where field 3 is blank, and else its bounds on the column in field 3.
    pub fn delete(&mut self, alloc: Global, card: &DataCard<'_>) -> Result<(), AllocError>
        ensures { OnOk result (self.new ≡ delete_items without_column (viewed card.now) self.old) }
    {
        if is_blank(card.name2.bytes()) {
            self.remove(&card.name1);
            return Ok(());
        }
        self.change(alloc, BoundChange::Without, card)?;
        self.remove_empty();
        Ok(())
    }
}

/// Takes a card of BOUNDS.
pub fn take_bound_card(
    alloc: Global,
    columns: &Groups,
    sets: &mut BoundSets,
    card: &DataCard<'_>,
) -> Result<(), CardStop<DeckFaultKind>>
    ensures { TakesCard (bounds_fault (bounds_alone columns.now sets.old) (viewed card.now))
        sets.new (with_group (bound_group (viewed card.now)) sets.old) result }
{
    let Some(kind) = bound_kind(card.kind) else {
        return Err(CardStop::Fault(DeckFaultKind::BadBoundType));
    };
    if is_blank(card.name2.bytes()) {
        return Err(CardStop::Fault(DeckFaultKind::EmptyName));
    }
    if !columns.has(&card.name2) {
        return Err(CardStop::Fault(DeckFaultKind::UnknownColumn));
    }
    sets.take(alloc, kind, card)
}
