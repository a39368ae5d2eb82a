// The bounds of a set.
ghost use Rattle.std.specs.Prelude.{◌≡◌, ◌≤◌, ℕ, ◌++◌, ◌∷◌, [], None, ◌&&◌, ◌||◌, true, false, IfOk, IfSome, OnOk, Some, filter, map, not, length, is_some};
ghost use Rattle.std.specs.Prelude.{slice_get};
ghost use Rattle.std.specs.List.{list_any};
ghost use Rattle.card_definitions.specs.Words.{is_empty as is_none_left};
ghost use Rattle.problem_definitions.specs.Kinds.{meet, touches_upper, touches_lower};
ghost use Rattle.problem_definitions.specs.Names.{same};
ghost use Rattle.problem_definitions.specs.Numbering.{bound_by};
ghost use Rattle.problem_definitions.specs.Problem.{has_bound};
ghost use Rattle.deck_definitions.specs.DataCards.{bound_of};
ghost use Rattle.deck_definitions.specs.Tests.{is_bound_already};
ghost use Rattle.deck_fields.specs.Views.{viewed};
ghost use Rattle.named_problem.specs.Views.{bound_end_fault, column_number};
ghost use Rattle.revise_definitions.specs.Edits.{put_bound, without_column};
ghost use Rattle.named_problem.specs.Additions.{CanChangeBounds};
ghost use Rattle.named_problem.specs.Changes.{bounds_changed};
ghost use Rattle.named_problem.specs.NotedEnds.{held, is_at_end, is_at_end_there, AreNoted, AreEmptied, noted};

use crate::bound_sets::bound_value;
use crate::changes::BoundChange;
use crate::ends::{ColumnEnd, touches, touches_bottom, touches_top};
use crate::groups::Groups;
use crate::parts::NamedBound;
use deck_fields::DataCard;
use indexmap::IndexMap;
use name_table::Name;
use problem_definitions::{BoundKind, MAX_COLUMNS};
use problem_file::{BoundItem, NoMemory};
use std::alloc::{AllocError, Global};
use std::marker::Model;

/// Bounds in order. One that is taken out leaves an empty slot, and the slots are closed up once there are as many as `most`. Each
/// end of a column that a bound touches is noted with the bound's place.
#[derive(Drop)]
pub struct Bounds {
    slots: Vec<Option<NamedBound>>,
    most: usize,
    uppers: IndexMap<Name, usize>,
    lowers: IndexMap<Name, usize>,
}

impl Model for Bounds {
    ghost use Rattle.std.specs.Prelude.{List};
    ghost use Rattle.problem_definitions.specs.Names.{Name as Text};
    ghost use Rattle.problem_definitions.specs.Problem.{Bound};
    ghost use Rattle.named_problem.specs.declared.ends.ColumnEnd.TheVariants.{Upper, Lower};
    ghost use Rattle.named_problem.specs.NotedEnds.{held, AreNoted};

    ghost Value = { List (Bound Text) };

    ghost view = { λ bounds. held bounds.slots.items };

    ghost invariant = { λ bounds. AreNoted Upper bounds.uppers.entries bounds.slots.items ×
        AreNoted Lower bounds.lowers.entries bounds.slots.items };
}

// Whether the bound at a place touches this end of a column.
fn is_there(slots: &[Option<NamedBound>], place: usize, end: ColumnEnd, column: &Name) -> bool
    ensures { result ≡ is_at_end_there end column.now (slice_get slots.now place) }
{
    let Some(slot) = slots.get(place) else {
        return false;
    };
    match slot {
        Some(bound) => *column == bound.column && touches(end, bound.kind),
        None => false,
    }
}

// Whether a slot isn't empty.
fn any_held(slots: &[Option<NamedBound>]) -> bool
    ensures { result ≡ list_any is_some slots.now }
{
    slots.iter().any(|slot| slot.is_some())
}

// The place of the bound that touches this end of a column.
fn find_end(
    slots: &[Option<NamedBound>],
    places: &IndexMap<Name, usize>,
    end: ColumnEnd,
    column: &Name,
) -> Option<usize>
    requires { AreNoted end places.now.entries slots.now }
    ensures found { is_some result ≡ list_any (is_at_end end column.now) (held slots.now) }
    ensures place { IfSome result (λ place. is_at_end_there end column.now
        (slice_get slots.now place) ≡ true) }
    ensures only { IfSome result (λ place. (other : ℕ) → is_at_end_there end column.now
        (slice_get slots.now other) ≡ true → other ≡ place) }
{
    let Some(place) = places.get(column) else {
        return None;
    };
    if !is_there(slots, *place, end, column) {
        return None;
    }
    Some(*place)
}

// Empties the slot of the bound that touches this end of a column, if there is one.
fn empty_end(
    slots: &mut [Option<NamedBound>],
    places: &IndexMap<Name, usize>,
    end: ColumnEnd,
    column: &Name,
)
    requires { AreNoted end places.now.entries slots.old }
    ensures left { held slots.new ≡ filter (λ bound. not (is_at_end end column.now bound))
        (held slots.old) }
    ensures emptied { AreEmptied slots.old slots.new }
{
    if let Some(place) = find_end(slots, places, end, column) {
        slots[place] = None;
    }
}

// Notes the place of a bound under its column, where the bound touches the end whose places these are.
fn note(
    places: &mut IndexMap<Name, usize>,
    touches: bool,
    column: Name,
    place: usize,
) -> Result<(), AllocError>
    ensures { OnOk result (places.new.entries ≡ noted touches column place places.old.entries) }
{
    if !touches {
        return Ok(());
    }
    places.insert(column, place)?;
    Ok(())
}

// Adds a bound in a slot at the end, and notes its place.
fn add_slot(
    slots: &mut Vec<Option<NamedBound>>,
    uppers: &mut IndexMap<Name, usize>,
    lowers: &mut IndexMap<Name, usize>,
    bound: NamedBound,
) -> Result<(), AllocError>
    ensures slots { OnOk result (slots.new.items ≡ slots.old.items ++ Some bound ∷ []) }
    ensures uppers { OnOk result (uppers.new.entries ≡ noted (touches_upper bound.kind) bound.column
        (length slots.old.items) uppers.old.entries) }
    ensures lowers { OnOk result (lowers.new.entries ≡ noted (touches_lower bound.kind) bound.column
        (length slots.old.items) lowers.old.entries) }
{
    let place = slots.len();
    note(uppers, touches_top(bound.kind), bound.column, place)?;
    note(lowers, touches_bottom(bound.kind), bound.column, place)?;
    slots.push(Some(bound))?;
    Ok(())
}

// The bound of this type on a card in which no fault was found.
fn bound_from(kind: BoundKind, card: &DataCard<'_>) -> NamedBound
    requires { bound_end_fault (viewed card.now) kind ≡ None }
    ensures { result ≡ bound_of (viewed card.now) kind }
{
    match bound_value(kind, card) {
        Ok(value) => NamedBound {
            kind,
            column: card.name2,
            value,
        },
        Err(_) => unreachable!(),
    }
}

impl Bounds {
    pub fn new(alloc: Global) -> Bounds
        ensures { result ≡ [] }
    {
        Bounds {
            slots: Vec::new(alloc),
            most: 16,
            uppers: IndexMap::new(alloc),
            lowers: IndexMap::new(alloc),
        }
    }

    /// Whether there is no bound.
    pub fn is_empty(&self) -> bool
        ensures { result ≡ is_none_left self.now }
    {
        !any_held(&self.slots)
    }

    // Whether a bound touches this end of a column.
    fn has_end(&self, end: ColumnEnd, column: &Name) -> bool
        ensures { result ≡ list_any (is_at_end end column.now) self.now }
    {
        match end {
            ColumnEnd::Upper => find_end(
                &self.slots,
                &self.uppers,
                ColumnEnd::Upper,
                column,
            ).is_some(),
            ColumnEnd::Lower => find_end(
                &self.slots,
                &self.lowers,
                ColumnEnd::Lower,
                column,
            ).is_some(),
        }
    }

    // Whether a bound touches this end of a column, where the end matters.
    fn has_end_if(&self, matters: bool, end: ColumnEnd, column: &Name) -> bool
        ensures { result ≡ (matters && list_any (is_at_end end column.now) self.now) }
    {
        matters && self.has_end(end, column)
    }

    /// Whether a bound touches an end of this column that a bound of this type touches.
    pub fn has_met(&self, column: &Name, kind: BoundKind) -> bool
        ensures { result ≡ is_bound_already self.now column.now kind }
    {
        self.has_end_if(touches_top(kind), ColumnEnd::Upper, column)
            || self.has_end_if(touches_bottom(kind), ColumnEnd::Lower, column)
    }

    /// Whether a bound stands on this column.
    pub fn has(&self, column: &Name) -> bool
        ensures { result ≡ has_bound self.now column.now }
    {
        self.has_met(column, BoundKind::Fr)
    }

    /// Adds a bound at the end, whose ends no other touches. An `Err` leaves no bounds.
    pub fn add(&mut self, bound: NamedBound) -> Result<(), AllocError>
        requires { is_bound_already self.old bound.column bound.kind ≡ false }
        ensures { OnOk result (self.new ≡ self.old ++ bound ∷ []) }
    {
        match add_slot(&mut self.slots, &mut self.uppers, &mut self.lowers, bound) {
            Ok(()) => Ok(()),
            Err(stop) => {
                self.slots.clear();
                Err(stop)
            }
        }
    }

    // Takes out the bound that touches this end of a column.
    fn remove_end(&mut self, end: ColumnEnd, column: &Name)
        ensures { self.new ≡ filter (λ bound. not (is_at_end end column.now bound)) self.old }
    {
        match end {
            ColumnEnd::Upper => empty_end(&mut self.slots, &self.uppers, ColumnEnd::Upper, column),
            ColumnEnd::Lower => empty_end(&mut self.slots, &self.lowers, ColumnEnd::Lower, column),
        }
    }

    // Takes out the bound that touches this end of a column, where the end matters.
    fn remove_end_if(&mut self, matters: bool, end: ColumnEnd, column: &Name)
        ensures { self.new ≡ filter (λ bound. not (matters && is_at_end end column.now bound))
            self.old }
    {
        if matters {
            self.remove_end(end, column);
        }
    }

    // Takes out the bounds on a column that touch an end which a bound of this type touches.
    fn remove_met(&mut self, column: &Name, kind: BoundKind)
        ensures { self.new ≡ filter (λ other. not
            (same column.now other.column && meet kind other.kind)) self.old }
    {
        self.remove_end_if(touches_top(kind), ColumnEnd::Upper, column);
        self.remove_end_if(touches_bottom(kind), ColumnEnd::Lower, column);
    }

    /// Takes out the bounds on a column.
    pub fn remove(&mut self, column: &Name)
        ensures { self.new ≡ without_column column.now self.old }
    {
        self.remove_met(column, BoundKind::Fr);
    }

    // The same bounds without an empty slot.
    fn closed_up(&self, alloc: Global) -> Result<Bounds, AllocError>
        ensures { IfOk result (λ bounds. bounds ≡ self.now) }
    {
        let mut bounds = Bounds::new(alloc);
        for slot in &self.slots {
            match slot {
                Some(bound) => bounds.add(*bound)?,
                None => {}
            }
        }
        bounds.most = bounds.slots.len().saturating_mul(2).max(16);
        Ok(bounds)
    }

    // Closes the slots up if there are too many.
    fn close_up(&mut self, alloc: Global) -> Result<(), AllocError>
        ensures { OnOk result (self.new ≡ self.old) }
    {
        if self.slots.len() < self.most {
            return Ok(());
        }
        *self = self.closed_up(alloc)?;
        Ok(())
    }

    // Puts the bound of this type on a card at the end of those that touch none of its ends.
    fn put(&mut self, alloc: Global, kind: BoundKind, card: &DataCard<'_>) -> Result<(), AllocError>
        requires { bound_end_fault (viewed card.now) kind ≡ None }
        ensures { OnOk result (self.new ≡ put_bound (bound_of (viewed card.now) kind) self.old) }
    {
        let bound = bound_from(kind, card);
        self.remove_met(&card.name2, kind);
        self.close_up(alloc)?;
        self.add(bound)
    }

    /// Changes the bounds as a card says.
    pub fn change(
        &mut self,
        alloc: Global,
        change: BoundChange,
        card: &DataCard<'_>,
    ) -> Result<(), AllocError>
        requires { CanChangeBounds change (viewed card.now) }
        ensures { OnOk result (self.new ≡ bounds_changed change (viewed card.now) self.old) }
    {
        match change {
            BoundChange::Put(kind) => self.put(alloc, kind, card),
            BoundChange::Without => {
                self.remove(&card.name2);
                Ok(())
            }
        }
    }

    /// The bounds with the numbers of their columns.
    pub fn numbered(&self, alloc: Global, columns: &Groups) -> Result<Vec<BoundItem>, NoMemory>
        requires { length columns.now ≤ MAX_COLUMNS }
        ensures { IfOk result (λ list. list.items ≡ map
            (bound_by (column_number columns.now)) self.now) }
    {
        numbered_bounds(alloc, columns, &self.slots)
    }
}

// A bound with the number of its column, which is looked up only where the column doesn't stand at this place, from 0.
fn numbered_bound(columns: &Groups, place: usize, bound: &NamedBound) -> BoundItem
    requires { length columns.now ≤ MAX_COLUMNS }
    ensures { result ≡ bound_by (column_number columns.now) bound.now }
{
    BoundItem {
        kind: bound.kind,
        column: columns.number_at(place, &bound.column),
        value: bound.value,
    }
}

// Adds the bound in a slot, if it isn't empty, with the number of its column, which is tried after that of the last bound.
fn add_numbered(
    list: &mut Vec<BoundItem>,
    columns: &Groups,
    slot: &Option<NamedBound>,
) -> Result<(), NoMemory>
    requires { length columns.now ≤ MAX_COLUMNS }
    ensures { OnOk result (list.new.items ≡ list.old.items ++ map
        (bound_by (column_number columns.now)) (held (slot.now ∷ []))) }
{
    match slot {
        Some(bound) => {
            let next = match list.last() {
                Some(last) => last.column as usize,
                None => 0,
            };
            let item = numbered_bound(columns, next, bound);
            list.push(item).map_err(|_| NoMemory)
        }
        None => Ok(()),
    }
}

// The bounds in slots, with the numbers of their columns.
fn numbered_bounds(
    alloc: Global,
    columns: &Groups,
    slots: &[Option<NamedBound>],
) -> Result<Vec<BoundItem>, NoMemory>
    requires { length columns.now ≤ MAX_COLUMNS }
    ensures { IfOk result (λ list. list.items ≡ map (bound_by (column_number columns.now))
        (held slots.now)) }
{
    let mut list = Vec::new(alloc);
    for slot in slots {
        add_numbered(&mut list, columns, slot)?;
    }
    Ok(list)
}
