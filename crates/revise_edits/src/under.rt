// The data cards under an action.
ghost use Rattle.std.specs.Prelude.{◌≡◌, ◌+◌, ◌-◌, ◌&&◌, [], None, Some, OnOk, IfSome, min, length, IfErr, if◌then◌else◌};
ghost use Rattle.card_definitions.specs.Words.{is_empty};
ghost use Rattle.deck_fields.specs.Views.{viewed};
ghost use Rattle.revise_edits.specs.Summary.{combination_on, goes_on_from, goes_on_row_from, with_card_under, place_at};

use deck_fields::{DataCard, combination_kind, is_blank, is_card_of};
use indexmap::IndexSet;
use name_table::Name;
use named_problem::{CardStop, DeckFaultKind};
use problem_definitions::RowKind;
use revise_definitions::Action;
use std::alloc::Global;
use std::marker::Model;

/// What is known of the data cards so far under an action: the name on its card, how many rows they begin as cards of ROWS, the
/// different names in their fields 2, the last of these, and the type and the name of the combination on the last card.
#[derive(Drop)]
pub struct UnderAction {
    anchor: Name,
    there: usize,
    names: IndexSet<Name>,
    last: Option<Name>,
    combination: Option<(RowKind, Name)>,
}

impl Model for UnderAction {
    ghost use Rattle.revise_edits.specs.Summary.{Under};

    ghost Value = { Under };

    ghost view = { λ under. record { anchor = under.anchor; there = under.there; names = under.names.keys; last = under.last; combination = under.combination } };
}

/// A data card under an action, after those that came before it under the same.
#[derive(Clone, Copy)]
pub struct CardUnder<'a> {
    pub action: Action,
    pub under: &'a UnderAction,
    pub card: &'a DataCard<'a>,
}

// The type and the name on a card of ROWS, if it makes a combination or goes on with one.
fn combination_on(card: &DataCard<'_>) -> Option<(RowKind, Name)>
    ensures { result ≡ combination_on (viewed card.now) }
{
    match combination_kind(card.kind) {
        Some(kind) => Some((kind, card.name1)),
        None => None,
    }
}

// How many rows are begun with one more card, which goes on with the card before or begins a row.
fn more_begun(there: usize, goes_on: bool) -> Option<usize>
    ensures { IfSome result (λ more. more ≡ there + (if goes_on then 0 else 1)) }
{
    if goes_on {
        Some(there)
    } else {
        there.checked_add(1)
    }
}

impl UnderAction {
    /// After the card of an action that gives this name.
    pub fn new(alloc: Global, anchor: Name) -> UnderAction
        ensures { result ≡ record
            { anchor = anchor; there = 0; names = []; last = None; combination = None } }
    {
        UnderAction {
            anchor,
            there: 0,
            names: IndexSet::new(alloc),
            last: None,
            combination: None,
        }
    }

    /// The name on the action's card.
    pub fn anchor(&self) -> Name
        ensures { result ≡ self.now.anchor }
    {
        self.anchor
    }

    /// How many rows the data cards begin as cards of ROWS.
    pub fn there(&self) -> usize
        ensures { result ≡ self.now.there }
    {
        self.there
    }

    /// How many different names they had in field 2.
    pub fn name_count(&self) -> usize
        ensures { result ≡ length self.now.names }
    {
        self.names.len()
    }

    /// Whether a card has the name of the last in field 2.
    pub fn goes_on(&self, card: &DataCard<'_>) -> bool
        ensures { result ≡ goes_on_from self.now (viewed card.now) }
    {
        match self.last {
            Some(last) => card.name1 == last,
            None => false,
        }
    }

    /// Whether a card of ROWS goes on with the combination on the last.
    pub fn goes_on_row(&self, card: &DataCard<'_>) -> bool
        ensures { result ≡ goes_on_row_from self.now (viewed card.now) }
    {
        match self.combination {
            Some(made) => is_card_of(made.0, &made.1, card),
            None => false,
        }
    }

    /// One more data card.
    pub fn add(&mut self, card: &DataCard<'_>) -> Result<(), CardStop<DeckFaultKind>>
        ensures added { OnOk result (self.new ≡ with_card_under self.old (viewed card.now)) }
        ensures stop { IfErr result (λ stop. stop ≡ CardStop.NoMemory) }
    {
        let Some(there) = more_begun(self.there, self.goes_on_row(card)) else {
            return Err(CardStop::NoMemory);
        };
        self.names.insert(card.name1)?;
        self.there = there;
        self.last = Some(card.name1);
        self.combination = combination_on(card);
        Ok(())
    }
}

/// The place of the next new thing among so many, where so many stand there already and the anchor has this number; their end, where
/// it is further on.
pub fn place_for(action: Action, anchor: &Name, there: usize, count: usize, number: usize) -> usize
    ensures { result ≡ min (place_at action anchor.now there count number) count }
{
    match action {
        Action::After => place_after(anchor, there, count, number),
        _ => place_before(anchor, there, number).min(count),
    }
}

// The place after those that stand after the anchor of this number, or the end.
fn place_after(anchor: &Name, there: usize, count: usize, number: usize) -> usize
    ensures { result ≡ min (if is_empty anchor.now then count else number + there) count }
{
    if is_blank(anchor.bytes()) {
        return count;
    }
    number.saturating_add(there).min(count)
}

// The place before the anchor of this number, or after those that stand at the front already.
fn place_before(anchor: &Name, there: usize, number: usize) -> usize
    ensures { result ≡ (if is_empty anchor.now then there else number - 1) }
{
    if is_blank(anchor.bytes()) {
        return there;
    }
    number.saturating_sub(1)
}
