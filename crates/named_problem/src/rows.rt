// The rows of a problem.
ghost use Rattle.std.specs.Prelude.{◌≡◌, ◌≤◌, ◌++◌, ◌∷◌, [], true, false, is_some, map, filter, not, insert, length, take, nat_lt, ◌&&◌, unwrap_or, option_map};
ghost use Rattle.std.specs.Prelude.{IfOk, OnOk, IfSome, IfNone};
ghost use Rattle.std.specs.List.{IsDistinct, position_or_len};
ghost use Rattle.std.specs.Map.{keys_of};
ghost use Rattle.std.specs.Option.{option_copied, option_to_list};
ghost use Rattle.problem_definitions.specs.Kinds.{is_free_kind};
ghost use Rattle.problem_definitions.specs.Names.{same, number_in};
ghost use Rattle.problem_definitions.specs.Problem.{has_row, has_free_row, has_combination};
ghost use Rattle.problem_definitions.specs.Parts.{parts_of, with_parts, in_row};
ghost use Rattle.problem_definitions.specs.Numbering.{entry_by, row_by};
ghost use Rattle.deck_definitions.specs.DataCards.{parts_on, part_pairs_of, goes_on_last};
ghost use Rattle.deck_fields.specs.Views.{viewed};
ghost use Rattle.revise_definitions.specs.Edits.{modify_row, without_row};
ghost use Rattle.named_problem.specs.Additions.{AreNumbers, AreNew};
ghost use Rattle.named_problem.specs.Views.{row_number};
ghost use Rattle.named_problem.specs.Bodies.{row_at, body_with, body_retyped};

use crate::entries::Entries;
use crate::kinds::kind_on;
use crate::named::{insert_new, made_of_each};
use crate::numbers::{number_among, number_from};
use deck_fields::{DataCard, is_card_of};
use indexmap::IndexMap;
use name_table::Name;
use problem_definitions::{MAX_ROWS, RowKind};
use problem_file::{DeckEntry, NoMemory, RowDecl};
use std::alloc::{AllocError, Global};
use std::marker::Model;

/// A row that is there: its place among the rows, from 0, its type, and whether it is a combination.
#[derive(Clone, Copy)]
pub struct FoundRow {
    pub place: usize,
    pub kind: RowKind,
    pub is_combination: bool,
}

/// What a row is beside its name: its type, and of a combination its parts.
#[derive(Drop)]
pub struct RowBody {
    pub kind: RowKind,
    pub parts: Option<Entries>,
}

impl RowBody {
    // Adds the parts on a card at the end, where the row is a combination.
    fn append(&mut self, card: &DataCard<'_>) -> Result<(), AllocError>
        requires { AreNew (unwrap_or self.old.parts []) (part_pairs_of (viewed card.now)) }
        ensures { OnOk result (self.new ≡ body_with (λ parts. parts ++ parts_on (viewed card.now))
            self.old) }
    {
        match &mut self.parts {
            Some(parts) => parts.append_parts(card),
            None => Ok(()),
        }
    }

    // Gives the row the type on a card, if there is such a type, and puts the parts on the card in, where the row is a combination.
    fn modify(&mut self, card: &DataCard<'_>) -> Result<(), AllocError>
        requires { is_some self.old.parts ≡ true → AreNumbers (part_pairs_of (viewed card.now)) }
        ensures { OnOk result (self.new ≡ body_retyped (viewed card.now) self.old) }
    {
        self.kind = kind_on(card).unwrap_or(self.kind);
        match &mut self.parts {
            Some(parts) => parts.put_parts(card),
            None => Ok(()),
        }
    }

    // Takes out the part on a row.
    fn remove_part(&mut self, row: &Name)
        ensures { self.new ≡ body_with (without_row row.now) self.old }
    {
        if let Some(parts) = &mut self.parts {
            parts.remove(row);
        }
    }
}

/// Rows in order.
#[derive(Drop)]
pub struct Rows {
    rows: IndexMap<Name, RowBody>,
}

impl Model for Rows {
    ghost use Rattle.std.specs.Prelude.{List, map};
    ghost use Rattle.std.specs.List.{IsDistinct};
    ghost use Rattle.std.specs.Map.{keys_of};
    ghost use Rattle.problem_definitions.specs.Names.{Name as Text, same};
    ghost use Rattle.problem_definitions.specs.Problem.{Row};
    ghost use Rattle.named_problem.specs.Additions.{AreNumbers, AreNew};
    ghost use Rattle.named_problem.specs.Bodies.{row_at};

    ghost Value = { List (Row Text) };

    ghost view = { λ rows. map row_at rows.rows.entries };

    ghost invariant = { λ rows. IsDistinct same (keys_of rows.rows.entries) };
}

impl Rows {
    pub fn new(alloc: Global) -> Rows
        ensures { result ≡ [] }
    {
        Rows {
            rows: IndexMap::new(alloc),
        }
    }

    /// How many rows there are.
    pub fn len(&self) -> usize
        ensures { result ≡ length self.now }
    {
        self.rows.len()
    }

    /// Whether a row of this name is there.
    #[tactic(auto, using(crate::proofs::Keyed::row_is_there))]
    pub fn has(&self, name: &Name) -> bool
        ensures { result ≡ has_row self.now name.now }
    {
        self.rows.contains_key(name)
    }

    /// The row of this name.
    pub fn find(&self, name: &Name) -> Option<FoundRow>
        ensures found { is_some result ≡ has_row self.now name.now }
        ensures free { IfSome result (λ row. has_free_row self.now name.now ≡
            is_free_kind row.kind) }
        ensures combination { IfSome result (λ row. has_combination self.now name.now ≡
            row.is_combination) }
    {
        match self.rows.get_full(name) {
            Some((place, _, body)) => Some(FoundRow {
                place,
                kind: body.kind,
                is_combination: body.parts.is_some(),
            }),
            None => None,
        }
    }

    /// Whether a card of ROWS goes on with the last row, which is then a combination of the card's type and name.
    pub fn goes_on(&self, card: &DataCard<'_>) -> bool
        ensures { result ≡ goes_on_last self.now (viewed card.now) }
    {
        match self.rows.last() {
            Some((name, body)) => body.parts.is_some() && is_card_of(body.kind, name, card),
            None => false,
        }
    }

    /// Whether a combination of this name is there.
    pub fn has_combination(&self, name: &Name) -> bool
        ensures { result ≡ has_combination self.now name.now }
    {
        match self.rows.get(name) {
            Some(body) => body.parts.is_some(),
            None => false,
        }
    }

    /// The parts of the row of this name, if it is a combination that is there.
    pub fn parts(&self, name: &Name) -> Option<&Entries>
        ensures { unwrap_or (option_copied result) [] ≡ parts_of name.now self.now }
    {
        match self.rows.get(name) {
            Some(body) => body.parts.as_ref(),
            None => None,
        }
    }

    /// The number of the row of this name, from 1, or 0 where it isn't there.
    pub fn number_of(&self, name: &Name) -> usize
        ensures number { result ≡ number_in (map (λ row. row.name) self.now) name.now }
        ensures within { result ≤ length self.now }
    {
        number_among(&self.rows, name)
    }

    /// The place of the row of this name, from 0, or how many rows there are where it isn't there.
    pub fn place_of(&self, name: &Name) -> usize
        ensures { result ≡ position_or_len (λ row. same name.now row.name) self.now }
    {
        match self.rows.get_index_of(name) {
            Some(place) => place,
            None => self.rows.len(),
        }
    }

    /// Whether the row of this name is among the first, up to a limit.
    pub fn stands_before(&self, name: &Name, limit: usize) -> bool
        ensures { result ≡ has_row (take limit self.now) name.now }
    {
        let place = self.place_of(name);
        let count = self.len();
        is_below(place, count, limit)
    }

    /// The number of the row of this name, from 1, or 0 where it isn't there. It is looked up only where it doesn't stand at this
    /// place, from 0.
    pub fn number_at(&self, place: usize, name: &Name) -> u32
        requires { length self.now ≤ MAX_ROWS }
        ensures { result ≡ row_number self.now name.now }
    {
        number_from(&self.rows, place, name)
    }

    /// The rows as a problem has them.
    pub fn decls(&self, alloc: Global) -> Result<Vec<RowDecl>, NoMemory>
        requires { length self.now ≤ MAX_ROWS }
        ensures { IfOk result (λ decls. decls.items ≡ map (row_by (row_number self.now)) self.now) }
    {
        made_of_each(alloc, &self.rows, |name, body| {
            Ok(RowDecl {
                kind: body.kind,
                name: *name,
                parts: numbered_parts(alloc, self, &body.parts)?,
            })
        })
    }

    /// Puts a row of a new name at this place, or at the end where there are fewer.
    pub fn insert(
        &mut self,
        place: usize,
        kind: RowKind,
        name: Name,
        parts: Option<Entries>,
    ) -> Result<(), AllocError>
        requires { has_row self.old name ≡ false }
        ensures { OnOk result (self.new ≡ insert self.old place
            (record { kind = kind; name = name; parts = parts })) }
    {
        insert_new(&mut self.rows, place, name, RowBody { kind, parts })
    }

    /// Adds a row of a new name at the end.
    pub fn add(
        &mut self,
        kind: RowKind,
        name: Name,
        parts: Option<Entries>,
    ) -> Result<(), AllocError>
        requires { has_row self.old name ≡ false }
        ensures { OnOk result (self.new ≡ self.old ++ record
            { kind = kind; name = name; parts = parts } ∷ []) }
    {
        let last = self.len();
        self.insert(last, kind, name, parts)
    }

    /// Adds the parts on a card to the combination that the card names.
    pub fn append_parts(&mut self, card: &DataCard<'_>) -> Result<(), AllocError>
        requires { AreNew (parts_of card.now.name1 self.old) (part_pairs_of (viewed card.now)) }
        ensures { OnOk result (self.new ≡ in_row card.now.name1
            (λ parts. parts ++ parts_on (viewed card.now)) self.old) }
    {
        let appended = append_under(&mut self.rows, card);
        let _names = self.rows.len();
        appended
    }

    /// Gives the row that a card names the type in its field 1, if there is such a type, and a combination the parts on the card.
    pub fn modify(&mut self, card: &DataCard<'_>) -> Result<(), AllocError>
        requires { has_combination self.old card.now.name1 ≡ true → AreNumbers
            (part_pairs_of (viewed card.now)) }
        ensures { OnOk result (self.new ≡ modify_row (viewed card.now) self.old) }
    {
        let modified = modify_under(&mut self.rows, card);
        let _names = self.rows.len();
        modified
    }

    /// Takes the last row out, with what it is made of.
    pub fn take_last(&mut self) -> Option<(Name, RowBody)>
        ensures rows { self.old ≡ self.new ++ option_to_list (option_map row_at result) }
        ensures none { IfNone result (self.old ≡ []) }
        ensures apart { IfSome result (λ row. has_row self.new row.0 ≡ false) }
    {
        self.rows.pop()
    }

    /// Takes out the row of this name, and the parts on it.
    pub fn remove(&mut self, name: &Name)
        ensures { self.new ≡ map (with_parts (without_row name.now))
            (filter (λ row. not (same name.now row.name)) self.old) }
    {
        self.rows.shift_remove(name);
        remove_parts_in(&mut self.rows, name);
    }
}

// Whether a place is below both of two others.
fn is_below(place: usize, one: usize, other: usize) -> bool
    ensures { result ≡ (nat_lt place one && nat_lt place other) }
{
    place < one && place < other
}

// Adds the parts on a card to the row in its field 2, if it is a combination that is there.
fn append_under(rows: &mut IndexMap<Name, RowBody>, card: &DataCard<'_>) -> Result<(), AllocError>
    requires { AreNew (parts_of card.now.name1 (map row_at rows.old.entries))
        (part_pairs_of (viewed card.now)) }
    ensures { OnOk result (map row_at rows.new.entries ≡ in_row card.now.name1
        (λ parts. parts ++ parts_on (viewed card.now)) (map row_at rows.old.entries)) }
{
    let Some(body) = rows.get_mut(&card.name1) else {
        return Ok(());
    };
    body.append(card)
}

// Gives the row in field 2 of a card what the card says, if it is there.
fn modify_under(rows: &mut IndexMap<Name, RowBody>, card: &DataCard<'_>) -> Result<(), AllocError>
    requires { has_combination (map row_at rows.old.entries) card.now.name1 ≡ true → AreNumbers
        (part_pairs_of (viewed card.now)) }
    ensures { OnOk result (map row_at rows.new.entries ≡ modify_row (viewed card.now)
        (map row_at rows.old.entries)) }
{
    let Some(body) = rows.get_mut(&card.name1) else {
        return Ok(());
    };
    body.modify(card)
}

// Takes the parts on a row out of all rows.
fn remove_parts_in(rows: &mut IndexMap<Name, RowBody>, row: &Name)
    ensures left { map row_at rows.new.entries ≡ map (with_parts (without_row row.now))
        (map row_at rows.old.entries) }
    ensures distinct { IsDistinct same (keys_of rows.new.entries) }
{
    rows.retain(
        |_name: &Name, body: &mut RowBody| -> bool
            ensures { (result ≡ true) × (body.new ≡ body_with (without_row row.entry.now)
                body.old) }
        {
            body.remove_part(row);
            true
        },
    );
}

// The parts of a row, if it is a combination, with the numbers of their rows.
fn numbered_parts(
    alloc: Global,
    rows: &Rows,
    parts: &Option<Entries>,
) -> Result<Option<Vec<DeckEntry>>, NoMemory>
    requires { length rows.now ≤ MAX_ROWS }
    ensures { IfOk result (λ numbered. option_map (λ parts. parts.items) numbered ≡ option_map
        (map (entry_by (row_number rows.now))) parts.now) }
{
    match parts {
        Some(parts) => Ok(Some(parts.numbered(alloc, rows)?)),
        None => Ok(None),
    }
}

/// Whether a row of this type has no limits.
pub fn is_free(kind: RowKind) -> bool
    ensures { result ≡ is_free_kind kind }
{
    match kind {
        RowKind::N => true,
        RowKind::G | RowKind::L | RowKind::E => false,
    }
}
