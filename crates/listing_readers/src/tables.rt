// Tables of a listing, line by line.
ghost use Rattle.std.specs.Prelude.{◌≡◌, ◌+◌, ◌^◌, ◌≤◌, ◌<◌, None, option_map, map, IfOk, ℕ};
ghost use Rattle.lp_definitions.specs.LinearProgram.{IsVariable, numbers_from};
ghost use Rattle.listing_words.specs.Read.{sheet_view};
ghost use Rattle.listing_claims.specs.Numbers.{number_in};
ghost use Rattle.listing_readers.specs.Results.{IfRead};
ghost use Rattle.listing_readers.specs.Tables.{slots_of, numbers_of, at_place, with_number, no_numbers, slot_view, numbers_in, solution_slots, MayRead};
ghost use Rattle.listing_readers.specs.Tables.{AreRead, IsSlotTaken, IsLineRead, IsTableRead};

use crate::lines::{code, known_limit, number, take_head};
use crate::unread::Unread;
use frac128::Frac;
use listing_claims::{By, Checks};
use listing_tables::{Sheet, row_count};
use listing_words::{Cursor, Number};
use lp_model::{Lp, NoMemory};
use std::alloc::Global;

/// What stands in the lines of a table that is read.
#[derive(Clone, Copy, Debug, PartialEq, Eq)]
pub enum Shape {
    /// A multiplier.
    Multiplier,
    /// Two numbers.
    Pair,
    /// Where a variable stands in an interval, its value and its price, each with its rate.
    Part,
    /// Where a row stands, its activity, its slack, its limits and its multiplier.
    Row,
    /// Where a column stands, its activity, its cost, its limits and its reduced cost.
    Column,
}

/// The numbers of a line that aren't known before: a multiplier; two numbers; a value, its rate, a price and its rate; or an activity, a
/// price and a slack. The others are 0.
#[derive(Drop)]
pub struct Numbers<'a> {
    pub first: Number<'a>,
    pub second: Number<'a>,
    pub third: Number<'a>,
    pub fourth: Number<'a>,
}

/// Which of the numbers of a line.
#[derive(Clone, Copy, Debug, PartialEq, Eq)]
pub enum Place {
    First,
    Second,
    Third,
    Fourth,
}

impl<'a> Numbers<'a> {
    // None was read.
    fn zeros() -> Numbers<'a>
        ensures { result ≡ no_numbers }
    {
        Numbers {
            first: Number::zero(),
            second: Number::zero(),
            third: Number::zero(),
            fourth: Number::zero(),
        }
    }

    // The number at a place.
    fn at(&self, place: Place) -> Number<'a>
        ensures { result ≡ at_place place self.now }
    {
        match place {
            Place::First => self.first.again(),
            Place::Second => self.second.again(),
            Place::Third => self.third.again(),
            Place::Fourth => self.fourth.again(),
        }
    }

    // Puts a number at a place.
    fn put(&mut self, place: Place, number: Number<'a>)
        ensures { self.new ≡ with_number place number.entry self.old }
    {
        match place {
            Place::First => self.first = number,
            Place::Second => self.second = number,
            Place::Third => self.third = number,
            Place::Fourth => self.fourth = number,
        }
    }
}

/// What stands at a place of a line: any code; any number, which is kept there; or this limit alone.
#[derive(Clone, Copy)]
pub enum Slot {
    Code,
    Number(Place),
    Known(Option<Frac>),
}

// Takes what stands at a place of a line.
fn take_slot<'a, T: Checks>(
    alloc: Global,
    cursor: &mut Cursor<'a>,
    by: By,
    slot: &Slot,
    numbers: &mut Numbers<'a>,
) -> Result<(), Unread>
    ensures { IfRead result
        (IsSlotTaken (number_in T.checker by) slot.now cursor.old cursor.new numbers.old numbers.new) }
{
    match slot {
        Slot::Code => {
            let _at = code(cursor)?;
            Ok(())
        }
        Slot::Number(place) => {
            let number = number::<T>(alloc, cursor, by)?;
            numbers.put(*place, number);
            Ok(())
        }
        Slot::Known(limit) => {
            if known_limit(cursor, *limit) {
                Ok(())
            } else {
                Err(Unread::Absent)
            }
        }
    }
}

// Takes what stands at the places of a line, one after another.
fn take_slots<'a, T: Checks>(
    alloc: Global,
    cursor: &mut Cursor<'a>,
    by: By,
    slots: &[Slot],
) -> Result<Numbers<'a>, Unread>
    ensures { IfRead result
        (AreRead (number_in T.checker by) (numbers_in slots.now)
        (map slot_view slots.now) cursor.old cursor.new) }
{
    let mut numbers = Numbers::zeros();
    for slot in slots {
        match take_slot::<T>(alloc, cursor, by, slot, &mut numbers) {
            Ok(()) => {}
            Err(stop) => return Err(stop),
        }
    }
    Ok(numbers)
}

// The places of a line of SOLUTION: where variable `k` stands, its activity, a third, its limits, and its multiplier or reduced cost.
fn solution_slots(lp: &Lp, k: u32, third: Slot) -> [Slot; 6]
    requires { IsVariable lp.now.matrix k }
    ensures { result ≡ solution_slots lp.now k third }
{
    [
        Slot::Code,
        Slot::Number(Place::First),
        third,
        Slot::Known(lp.lower_limit(k)),
        Slot::Known(lp.upper_limit(k)),
        Slot::Number(Place::Second),
    ]
}

// The values of the line of variable `k`.
fn values<'a, T: Checks>(
    alloc: Global,
    cursor: &mut Cursor<'a>,
    by: By,
    sheet: Sheet<'_>,
    shape: Shape,
    k: u32,
) -> Result<Numbers<'a>, Unread>
    requires { MayRead sheet shape k }
    ensures { IfRead result
        (AreRead (number_in T.checker by) (numbers_of shape)
        (slots_of shape (sheet_view sheet.entry) k) cursor.old cursor.new) }
{
    match shape {
        Shape::Multiplier => take_slots::<T>(alloc, cursor, by, &[Slot::Number(Place::First)]),
        Shape::Pair => take_slots::<T>(
            alloc,
            cursor,
            by,
            &[Slot::Number(Place::First), Slot::Number(Place::Second)],
        ),
        Shape::Part => take_slots::<T>(
            alloc,
            cursor,
            by,
            &[
                Slot::Code,
                Slot::Number(Place::First),
                Slot::Number(Place::Second),
                Slot::Number(Place::Third),
                Slot::Number(Place::Fourth),
            ],
        ),
        Shape::Row => {
            let slots = solution_slots(sheet.lp, k, Slot::Number(Place::Third));
            take_slots::<T>(alloc, cursor, by, &slots)
        }
        Shape::Column => {
            let cost = sheet.lp.cost(k - row_count(sheet.lp));
            let slots = solution_slots(sheet.lp, k, Slot::Known(Some(cost)));
            take_slots::<T>(alloc, cursor, by, &slots)
        }
    }
}

/// The line of variable `k`.
pub fn line<'a, T: Checks>(
    alloc: Global,
    cursor: &mut Cursor<'a>,
    by: By,
    sheet: Sheet<'_>,
    shape: Shape,
    k: u32,
) -> Result<Numbers<'a>, Unread>
    requires { MayRead sheet shape k }
    ensures { IfRead result
        (IsLineRead (number_in T.checker by)
        (sheet_view sheet.entry) shape k cursor.old cursor.new) }
{
    if !take_head(cursor, sheet, k) {
        return Err(Unread::Absent);
    }
    let numbers = values::<T>(alloc, cursor, by, sheet, shape, k)?;
    if !cursor.take(b"\n") {
        return Err(Unread::Absent);
    }
    Ok(numbers)
}

/// The lines of so many variables after those that stand before them.
pub fn table<'a, T: Checks>(
    alloc: Global,
    cursor: &mut Cursor<'a>,
    by: By,
    sheet: Sheet<'_>,
    shape: Shape,
    before: u32,
    count: u32,
) -> Result<Option<Vec<Numbers<'a>>>, NoMemory>
    requires lines { (k : ℕ) → before < k → k ≤ before + count → MayRead sheet shape k }
    requires fits { before + count < 2 ^ 32 }
    ensures { IfOk result
        (λ found. IsTableRead (number_in T.checker by) (sheet_view sheet.entry) shape
        (numbers_from (before + 1) count)
        cursor.old cursor.new (option_map (λ table. table.items) found)) }
{
    let mut table = Vec::new(alloc);
    for i in 0..count {
        match line::<T>(alloc, cursor, by, sheet, shape, before + i + 1) {
            Ok(numbers) => table.push(numbers).map_err(|_| NoMemory)?,
            Err(Unread::Absent) => return Ok(None),
            Err(Unread::NoMemory) => return Err(NoMemory),
        }
    }
    Ok(Some(table))
}

/// The numbers at a place of a table's lines.
pub fn numbers_at<'a>(
    alloc: Global,
    table: &[Numbers<'a>],
    place: Place,
) -> Result<Vec<Number<'a>>, NoMemory>
    ensures { IfOk result (λ values. values.items ≡ map (at_place place) table.now) }
{
    Ok(
        table
            .iter()
            .map(|numbers| numbers.at(place))
            .collect(alloc)?,
    )
}
