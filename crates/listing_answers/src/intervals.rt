// The intervals of a parametric run.
ghost use Rattle.std.specs.Prelude.{◌≡◌, IfOk, nat_eq};
ghost use Rattle.listing_definitions.specs.Numbers.{digits};
ghost use Rattle.listing_tables.specs.Sheets.{IsSheet};
ghost use Rattle.parametric_request.specs.Asking.{changing_of};
ghost use Rattle.walk_definitions.specs.Words.{left_after};
ghost use Rattle.walk_definitions.specs.Tests.{interval_test};
ghost use Rattle.walk_definitions.specs.Reading.{interval_in, tested_by};
ghost use Rattle.listing_words.specs.Read.{taken, sheet_view};
ghost use Rattle.listing_claims.specs.Asked.{IsAskedOf};
ghost use Rattle.listing_claims.specs.Numbers.{number_in};
ghost use Rattle.listing_answers.specs.Readers.{IsRead};
ghost use Rattle.listing_answers.specs.Intervals.{part_head, IsPartEnd, AreColumns, columns_in, IsPart};
ghost use Rattle.listing_answers.specs.Taken.{Taken, IsReadBy};

use crate::reader::{Read, Reader};
use crate::unread::stop_unread;
use crate::words::take_each;
use itoa::Buffer;
use listing_claims::{AskedRun, By, Checks, Columns, Part, Stop, number_by};
use listing_readers::{Place, Shape, numbers_at, table};
use listing_tables::Sheet;
use listing_words::{Cursor, Number};
use std::alloc::Global;

// The digits of a number.
#[tactic(auto, using(listing_definitions::proofs::Decimals::decimal_is_digits))]
fn decimal(buffer: &mut Buffer, number: usize) -> &str
    ensures { result.now ≡ digits number }
{
    buffer.format(number)
}

// Takes the number of an interval, and where it begins.
fn take_part_head(cursor: &mut Cursor<'_>, number: usize, from: &Number<'_>) -> bool
    ensures { left_after (part_head number from.now) cursor.old ≡ taken result cursor.new }
{
    let mut buffer = Buffer::new();
    let digits = decimal(&mut buffer, number).as_bytes();
    take_each(
        cursor,
        &[b"INTERVAL ", digits, b" FROM ", from.word(), b" TO "],
    )
}

impl Reader<'_> {
    // Where an interval ends, and the end of its first line.
    fn part_end<'a, T: Checks>(
        &self,
        cursor: &mut Cursor<'a>,
        number: usize,
        from: &Number<'_>,
    ) -> Read<Number<'a>>
        ensures { IfOk result
            (IsPartEnd (number_in T.checker self.now.by) number from.now cursor.old cursor.new) }
    {
        if !take_part_head(cursor, number, from) {
            return Ok(None);
        }
        let Some(to) = number_by::<T>(self.alloc, self.by, cursor.word())? else {
            return Ok(None);
        };
        if !cursor.take(b"\n") {
            return Ok(None);
        }
        Ok(Some(to))
    }

    // The lines of an interval.
    fn read_columns<'a, T: Checks>(&self, cursor: &mut Cursor<'a>) -> Read<Columns<'a>>
        requires { IsSheet self.now.sheet }
        ensures { IsRead AreColumns columns_in T.checker self.now cursor.old cursor.new result }
    {
        let Reader { alloc, by, sheet } = *self;
        let count = sheet.lp.number_of_variables();
        let Some(numbers) = table::<T>(alloc, cursor, by, sheet, Shape::Part, 0, count)? else {
            return Ok(None);
        };
        let value = numbers_at(alloc, &numbers, Place::First)?;
        let value_rate = numbers_at(alloc, &numbers, Place::Second)?;
        let price = numbers_at(alloc, &numbers, Place::Third)?;
        let price_rate = numbers_at(alloc, &numbers, Place::Fourth)?;
        Ok(Some(Columns {
            value,
            value_rate,
            price,
            price_rate,
        }))
    }

    // The interval of a number, from the last end on.
    fn read_interval<'a, T: Checks>(
        &self,
        cursor: &mut Cursor<'a>,
        number: usize,
        from: &Number<'_>,
    ) -> Read<Part<'a>>
        requires { IsSheet self.now.sheet }
        ensures { IsRead (λ sheet. IsPart sheet from.now)
            (λ of sheet. interval_in of sheet number from.now) T.checker
            self.now cursor.old cursor.new result }
    {
        let Some(to) = self.part_end::<T>(cursor, number, from)? else {
            return Ok(None);
        };
        let Some(columns) = self.read_columns::<T>(cursor)? else {
            return Ok(None);
        };
        Ok(Some(Part { to, columns }))
    }
}

// The interval of a number, from the last end on; it is left unchecked where only a number that is too long keeps it from being read.
fn interval<'a, T: Checks>(
    alloc: Global,
    cursor: &mut Cursor<'a>,
    sheet: Sheet<'_>,
    number: usize,
    from: &Number<'_>,
) -> Result<Part<'a>, Stop>
    requires { IsSheet sheet }
    ensures { IsReadBy (IsPart (sheet_view sheet.entry) from.now) T.checker
        (λ of. interval_in of (sheet_view sheet.entry) number from.now)
        cursor.old cursor.new result }
{
    let mut start = cursor.again();
    let by = By::Value;
    let reader = Reader { alloc, by, sheet };
    if let Some(part) = reader.read_interval::<T>(cursor, number, from)? {
        return Ok(part);
    }
    if !T::has_limit() {
        return Err(Stop::Wrong);
    }
    let by = By::Form;
    let reader = Reader { alloc, by, sheet };
    let form = reader.read_interval::<T>(&mut start, number, from)?;
    Err(stop_unread(form.is_some()))
}

/// Reads the interval of this number, from the last end on, and tests it. Gives its end.
pub fn read_part<'a, T: Checks>(
    alloc: Global,
    cursor: &mut Cursor<'a>,
    sheet: Sheet<'_>,
    request: &AskedRun<'_>,
    number: usize,
    last: &Number<'_>,
) -> Result<Number<'a>, Stop>
    requires sheet { IsSheet sheet }
    requires asked { IsAskedOf sheet request.now }
    ensures { let changing = changing_of request.now.name request.now.change in
        Taken (λ to interval. to ≡ interval.to)
        (tested_by T.checker (interval_test T.checker (sheet_view sheet.entry) changing
        (nat_eq number 1) request.now.to)
        (λ of. interval_in of
        (sheet_view sheet.entry) number last.now) cursor.old) cursor.new result }
{
    let part = interval::<T>(alloc, cursor, sheet, number, last)?;
    let mut allowance = cursor.allowance();
    T::test_interval(
        alloc,
        sheet,
        request,
        number == 1,
        last,
        &part,
        &mut allowance,
    )?;
    cursor.set_allowance(allowance);
    Ok(part.to)
}
