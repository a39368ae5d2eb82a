// The lines of SOLUTION, as the listing has them.
ghost use Rattle.std.specs.Prelude.{◌≡◌, ◌++◌, IfOk, None, map, option_map};
ghost use Rattle.lp_definitions.specs.LinearProgram.{IsLinearProgram};
ghost use Rattle.listing_tables.specs.Sheets.{IsSheet};
ghost use Rattle.answer_definitions.specs.Lines.{row_numbers, column_numbers};
ghost use Rattle.walk_definitions.specs.Words.{left_after};
ghost use Rattle.walk_definitions.specs.Reading.{solution_in};
ghost use Rattle.listing_words.specs.Read.{taken, sheet_view};
ghost use Rattle.listing_claims.specs.Numbers.{number_in};
ghost use Rattle.listing_readers.specs.Tables.{at_place, IsTableRead};
ghost use Rattle.listing_answers.specs.Readers.{IsRead};
ghost use Rattle.listing_answers.specs.Solutions.{rows_head, columns_head, AreLines, IsPrinted};
ghost use Rattle.listing_answers.specs.Taken.{IsReadBy};

use crate::reader::{Read, Reader};
use crate::unread::stop_unread;
use crate::words::take_each;
use listing_claims::{By, Checks, Printed, Stop};
use listing_definitions::Mark;
use listing_readers::{Numbers, Place, Shape, numbers_at, table};
use listing_tables::{Sheet, mark_word};
use listing_words::{Cursor, Number};
use lp_model::NoMemory;
use std::alloc::Global;

/// The numbers of the lines of SOLUTION.
#[derive(Drop)]
pub struct Lines<'a> {
    pub rows: Vec<Numbers<'a>>,
    pub columns: Vec<Numbers<'a>>,
}

// Takes the heads of the columns.
fn take_columns_head(cursor: &mut Cursor<'_>) -> bool
    ensures { left_after columns_head cursor.old ≡ taken result cursor.new }
{
    cursor.take(b"SECTION 2 - COLUMNS\nNUMBER COLUMN AT ACTIVITY COST LOWER UPPER REDUCED\n")
}

// Takes what stands before the rows.
fn take_rows_head(cursor: &mut Cursor<'_>, mark: Mark) -> bool
    ensures { left_after (rows_head mark) cursor.old ≡ taken result cursor.new }
{
    let heads = b"\nSECTION 1 - ROWS\nNUMBER ROW AT ACTIVITY SLACK LOWER UPPER DUAL\n";
    take_each(cursor, &[b"SOLUTION ", mark_word(mark), heads])
}

impl Reader<'_> {
    // The lines of the rows.
    fn rows<'a, T: Checks>(&self, cursor: &mut Cursor<'a>) -> Read<Vec<Numbers<'a>>>
        requires sheet { IsSheet self.now.sheet }
        requires lawful { IsLinearProgram self.now.sheet.lp.now }
        ensures { IfOk result
            (λ found. IsTableRead (number_in T.checker self.now.by) (sheet_view self.now.sheet)
            Shape.Row (row_numbers self.now.sheet.lp.now)
            cursor.old cursor.new (option_map (λ table. table.items) found)) }
    {
        let Reader { alloc, by, sheet } = *self;
        let lp = sheet.lp;
        table::<T>(alloc, cursor, by, sheet, Shape::Row, 0, lp.rows)
    }

    // The lines of the columns.
    fn columns<'a, T: Checks>(&self, cursor: &mut Cursor<'a>) -> Read<Vec<Numbers<'a>>>
        requires sheet { IsSheet self.now.sheet }
        requires lawful { IsLinearProgram self.now.sheet.lp.now }
        requires no_change { self.now.sheet.lp.now.change ≡ None }
        ensures { IfOk result
            (λ found. IsTableRead (number_in T.checker self.now.by) (sheet_view self.now.sheet)
            Shape.Column (column_numbers self.now.sheet.lp.now)
            cursor.old cursor.new (option_map (λ table. table.items) found)) }
    {
        let Reader { alloc, by, sheet } = *self;
        let lp = sheet.lp;
        table::<T>(alloc, cursor, by, sheet, Shape::Column, lp.rows, lp.cols)
    }

    // The lines of SOLUTION under a mark.
    fn read_lines<'a, T: Checks>(&self, cursor: &mut Cursor<'a>, mark: Mark) -> Read<Lines<'a>>
        requires sheet { IsSheet self.now.sheet }
        requires lawful { IsLinearProgram self.now.sheet.lp.now }
        requires no_change { self.now.sheet.lp.now.change ≡ None }
        ensures { IsRead AreLines (λ of sheet. solution_in of sheet mark) T.checker
            self.now cursor.old cursor.new result }
    {
        if !take_rows_head(cursor, mark) {
            return Ok(None);
        }
        let Some(rows) = self.rows::<T>(cursor)? else {
            return Ok(None);
        };
        if !take_columns_head(cursor) {
            return Ok(None);
        }
        let Some(columns) = self.columns::<T>(cursor)? else {
            return Ok(None);
        };
        Ok(Some(Lines { rows, columns }))
    }
}

/// The lines of SOLUTION under a mark; they are left unchecked where only a number that is too long keeps them from being read.
pub fn solution_lines<'a, T: Checks>(
    alloc: Global,
    cursor: &mut Cursor<'a>,
    sheet: Sheet<'_>,
    mark: Mark,
) -> Result<Lines<'a>, Stop>
    requires sheet { IsSheet sheet }
    requires lawful { IsLinearProgram sheet.lp.now }
    requires no_change { sheet.lp.now.change ≡ None }
    ensures { IsReadBy (AreLines (sheet_view sheet.entry)) T.checker
        (λ of. solution_in of (sheet_view sheet.entry) mark) cursor.old cursor.new result }
{
    let mut start = cursor.again();
    let by = By::Value;
    let reader = Reader { alloc, by, sheet };
    if let Some(lines) = reader.read_lines::<T>(cursor, mark)? {
        return Ok(lines);
    }
    if !T::has_limit() {
        return Err(Stop::Wrong);
    }
    let by = By::Form;
    let reader = Reader { alloc, by, sheet };
    let form = reader.read_lines::<T>(&mut start, mark)?;
    Err(stop_unread(form.is_some()))
}

// The numbers at a place of the lines of the rows, and then of the columns.
fn all_numbers_at<'a>(
    alloc: Global,
    lines: &Lines<'a>,
    place: Place,
) -> Result<Vec<Number<'a>>, NoMemory>
    ensures { IfOk result
        (λ values. values.items ≡
        map (at_place place) lines.now.rows.items ++ map (at_place place) lines.now.columns.items) }
{
    let mut values = numbers_at(alloc, &lines.rows, place)?;
    let mut more = numbers_at(alloc, &lines.columns, place)?;
    values.append(&mut more)?;
    Ok(values)
}

/// What is printed of the point.
pub fn printed_of<'a>(alloc: Global, lines: &Lines<'a>) -> Result<Printed<'a>, NoMemory>
    ensures { IfOk result
        (λ printed. IsPrinted lines.now.rows.items lines.now.columns.items printed) }
{
    let point = all_numbers_at(alloc, lines, Place::First)?;
    let prices = all_numbers_at(alloc, lines, Place::Second)?;
    let slacks = numbers_at(alloc, &lines.rows, Place::Third)?;
    Ok(Printed {
        point,
        prices,
        slacks,
    })
}
