// The intervals of a parametric run, one after another, and how it closes.
ghost use Rattle.std.specs.Prelude.{◌≡◌, ℕ, List, codes};
ghost use Rattle.listing_tables.specs.Sheets.{IsSheet};
ghost use Rattle.walk_definitions.specs.Words.{left_after};
ghost use Rattle.walk_definitions.specs.Reading.{run_in};
ghost use Rattle.run_definitions.specs.Verbs.{last_value};
ghost use Rattle.listing_words.specs.Read.{taken, sheet_view};
ghost use Rattle.listing_claims.specs.Asked.{parametric_run_of, IsAskedOf};
ghost use Rattle.listing_answers.specs.Intervals.{first_in};
ghost use Rattle.listing_answers.specs.Taken.{Taken};

use crate::closing::read_close;
use crate::intervals::read_part;
use listing_claims::{AskedRun, Checks, Stop};
use listing_tables::Sheet;
use listing_words::{Cursor, Number};
use std::alloc::Global;

// Whether an interval begins here.
fn begins_interval(cursor: &Cursor<'_>) -> bool
    ensures { (left : List ℕ) × (left_after (codes "INTERVAL ") cursor.now ≡ taken result left) }
{
    let mut ahead = Cursor::new(cursor.rest());
    ahead.take(b"INTERVAL ")
}

// The first interval, before which a run doesn't close.
fn first_part<'a, T: Checks>(
    alloc: Global,
    cursor: &mut Cursor<'a>,
    sheet: Sheet<'_>,
    request: &AskedRun<'_>,
) -> Result<Number<'a>, Stop>
    requires sheet { IsSheet sheet }
    requires asked { IsAskedOf sheet request.now }
    ensures { (limit : ℕ) →
        Taken (λ to interval. to ≡ interval.to) (first_in T.checker (sheet_view sheet.entry)
        (parametric_run_of limit request.now) cursor.old) cursor.new result }
{
    if !begins_interval(cursor) {
        return Err(Stop::Wrong);
    }
    read_part::<T>(alloc, cursor, sheet, request, 1, &request.from)
}

/// Reads the intervals of a run, each tested before the next one is read, and how it closes. Gives the last end.
pub fn read_run<'a, T: Checks>(
    alloc: Global,
    cursor: &mut Cursor<'a>,
    sheet: Sheet<'_>,
    request: &AskedRun<'_>,
) -> Result<Number<'a>, Stop>
    requires sheet { IsSheet sheet }
    requires asked { IsAskedOf sheet request.now }
    ensures { (limit : ℕ) →
        Taken (λ last run. last ≡ last_value run.1) (run_in T.checker (sheet_view sheet.entry)
        (parametric_run_of limit request.now) cursor.old 1 request.now.from cursor.old) cursor.new result }
{
    let room = cursor.rest().len();
    let mut last = first_part::<T>(alloc, cursor, sheet, request)?;
    for index in 1..room {
        if !begins_interval(cursor) {
            return read_close::<T>(alloc, cursor, sheet, request, &last);
        }
        last = read_part::<T>(alloc, cursor, sheet, request, index + 1, &last)?;
    }
    Err(Stop::Wrong)
}
