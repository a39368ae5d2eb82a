// Numbers of any length, read and tested.
ghost use Rattle.std.specs.Prelude.{◌≡◌};

use crate::claim_tests::{opening_holds, own_claim_holds};
use crate::closing_tests::closing_holds;
use crate::long_words::is_longer;
use frac128::Frac;
use listing_claims::{AskedRun, Checks, Claim, Closing, Part, PlacedPart, Printed, SheetRun, Stop};
use listing_definitions::Mark;
use listing_tables::Sheet;
use listing_words::{Allowance, Number};
use long_numbers::is_number;
use long_solutions::{exceeds, interval_holds, judged, printed_holds};
use lp_model::{Lp, NoMemory};
use std::alloc::Global;

/// A number with more digits above or below the line isn't read for its value.
const MOST_DIGITS: usize = 100_000;

/// Reads each number of up to 100,000 digits above and below the line, and refuses no operation on them.
pub struct OfAnyLength;

impl Checks for OfAnyLength {
    ghost use Rattle.walk_definitions.specs.Checkers.{checker_of_any_length};

    ghost checker = { checker_of_any_length };

    fn read<'a>(alloc: Global, word: &'a [u8]) -> Result<Option<Number<'a>>, NoMemory> {
        if OfAnyLength::is_long(word) {
            return Ok(None);
        }
        if !is_number(alloc, word)? {
            return Ok(None);
        }
        Ok(Some(Number::new(word)))
    }

    fn has_limit() -> bool {
        true
    }

    fn is_long(word: &[u8]) -> bool {
        is_longer(word, MOST_DIGITS)
    }

    fn exceeds(alloc: Global, number: &Number<'_>, value: Frac) -> Result<bool, NoMemory> {
        Ok(exceeds(alloc, number, value)?)
    }

    fn takes(_is_checked: bool) -> bool {
        true
    }

    fn test_claim(
        alloc: Global,
        lp: &Lp,
        claim: &Claim<'_>,
        allowance: &mut Allowance,
    ) -> Result<(), Stop> {
        let holds = own_claim_holds(alloc, lp, claim, allowance)?;
        judged(holds)
    }

    fn test_opening(
        alloc: Global,
        sheet: Sheet<'_>,
        request: &AskedRun<'_>,
        claim: &Claim<'_>,
        allowance: &mut Allowance,
    ) -> Result<(), Stop> {
        let run = SheetRun { sheet, request };
        let holds = opening_holds(alloc, &run, claim, allowance)?;
        judged(holds)
    }

    fn test_solution(
        alloc: Global,
        sheet: Sheet<'_>,
        mark: Mark,
        printed: &Printed<'_>,
        allowance: &mut Allowance,
    ) -> Result<(), Stop> {
        let holds = printed_holds(alloc, sheet.lp, mark, printed, allowance)?;
        judged(holds)
    }

    fn test_interval(
        alloc: Global,
        sheet: Sheet<'_>,
        request: &AskedRun<'_>,
        is_first: bool,
        from: &Number<'_>,
        part: &Part<'_>,
        allowance: &mut Allowance,
    ) -> Result<(), Stop> {
        let run = SheetRun { sheet, request };
        let placed = PlacedPart {
            is_first,
            from,
            part,
        };
        let holds = interval_holds(alloc, &run, &placed, allowance)?;
        judged(holds)
    }

    fn test_close(
        alloc: Global,
        sheet: Sheet<'_>,
        request: &AskedRun<'_>,
        last: &Number<'_>,
        closing: &Closing<'_>,
        allowance: &mut Allowance,
    ) -> Result<(), Stop> {
        let run = SheetRun { sheet, request };
        let holds = closing_holds(alloc, &run, last, closing, allowance)?;
        judged(holds)
    }
}
