// The checker in fractions of 128 bits.
ghost use Rattle.std.specs.Prelude.{◌≡◌, IfOk};

use crate::claim_tests::{check_claim, check_claim_at};
use crate::closing_tests::{close_at, close_infeasible, close_unbounded};
use crate::fractions::{fraction, fractions};
use crate::interval_tests::{check_interval, interval_of};
use crate::solution_tests::check_values;
use frac128::Frac;
use listing_claims::{AskedRun, Checks, Claim, Closing, Part, Printed, SheetRun, Stop};
use listing_definitions::Mark;
use listing_tables::Sheet;
use listing_words::{Allowance, Number, fraction_in};
use lp_model::{Lp, NoMemory};
use std::alloc::Global;

/// The checker that reads and tests numbers as a run makes them. A verdict has to be printed with the word CHECKED.
pub struct Of128Bits;

impl Checks for Of128Bits {
    ghost use Rattle.walk_definitions.specs.Checkers.{checker_of_128_bits};

    ghost checker = { checker_of_128_bits };

    fn read<'a>(_alloc: Global, word: &'a [u8]) -> Result<Option<Number<'a>>, NoMemory> {
        match fraction_in(word) {
            Some(_) => Ok(Some(Number::new(word))),
            None => Ok(None),
        }
    }

    fn has_limit() -> bool {
        false
    }

    fn is_long(_word: &[u8]) -> bool {
        false
    }

    fn exceeds(_alloc: Global, number: &Number<'_>, value: Frac) -> Result<bool, NoMemory> {
        Ok(value.is_less(fraction(number)?))
    }

    fn takes(is_checked: bool) -> bool {
        is_checked
    }

    fn test_claim(
        alloc: Global,
        lp: &Lp,
        claim: &Claim<'_>,
        _allowance: &mut Allowance,
    ) -> Result<(), Stop> {
        check_claim(alloc, lp, claim)
    }

    fn test_opening(
        alloc: Global,
        sheet: Sheet<'_>,
        request: &AskedRun<'_>,
        claim: &Claim<'_>,
        _allowance: &mut Allowance,
    ) -> Result<(), Stop> {
        let from = fraction(&request.from)?;
        check_claim_at(alloc, &SheetRun { sheet, request }, from, claim)
    }

    fn test_solution(
        alloc: Global,
        sheet: Sheet<'_>,
        mark: Mark,
        printed: &Printed<'_>,
        _allowance: &mut Allowance,
    ) -> Result<(), Stop> {
        let point = fractions(alloc, &printed.point)?;
        let prices = fractions(alloc, &printed.prices)?;
        let slacks = fractions(alloc, &printed.slacks)?;
        check_values(sheet, mark, &point, &prices, &slacks)
    }

    fn test_interval(
        alloc: Global,
        sheet: Sheet<'_>,
        request: &AskedRun<'_>,
        is_first: bool,
        from: &Number<'_>,
        part: &Part<'_>,
        _allowance: &mut Allowance,
    ) -> Result<(), Stop> {
        let interval = interval_of(alloc, from, part)?;
        check_interval(alloc, &SheetRun { sheet, request }, is_first, &interval)
    }

    fn test_close(
        alloc: Global,
        sheet: Sheet<'_>,
        request: &AskedRun<'_>,
        last: &Number<'_>,
        closing: &Closing<'_>,
        _allowance: &mut Allowance,
    ) -> Result<(), Stop> {
        let run = SheetRun { sheet, request };
        let last = fraction(last)?;
        match closing {
            Closing::At(value) => close_at(value, last, request.to),
            Closing::Unbounded(value, pair) => close_unbounded(alloc, &run, last, value, pair),
            Closing::Infeasible(value, ray) => close_infeasible(alloc, &run, last, value, ray),
        }
    }
}
