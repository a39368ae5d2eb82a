// What a checker does otherwise than another.
ghost use Rattle.std.specs.Prelude.{◌≡◌, IfOk};
ghost use Rattle.exact_values.specs.Tests.{lt_ℚ};
ghost use Rattle.lp_definitions.specs.LinearProgram.{IsLinearProgram, value_at};
ghost use Rattle.parametric_request.specs.Asking.{changing_of};
ghost use Rattle.walk_definitions.specs.Checkers.{says_checked};
ghost use Rattle.walk_definitions.specs.Words.{is_long, fraction_in, form_in};
ghost use Rattle.listing_words.specs.Read.{sheet_view};
ghost use Rattle.listing_claims.specs.Asked.{IsAskedOf};
ghost use Rattle.listing_claims.specs.Claims.{Fits, claim_test, opening_test};
ghost use Rattle.listing_claims.specs.Closings.{ClosingFits, closing_test};
ghost use Rattle.listing_claims.specs.Intervals.{AreCounted, part_verdict};
ghost use Rattle.listing_claims.specs.Numbers.{number_in};
ghost use Rattle.listing_claims.specs.Passing.{Judges};
ghost use Rattle.listing_claims.specs.Solutions.{Counted, printed_test};

use crate::claims::{AskedRun, Claim, Closing, Part, Printed, Stop};
use frac128::Frac;
use listing_definitions::Mark;
use listing_tables::Sheet;
use listing_words::{Allowance, Number};
use lp_model::{Lp, NoMemory};
use std::alloc::Global;

/// How a checker reads numbers and tests claims. Each test may be made in any order and by any means: the verdict that it lets pass, or
/// by which it stops, is that of the definition. What a test takes for its columns it takes from the allowance of the listing; where that
/// isn't enough there is no memory.
pub trait Checks {
    ghost use Rattle.std.specs.Prelude.{is_some, true};
    ghost use Rattle.listing_definitions.specs.Report.{Check};
    ghost use Rattle.walk_definitions.specs.Checkers.{Checker};

    ghost checker: { Checker };

    /// The number that a word is the text of, if the checker reads it.
    fn read<'a>(alloc: Global, word: &'a [u8]) -> Result<Option<Number<'a>>, NoMemory>
        ensures { IfOk result (λ number. number ≡ fraction_in checker word.now) };

    /// Whether a number may be too long to be read.
    fn has_limit() -> bool
        ensures { result ≡ is_some checker.most_digits };

    /// Whether a word has the form of a number that is too long to be read.
    fn is_long(word: &[u8]) -> bool
        ensures { result ≡ is_long checker word.now };

    /// Whether a number that was read is greater than a fraction.
    fn exceeds(alloc: Global, number: &Number<'_>, value: Frac) -> Result<bool, NoMemory>
        ensures { IfOk result (λ is. is ≡ lt_ℚ value number.now) };

    /// Whether a verdict may be printed with this word of its check: CHECKED, or UNCHECKED.
    fn takes(is_checked: bool) -> bool
        ensures { (check : Check) → says_checked check ≡ is_checked →
            checker.takes check ≡ result };

    /// Tests what a verdict claims of a linear program. An optimal one passes: it is tested where SOLUTION shows it.
    fn test_claim(
        alloc: Global,
        lp: &Lp,
        claim: &Claim<'_>,
        allowance: &mut Allowance,
    ) -> Result<(), Stop>
        requires lawful { IsLinearProgram lp.now }
        requires fits { Fits lp.now claim.now }
        ensures { Judges (claim_test checker lp.now claim.now) result };

    /// Tests what the opening of a parametric run claims, of the linear program at the first value.
    fn test_opening(
        alloc: Global,
        sheet: Sheet<'_>,
        request: &AskedRun<'_>,
        claim: &Claim<'_>,
        allowance: &mut Allowance,
    ) -> Result<(), Stop>
        requires asked { IsAskedOf sheet request.now }
        requires fits { Fits sheet.lp.now claim.now }
        ensures { Judges
            (opening_test checker (sheet_view sheet.entry)
            (changing_of request.now.name request.now.change)
            request.now.from claim.now) result };

    /// Tests what SOLUTION prints under a mark.
    fn test_solution(
        alloc: Global,
        sheet: Sheet<'_>,
        mark: Mark,
        printed: &Printed<'_>,
        allowance: &mut Allowance,
    ) -> Result<(), Stop>
        requires lawful { IsLinearProgram sheet.lp.now }
        requires counted { Counted sheet.lp.now printed.now }
        ensures { Judges
            (printed_test checker (sheet_view sheet.entry) mark (value_at printed.now.point.items)
            (value_at printed.now.prices.items) (value_at printed.now.slacks.items)) result };

    /// Tests an interval of a parametric run that begins at a value.
    fn test_interval(
        alloc: Global,
        sheet: Sheet<'_>,
        request: &AskedRun<'_>,
        is_first: bool,
        from: &Number<'_>,
        part: &Part<'_>,
        allowance: &mut Allowance,
    ) -> Result<(), Stop>
        requires asked { IsAskedOf sheet request.now }
        requires counted { AreCounted sheet.lp.now part.now.columns }
        ensures { Judges
            (part_verdict checker (sheet_view sheet.entry)
            (changing_of request.now.name request.now.change) from.now
            part.now.to part.now.columns is_first request.now.to) result };

    /// Tests how a parametric run closes whose last interval ends at a value.
    fn test_close(
        alloc: Global,
        sheet: Sheet<'_>,
        request: &AskedRun<'_>,
        last: &Number<'_>,
        closing: &Closing<'_>,
        allowance: &mut Allowance,
    ) -> Result<(), Stop>
        requires asked { IsAskedOf sheet request.now }
        requires fits { ClosingFits sheet.lp.now closing.now }
        ensures { Judges
            (closing_test checker (sheet_view sheet.entry)
            (changing_of request.now.name request.now.change)
            request.now.to last.now closing.now) result };
}

/// How the word of a number is taken: by its value, or by its form alone, where a number that is too long stands for 1.
#[derive(Clone, Copy, Debug, PartialEq, Eq)]
pub enum By {
    Value,
    Form,
}

/// The number that a word is taken for.
pub fn number_by<'a, T: Checks>(
    alloc: Global,
    by: By,
    word: &'a [u8],
) -> Result<Option<Number<'a>>, NoMemory>
    ensures { IfOk result (λ number. number ≡ number_in T.checker by word.now) }
{
    match by {
        By::Value => T::read(alloc, word),
        By::Form => {
            if T::is_long(word) {
                Ok(Some(Number::one()))
            } else {
                T::read(alloc, word)
            }
        }
    }
}
