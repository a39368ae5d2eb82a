// Linear programs and points at a value of the parameter, made by the plain operations alone.
ghost use Rattle.std.specs.Prelude.{◌≡◌, List, [], ◌∷◌, None, IfOk, length};
ghost use Rattle.exact_values.specs.Rational.{ℚ, ◌+ℚ◌, ◌*ℚ◌};
ghost use Rattle.lp_definitions.specs.LinearProgram.{IsLinearProgram, IsRow, HasNoLimits, size, value_at, variables, lower_of, upper_of};
ghost use Rattle.check_definitions.specs.declared.Verdict.TheVariants.{Checked};
ghost use Rattle.check_definitions.specs.Steps.{sum_steps, verdict_of};
ghost use Rattle.simplex_definitions.specs.ObjectiveRun.{objective_family};
ghost use Rattle.simplex_definitions.specs.RhsRun.{rhs_family};
ghost use Rattle.question_definitions.specs.Answers.{Sheet as Views};
ghost use Rattle.answer_definitions.specs.Lines.{row_numbers};
ghost use Rattle.answer_definitions.specs.ParametricRuns.{family_of};
ghost use Rattle.walk_definitions.specs.Tests.{moving_steps, making_steps, along_steps};
ghost use Rattle.listing_words.specs.Read.{sheet_view};
ghost use Rattle.listing_claims.specs.Asked.{IsAskedOf, sheet_of, changing_in};
ghost use Rattle.checks_of_128_bits.specs.Making.{Makes, moved, row_steps, shift_steps, AreLimits, IsAlong};

use frac128::Frac;
use listing_claims::{SheetRun, Stop};
use listing_tables::Sheet;
use lp_definitions::Change as ChangeRow;
use lp_model::{Lp, NoMemory};
use parametric_request::Change;
use std::alloc::Global;

/// The limits of all variables.
#[derive(Drop)]
pub struct Limits {
    pub lower: Vec<Option<Frac>>,
    pub upper: Vec<Option<Frac>>,
}

/// `sum + x * y`
pub fn plus_product(sum: Frac, x: Frac, y: Frac) -> Result<Frac, Stop>
    ensures { Makes (λ made. made ≡ sum +ℚ x *ℚ y)
        (verdict_of (sum_steps sum (record { left = x; right = y } ∷ []))) result }
{
    let product = x.mul(y)?;
    Ok(sum.add(product)?)
}

// A limit with theta times its shift, if it is there.
fn moved(limit: Option<Frac>, theta: Frac, by: Frac) -> Result<Option<Frac>, Stop>
    ensures { (sheet : Views) →
        Makes (λ made. made ≡ moved theta by limit)
        (verdict_of (moving_steps sheet theta by limit)) result }
{
    match limit {
        Some(limit) => {
            let made = plus_product(limit, theta, by)?;
            Ok(Some(made))
        }
        None => Ok(None),
    }
}

// The limits of row `i` at theta.
fn limits_of_row(
    sheet: Sheet<'_>,
    shift: &[Frac],
    theta: Frac,
    i: u32,
) -> Result<(Option<Frac>, Option<Frac>), Stop>
    requires row { IsRow sheet.lp.now.matrix i }
    requires shifts { length shift.now ≡ sheet.lp.now.matrix.rows }
    ensures { let by = value_at shift.now i in Makes
        (λ made. (made.0 ≡ moved theta by (lower_of sheet.entry.lp.now i)) ×
        (made.1 ≡ moved theta by (upper_of sheet.entry.lp.now i)))
        (verdict_of (row_steps (sheet_view sheet.entry) shift.now theta i)) result }
{
    let by = shift[i as usize - 1];
    let lower = moved(sheet.lp.lower_limit(i), theta, by)?;
    let upper = moved(sheet.lp.upper_limit(i), theta, by)?;
    Ok((lower, upper))
}

// The limits of the rows at theta.
fn limits_of_rows(
    alloc: Global,
    sheet: Sheet<'_>,
    shift: &[Frac],
    theta: Frac,
) -> Result<Limits, Stop>
    requires { length shift.now ≡ sheet.lp.now.matrix.rows }
    ensures { Makes (AreLimits sheet.entry.lp.now shift.now theta (row_numbers sheet.entry.lp.now))
        (verdict_of (shift_steps (sheet_view sheet.entry) shift.now theta)) result }
{
    let lp = sheet.lp;
    let mut lower = Vec::new(alloc);
    let mut upper = Vec::new(alloc);
    for i in 0..lp.rows {
        let limits = limits_of_row(sheet, shift, theta, i + 1)?;
        lower.push(limits.0).map_err(|_| NoMemory)?;
        upper.push(limits.1).map_err(|_| NoMemory)?;
    }
    Ok(Limits { lower, upper })
}

// With the limits of the columns, which don't move.
fn with_columns(lp: &Lp, limits: Limits) -> Result<Limits, NoMemory>
    ensures { (shift : List ℚ) → (theta : ℚ) →
        AreLimits lp.now shift theta (row_numbers lp.now) limits →
        IfOk result (AreLimits lp.now shift theta (variables lp.now.matrix)) }
{
    let Limits {
        mut lower,
        mut upper,
    } = limits;
    for j in 0..lp.cols {
        let k = lp.rows + j + 1;
        lower.push(lp.lower_limit(k)).map_err(|_| NoMemory)?;
        upper.push(lp.upper_limit(k)).map_err(|_| NoMemory)?;
    }
    Ok(Limits { lower, upper })
}

// The linear program whose limits have theta times the shifts.
fn shifted(alloc: Global, sheet: Sheet<'_>, shift: &[Frac], theta: Frac) -> Result<Lp, Stop>
    requires lawful { IsLinearProgram sheet.lp.now }
    requires no_change { sheet.lp.now.change ≡ None }
    requires shifts { length shift.now ≡ sheet.lp.now.matrix.rows }
    ensures { Makes (λ p. p ≡ rhs_family sheet.entry.lp.now shift.now theta)
        (verdict_of (shift_steps
        (sheet_view sheet.entry) shift.now theta)) result }
{
    let rows = limits_of_rows(alloc, sheet, shift, theta)?;
    let limits = with_columns(sheet.lp, rows)?;
    Ok(sheet.lp.with_limits(alloc, limits.lower, limits.upper)?)
}

// The linear program to whose objective theta times a row is added.
fn with_row(alloc: Global, lp: &Lp, row: u32, theta: Frac) -> Result<Lp, Stop>
    requires row { IsRow lp.now.matrix row }
    requires free { HasNoLimits lp.now row }
    ensures { Makes (λ p. p ≡ objective_family lp.now row theta) Checked result }
{
    Ok(lp.with_change(alloc, ChangeRow { row, theta })?)
}

/// The linear program at theta.
pub fn program_at(alloc: Global, run: &SheetRun<'_, '_>, theta: Frac) -> Result<Lp, Stop>
    requires { IsAskedOf run.now.sheet run.now.request.now }
    ensures { let changing = changing_in run.now in
        Makes (λ p. p ≡ family_of (sheet_of run.now) changing theta) (verdict_of (making_steps
        (sheet_of run.now) changing theta)) result }
{
    match &run.request.change {
        Change::Row(row) => with_row(alloc, run.sheet.lp, *row, theta),
        Change::Set(shift) => shifted(alloc, run.sheet, shift, theta),
    }
}

/// The values at theta, of values and their rates.
pub fn along(
    alloc: Global,
    sheet: Sheet<'_>,
    theta: Frac,
    value: &[Frac],
    rate: &[Frac],
) -> Result<Vec<Frac>, Stop>
    requires value_places { length value.now ≡ size sheet.lp.now.matrix }
    requires rate_places { length rate.now ≡ size sheet.lp.now.matrix }
    ensures { Makes (λ made. IsAlong sheet.entry.lp.now theta value.now rate.now made.items)
        (verdict_of (along_steps
        (sheet_view sheet.entry) theta value.now rate.now)) result }
{
    let mut made = Vec::new(alloc);
    for i in 0..sheet.lp.number_of_variables() {
        let place = i as usize;
        let next = plus_product(value[place], theta, rate[place])?;
        made.push(next).map_err(|_| NoMemory)?;
    }
    Ok(made)
}
