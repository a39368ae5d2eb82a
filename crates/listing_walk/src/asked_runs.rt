// The parametric run that a verb asks for.
ghost use Rattle.std.specs.Prelude.{◌≡◌, IfOk, IfErr, unwrap_or};
ghost use Rattle.exact_values.specs.Rational.{ℚ};
ghost use Rattle.listing_definitions.specs.Numbers.{rational_text};
ghost use Rattle.control_definitions.specs.Cells.{steps_allowed};
ghost use Rattle.parametric_request.specs.Asking.{IsAsked, IsNotAsked, IsLastValue, IsChangeOf};
ghost use Rattle.listing_claims.specs.Asked.{parametric_run_of};
ghost use Rattle.listing_walk.specs.ParametricVerbs.{beginning, IsNotLast};

use frac128::Frac;
use listing_claims::{AskedRun, Checks};
use listing_definitions::VerbFault;
use listing_words::Number;
use parametric_request::{ParametricVerb, RequestStop, change_of};
use problem_file::Problem;
use run_cells::Cells;
use std::alloc::Global;

/// The value in XPARAM: what a run left there that no cell holds, or else what stands in the cell, whose text this is.
pub fn first_value<'a>(last: &Option<Number<'a>>, text: &'a [u8]) -> Number<'a>
    requires { (value : ℚ) × (text.now ≡ rational_text value) }
    ensures { (value : ℚ) → text.now ≡ rational_text value → result ≡ unwrap_or last.now value }
{
    match last {
        Some(value) => value.again(),
        None => Number::new(text),
    }
}

// The last value, where it isn't less than the first.
fn last_value<T: Checks>(
    alloc: Global,
    cells: &Cells,
    from: &Number<'_>,
) -> Result<Frac, RequestStop>
    ensures last { IfOk result (IsLastValue (beginning from.now cells.now)) }
    ensures refused { IfErr result (IsNotLast (beginning from.now cells.now)) }
{
    let Some(last) = cells.parmax() else {
        return Err(RequestStop::Fault(VerbFault::NoParmax));
    };
    let Ok(is_below) = T::exceeds(alloc, from, last) else {
        return Err(RequestStop::NoMemory);
    };
    if is_below {
        return Err(RequestStop::Fault(VerbFault::ParmaxBelow));
    }
    Ok(last)
}

/// The parametric run that a verb asks for by the cells, with this first value.
pub fn asked_run<'a, T: Checks>(
    alloc: Global,
    problem: &Problem,
    cells: &Cells,
    verb: ParametricVerb,
    from: Number<'a>,
) -> Result<AskedRun<'a>, RequestStop>
    ensures asked { IfOk result
        (λ request. IsAsked verb problem.now (beginning from.entry cells.now)
        (parametric_run_of (steps_allowed cells.now) request)) }
    ensures of { IfOk result (λ request. IsChangeOf problem.now request.name request.change) }
    ensures refused { IfErr result (IsNotAsked verb problem.now (beginning from.entry cells.now)) }
{
    let (name, change) = match change_of(alloc, problem, cells, verb) {
        Ok(made) => made,
        Err(stop) => return Err(stop),
    };
    match last_value::<T>(alloc, cells, &from) {
        Ok(to) => Ok(AskedRun {
            name,
            change,
            from,
            to,
        }),
        Err(stop) => Err(stop),
    }
}
