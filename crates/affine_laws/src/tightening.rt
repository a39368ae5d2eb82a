//! The interval of the numbers that meet several bounds, one bound at a time.

ghost use Rattle.std.specs.Prelude.{◌≡◌, ◌≢◌, ◌↔◌, IsTrue, IfOk, IfErr};
ghost use Rattle.exact_values.specs.Rational.{zero_ℚ, ◌≤ℚ◌};
ghost use Rattle.affine_laws.specs.Ends.{Meets, MeetsBy, is_high, end_of, IsOnSide, IsNearer, IsRefused, IsTightened};

use frac128::{Frac, Refused};

/// An end of an interval, and the numbers of the bound that it comes from.
#[derive(Clone, Copy, Debug)]
pub struct Endpoint {
    pub value: Frac,
    pub by: u32,
    pub which: u32,
}

/// The ends of an interval. None means that there is no end on that side.
#[derive(Clone, Copy, Debug)]
pub struct Ends {
    pub low: Option<Endpoint>,
    pub high: Option<Endpoint>,
}

/// A bound on a number: `slope` times it is at most `number`, or at least. `by` and `which` say whose bound it is.
#[derive(Clone, Copy, Debug)]
pub struct ProductBound {
    pub at_most: bool,
    pub slope: Frac,
    pub number: Frac,
    pub by: u32,
    pub which: u32,
}

/// Whether `x` is at most `y`.
fn is_at_most(x: Frac, y: Frac) -> bool
    ensures { IsTrue result ↔ (x ≤ℚ y) }
{
    !y.compare(x).is_lt()
}

/// Whether the product meets the number.
fn meets(at_most: bool, product: Frac, number: Frac) -> bool
    ensures { IsTrue result ↔ MeetsBy at_most product number }
{
    if at_most {
        return is_at_most(product, number);
    }
    is_at_most(number, product)
}

/// Whether the product of `x` and the slope can be made and meets the bound.
fn holds_at(bound: &ProductBound, x: Frac) -> bool
    ensures { IsTrue result → Meets bound.now x }
{
    match x.mul(bound.slope) {
        Ok(product) => meets(bound.at_most, product, bound.number),
        Err(_refused) => false,
    }
}

/// Whether the bound keeps a number below an end.
fn keeps_below(bound: &ProductBound) -> bool
    ensures { result ≡ is_high bound.now }
{
    if Frac::whole(0).compare(bound.slope).is_lt() {
        bound.at_most
    } else {
        !bound.at_most
    }
}

/// The end that the bound makes.
fn made_by(bound: &ProductBound) -> Result<Endpoint, Refused>
    requires { bound.now.slope ≢ zero_ℚ }
    ensures value { IfOk result (λ made. made ≡ end_of bound.now) }
    ensures refused { IfErr result (IsRefused bound.now) }
{
    let value = bound.number.div(bound.slope)?;
    Ok(Endpoint {
        value,
        by: bound.by,
        which: bound.which,
    })
}

/// Whether what is at most the first end, or at least, is so to the second.
fn is_within(high: bool, first: Frac, second: Frac) -> bool
    ensures { IsTrue result ↔ IsOnSide high second first }
{
    if high {
        return is_at_most(first, second);
    }
    is_at_most(second, first)
}

/// The nearer of an end and that of a bound. A product decides where it can be made, and else the quotient. The product of an end
/// of 0 is never refused: where 0 meets the bound, no quotient is made.
fn nearer(
    kept: Option<Endpoint>,
    high: bool,
    bound: &ProductBound,
) -> Result<Option<Endpoint>, Refused>
    requires slope { bound.now.slope ≢ zero_ℚ }
    requires side { high ≡ is_high bound.now }
    ensures nearer { IfOk result (IsNearer high bound.now kept) }
    ensures refused { IfErr result (IsRefused bound.now) }
{
    let Some(present) = kept else {
        let made = made_by(bound)?;
        return Ok(Some(made));
    };
    if holds_at(bound, present.value) {
        return Ok(Some(present));
    }
    let made = made_by(bound)?;
    if is_within(high, present.value, made.value) {
        return Ok(Some(present));
    }
    Ok(Some(made))
}

/// The interval of those numbers between the ends that meet the bound. It stops only where the quotient of the bound is refused.
pub fn tightened(ends: Ends, bound: &ProductBound) -> Result<Ends, Refused>
    requires { bound.now.slope ≢ zero_ℚ }
    ensures tightened { IfOk result (IsTightened ends bound.now) }
    ensures refused { IfErr result (IsRefused bound.now) }
{
    if keeps_below(bound) {
        let high = nearer(ends.high, true, bound)?;
        return Ok(Ends {
            low: ends.low,
            high,
        });
    }
    let low = nearer(ends.low, false, bound)?;
    Ok(Ends {
        low,
        high: ends.high,
    })
}
