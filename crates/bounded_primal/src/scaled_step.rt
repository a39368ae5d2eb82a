//! A step that isn't a whole number. The values that it moves have mostly one denominator, so have the rates, and so has what they make:
//! with these at hand most values take three products, a sum and a quotient, and no greatest common divisor.

ghost use Rattle.std.specs.Prelude.{◌≡◌, ◌<◌, ◌≤ℤ◌, ◌*ℤ◌, pos, IfSome};
ghost use Rattle.exact_values.specs.Rational.{whole, ◌+ℚ◌, ◌*ℚ◌};
ghost use Rattle.frac128.specs.Terms.{Fits};

use frac128::{Frac, product, sum};
use lp_model::Ratio;
use std::marker::Model;

/// A step with a common denominator of values and one of rates. A value over the one times `value_factor`, and a rate over the other times
/// `rate_factor`, are together what the step makes of them, over a third denominator: it is `shared` times `rest`, of which `shared` was
/// cancelled in each value so far.
#[derive(Drop)]
pub struct ScaledStep {
    step: Frac,
    value_denominator: u64,
    rate_denominator: u64,
    value_factor: i128,
    rate_factor: i128,
    shared: i128,
    rest: i128,
}

impl Model for ScaledStep {
    ghost use Rattle.exact_values.specs.Rational.{ℚ};
    ghost use Rattle.bounded_primal.specs.ScaledSteps.{IsScaled};

    ghost Value = { ℚ };

    ghost view = { λ s. s.step };

    ghost invariant = { IsScaled };
}

/// The numerator of a fraction over a common denominator. None where that is no multiple of its own, or the numerator doesn't fit.
#[inline(always)]
fn numerator_over(x: &Ratio, common: u64) -> Option<i128>
    ensures { IfSome result (λ n. whole n ≡ x.now *ℚ whole (pos common)) }
{
    let (num, den) = x.terms();
    if den == common as i128 {
        return Some(num);
    }
    let own = u64::try_from(den).ok()?;
    if common % own != 0 {
        return None;
    }
    let scaled = product(num, (common / own) as i128)?;
    Some(scaled)
}

/// The quotient, where it leaves no remainder.
#[inline(always)]
fn exact_quotient(n: i128, by: i128) -> Option<i128>
    requires some { pos 1 ≤ℤ by }
    requires fits { Fits n }
    ensures value { IfSome result (λ q. q *ℤ by ≡ n) }
    ensures fits { IfSome result Fits }
{
    let quotient = n / by;
    let back = product(quotient, by)?;
    if back == n { Some(quotient) } else { None }
}

/// A common multiple of a denominator and that of a fraction.
fn common_multiple(common: u64, x: &Ratio) -> Option<u64>
    requires { 0 < common }
    ensures { IfSome result (λ multiple. 0 < multiple) }
{
    let (_, den) = x.terms();
    if common == 1 {
        return u64::try_from(den).ok();
    }
    if den == common as i128 {
        return Some(common);
    }
    let factor = u64::try_from(Frac::new(den, common as i128).den()).ok()?;
    let own = u64::try_from(den).ok()?;
    factor.checked_mul(own)
}

/// The same number, in lowest terms where its denominator is another one than the one at hand; where none is at hand yet, 1 stands for
/// it, and any of one machine word will do.
fn lowest_unless_over(common: u64, x: &Ratio) -> Ratio
    ensures { result ≡ x.now }
{
    let (_, den) = x.terms();
    let is_first = common == 1 && u64::try_from(den).is_ok();
    if is_first || den == common as i128 {
        return x.copy();
    }
    Ratio::of(x.reduced())
}

impl ScaledStep {
    /// The step, where all values and rates are whole numbers.
    pub fn new(step: Frac) -> ScaledStep
        ensures { result ≡ step }
    {
        ScaledStep {
            step,
            value_denominator: 1,
            rate_denominator: 1,
            value_factor: step.den(),
            rate_factor: step.num(),
            shared: step.den(),
            rest: 1,
        }
    }

    /// The step, with these denominators of values and of rates.
    fn over(step: Frac, values: u64, rates: u64) -> Option<ScaledStep>
        requires some_values { 0 < values }
        requires some_rates { 0 < rates }
        ensures { IfSome result (λ made. made ≡ step) }
    {
        let of_one = step.mul(Frac::new(1, rates as i128)).ok()?;
        let across = Frac::new(of_one.den(), values as i128);
        let rate_factor = product(of_one.num(), across.den())?;
        let shared = product(of_one.den(), across.den())?;
        Some(ScaledStep {
            step,
            value_denominator: values,
            rate_denominator: rates,
            value_factor: across.num(),
            rate_factor,
            shared,
            rest: 1,
        })
    }

    /// A value with the step times a rate, over the denominators at hand. None where a number doesn't fit.
    #[inline(always)]
    fn moved_over(&mut self, value: &Ratio, rate: &Ratio) -> Option<Ratio>
        ensures same { self.new ≡ self.old }
        ensures value { IfSome result (λ moved. moved ≡ value.now +ℚ self.old *ℚ rate.now) }
    {
        let value_number = numerator_over(value, self.value_denominator)?;
        let rate_number = numerator_over(rate, self.rate_denominator)?;
        let from_value = product(value_number, self.value_factor)?;
        let from_rate = product(rate_number, self.rate_factor)?;
        let total = sum(from_value, from_rate)?;
        if let Some(part) = exact_quotient(total, self.shared) {
            return Some(Ratio::new(part, self.rest));
        }
        let left = Frac::new(total, self.shared);
        let more = left.den();
        let shared = exact_quotient(self.shared, more)?;
        let rest = product(self.rest, more)?;
        self.shared = shared;
        self.rest = rest;
        Some(Ratio::new(left.num(), rest))
    }

    /// Takes these denominators, where they are other ones than those at hand. None where a number doesn't fit.
    fn take_denominators(&mut self, values: u64, rates: u64) -> Option<()>
        requires some_values { 0 < values }
        requires some_rates { 0 < rates }
        ensures same { self.new ≡ self.old }
    {
        if values == self.value_denominator && rates == self.rate_denominator {
            return Some(());
        }
        *self = ScaledStep::over(self.step, values, rates)?;
        Some(())
    }

    /// A value with the step times a rate. None where the step is a whole number, or a number on the way doesn't fit.
    pub fn moved(&mut self, value: &Ratio, rate: &Ratio) -> Option<Ratio>
        ensures same { self.new ≡ self.old }
        ensures value { IfSome result (λ moved. moved ≡ value.now +ℚ self.old *ℚ rate.now) }
    {
        if self.step.den() == 1 {
            return None;
        }
        if let Some(moved) = self.moved_over(value, rate) {
            return Some(moved);
        }
        let value = lowest_unless_over(self.value_denominator, value);
        let rate = lowest_unless_over(self.rate_denominator, rate);
        let values = common_multiple(self.value_denominator, &value)?;
        let rates = common_multiple(self.rate_denominator, &rate)?;
        self.take_denominators(values, rates)?;
        self.moved_over(&value, &rate)
    }
}
