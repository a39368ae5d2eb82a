//! The ratio test of a dual step: which nonbasic brings a basic back at the least loss.

ghost use Rattle.std.specs.Prelude.{◌≡◌, ◌≢◌, ◌-◌, length, IfSome, IfOk, IfErr, if◌then◌else◌};
ghost use Rattle.exact_values.specs.Rational.{zero_ℚ};
ghost use Rattle.exact_values.specs.Tests.{le_ℚ, magnitude};
ghost use Rattle.lp_definitions.specs.LinearProgram.{size, value_at, IsVariable};
ghost use Rattle.dual_step.specs.Cheapest.{ratio_at, cheapest_by, IsBest, ratio_formula, KeptRefused, SomeRatioRefused};

use basis_values::{Formula, counted, may_lower};
use frac128::Frac;
use lp_model::{Basis, Evidence, Lp};

/// What the ratio test looks at: the basis's prices, and the rates of the basic `r`, which is below its lower limit or at it, or else
/// above its upper limit or at it.
#[derive(Clone, Copy)]
struct RatioTest<'a> {
    lp: &'a Lp,
    basis: &'a Basis,
    prices: &'a [Frac],
    row: &'a [Frac],
    r: u32,
    below: bool,
}

/// A nonbasic that may bring the basic back, with its price and the basic's rate at it.
#[derive(Clone, Copy)]
pub struct Candidate {
    pub q: u32,
    pub price: Frac,
    pub rate: Frac,
}

/// Formula 14 of the basic `r` and the nonbasic `q`.
fn formula(r: u32, q: u32) -> Formula
    ensures { result ≡ ratio_formula r q }
{
    Formula::of_rate(14, r, q, 0)
}

/// The value without its sign.
fn magnitude(value: Frac) -> Frac
    ensures { result ≡ magnitude value }
{
    if value.is_less(Frac::whole(0)) {
        return value.neg();
    }
    value
}

/// Whether `x` is at most `y`.
fn is_at_most(x: Frac, y: Frac) -> bool
    ensures { result ≡ le_ℚ x y }
{
    !y.is_less(x)
}

/// Whether the ratio of `best` is at most that of `other`, where a 0 or two products decide it.
fn by_products(best: &Candidate, other: &Candidate) -> Option<bool>
    requires best { best.now.rate ≢ zero_ℚ }
    requires other { other.now.rate ≢ zero_ℚ }
    ensures { IfSome result (λ keeps. keeps ≡ le_ℚ (ratio_at best.now) (ratio_at other.now)) }
{
    if best.price.is_zero() {
        return Some(true);
    }
    if other.price.is_zero() {
        return Some(false);
    }
    let Ok(own) = magnitude(best.price).mul(magnitude(other.rate)) else {
        return None;
    };
    let Ok(others) = magnitude(other.price).mul(magnitude(best.rate)) else {
        return None;
    };
    Some(is_at_most(own, others))
}

/// Whether the ratio of `best` is at most that of `other`. Quotients are made only where products don't decide it.
fn keeps(best: &Candidate, other: &Candidate, r: u32) -> Result<bool, Evidence>
    requires best { best.now.rate ≢ zero_ℚ }
    requires other { other.now.rate ≢ zero_ℚ }
    ensures keeps { IfOk result (λ keeps. keeps ≡ le_ℚ (ratio_at best.now) (ratio_at other.now)) }
    ensures refused { IfErr result (KeptRefused r best.now other.now) }
{
    if let Some(keeps) = by_products(best, other) {
        return Ok(keeps);
    }
    match formula(r, best.q).quotient(best.price, best.rate) {
        Err(evidence) => Err(evidence),
        Ok(own) => match formula(r, other.q).quotient(other.price, other.rate) {
            Err(evidence) => Err(evidence),
            Ok(others) => Ok(is_at_most(magnitude(own), magnitude(others))),
        },
    }
}

/// The candidate with the lesser ratio, the first one at a tie.
fn cheaper(best: Candidate, other: Candidate, r: u32) -> Result<Candidate, Evidence>
    requires best { best.rate ≢ zero_ℚ }
    requires other { other.rate ≢ zero_ℚ }
    ensures cheaper { IfOk result (λ now. now ≡ (if le_ℚ (ratio_at best) (ratio_at other) then best
        else other)) }
    ensures refused { IfErr result (KeptRefused r best other) }
{
    match keeps(&best, &other, r) {
        Ok(true) => Ok(best),
        Ok(false) => Ok(other),
        Err(evidence) => Err(evidence),
    }
}

/// The best candidate with `k` among the variables.
fn with_variable(
    test: &RatioTest<'_>,
    best: Option<Candidate>,
    k: u32,
) -> Result<Option<Candidate>, Evidence>
    requires variable { IsVariable test.now.lp.now.matrix k }
    requires counted { length test.now.basis.now ≡ size test.now.lp.now.matrix }
    requires prices { length test.now.prices.now ≡ size test.now.lp.now.matrix }
    requires row { length test.now.row.now ≡ size test.now.lp.now.matrix }
    requires best { IsBest test.now.lp.now test.now.basis.now (value_at test.now.prices.now)
        (value_at test.now.row.now) test.now.below (k - 1) best }
    ensures best { IfOk result (IsBest test.now.lp.now test.now.basis.now
        (value_at test.now.prices.now) (value_at test.now.row.now) test.now.below k) }
    ensures refused { IfErr result (SomeRatioRefused test.now.lp.now test.now.basis.now
        (value_at test.now.prices.now) (value_at test.now.row.now) test.now.r test.now.below) }
{
    let prices = test.prices;
    let row = test.row;
    let price = prices[k as usize - 1];
    let rate = row[k as usize - 1];
    if !may_lower(test.lp, test.basis, counted(rate, !test.below), k) {
        return Ok(best);
    }
    let other = Candidate { q: k, price, rate };
    let Some(present) = best else {
        return Ok(Some(other));
    };
    match cheaper(present, other, test.r) {
        Ok(now) => Ok(Some(now)),
        Err(evidence) => Err(evidence),
    }
}

/// The least-numbered of those with the least ratio that may bring the basic `r` back, which is below its lower limit or at it, or else
/// above its upper limit or at it. `prices` has the basis's prices, and `row` the rates of `r`.
pub fn cheapest(
    lp: &Lp,
    basis: &Basis,
    prices: &[Frac],
    row: &[Frac],
    r: u32,
    below: bool,
) -> Result<Option<u32>, Evidence>
    requires counted { length basis.now ≡ size lp.now.matrix }
    requires prices { length prices.now ≡ size lp.now.matrix }
    requires row { length row.now ≡ size lp.now.matrix }
    ensures cheapest { IfOk result (λ found. found ≡ cheapest_by lp.now basis.now
        (value_at prices.now) (value_at row.now) below) }
    ensures refused { IfErr result (SomeRatioRefused lp.now basis.now (value_at prices.now)
        (value_at row.now) r below) }
{
    let test = RatioTest {
        lp,
        basis,
        prices,
        row,
        r,
        below,
    };
    let mut best: Option<Candidate> = None;
    for k in 0..lp.number_of_variables() {
        best = with_variable(&test, best, k + 1)?;
    }
    Ok(best.map(|found| found.q))
}
