//! The lines of the table, and what an exchange makes of them.

ghost use Rattle.std.specs.Prelude.{◌≡◌, ◌≢◌, ℕ, true, false, ◌<◌, ◌≤◌, ◌^◌, length, take, IfOk, IfErr, IfSome, OnOk, OnErr};
ghost use Rattle.exact_values.specs.Rational.{ℚ, zero_ℚ, one_ℚ, ◌-ℚ◌, ◌*ℚ◌, ◌/ℚ◌};
ghost use Rattle.lp_definitions.specs.LinearProgram.{value_at};
ghost use Rattle.lp_definitions.specs.RatesEvidence.{Names};
ghost use Rattle.rates_dense.specs.Lines.{IsFilled, quotient_at, AreNumbers, AreChanged, IsFilledAt, IsTakenOver, entering_rate, staying_rate, IsBlankLine};
ghost use Rattle.rates_dense.specs.Lines.{IsWritten, IsUnchanged, SameRates, IsReady, IsCommitted};
ghost use Rattle.lp_model.specs.Formulas.{number_of, basic_of, nonbasic_of};
ghost use Rattle.rates_dense.specs.Refusals.{IsRefusal, IsDifferenceRefused, QuotientRefused, StayingRefused};

use frac128::{Frac, Op, Refused};
use lp_model::{Evidence, ExchangeFormula, NoMemory};
use std::alloc::Global;

/// The rates of a basic variable: a place for each variable, with 0 at the basics. `next` is workspace for those that an exchange changes.
#[derive(Drop)]
pub struct Line {
    pub basic: u32,
    pub rates: Vec<Frac>,
    pub next: Vec<Frac>,
}

/// The product, which is the quotient too, where the factor is 1 or -1.
fn by_unit(x: Frac, factor: Frac) -> Option<Frac>
    ensures product { IfSome result (λ product. product ≡ x *ℚ factor) }
    ensures quotient { IfSome result (λ quotient. quotient ≡ x /ℚ factor) }
{
    if factor == Frac::whole(1) {
        Some(x)
    } else if factor == Frac::whole(-1) {
        Some(x.neg())
    } else {
        None
    }
}

/// A rate without its part along the entering variable's direction, where the quotient or the factor is 1 or -1 and nothing is refused.
fn rest_by_unit(rate: Frac, quotient: Frac, factor: Frac) -> Option<Frac>
    ensures { IfSome result (λ rest. rest ≡ rate -ℚ quotient *ℚ factor) }
{
    let product = product_by_unit(quotient, factor)?;
    if rate.is_zero() {
        return Some(product.neg());
    }
    rate.sub(product).ok()
}

/// The product, where one of the factors is 1 or -1.
fn product_by_unit(x: Frac, y: Frac) -> Option<Frac>
    ensures { IfSome result (λ product. product ≡ x *ℚ y) }
{
    if let Some(product) = by_unit(x, y) {
        return Some(product);
    }
    by_unit(y, x)
}

/// An exchange: `q` becomes basic in place of `p`.
#[derive(Clone, Copy)]
pub struct Exchange {
    pub p: u32,
    pub q: u32,
}

impl Exchange {
    /// The evidence that a formula is refused at the present basics.
    fn evidence(self, formula: ExchangeFormula, refused: Refused) -> Evidence
        ensures names { Names result (number_of formula) self.p self.q (basic_of formula)
            (nonbasic_of formula) 0 }
        ensures present { result.way ≡ 0 }
        ensures no_theta { result.theta ≡ zero_ℚ }
        ensures refused { result.refused ≡ refused }
    {
        formula.evidence(0, self.p, self.q, refused)
    }

    /// The rate of the leaver at `j` over the pivot.
    fn quotient(self, j: u32, rate: Frac, pivot: Frac) -> Result<Frac, Evidence>
        requires { pivot ≢ zero_ℚ }
        ensures value { IfOk result (λ quotient. quotient ≡ rate /ℚ pivot) }
        ensures refused { IfErr result (IsRefusal 1 self.p self.q 0 j Op.Div rate pivot) }
        ensures needed { OnErr result (rate ≢ zero_ℚ) }
    {
        if rate.is_zero() {
            return Ok(rate);
        }
        if let Some(quotient) = by_unit(rate, pivot) {
            return Ok(quotient);
        }
        rate.div(pivot).map_err(|refused| self.evidence(ExchangeFormula::Quotient { j }, refused))
    }

    /// 1 over the pivot.
    fn reciprocal(self, pivot: Frac) -> Result<Frac, Evidence>
        requires { pivot ≢ zero_ℚ }
        ensures value { IfOk result (λ quotient. quotient ≡ one_ℚ /ℚ pivot) }
        ensures refused { IfErr result (IsRefusal 4 self.p self.q 0 0 Op.Div one_ℚ pivot) }
    {
        let one = Frac::whole(1);
        one.div(pivot).map_err(|refused| self.evidence(ExchangeFormula::Reciprocal, refused))
    }

    /// The rate of `i` at the leaver: the quotient there, times the rate at the entering variable.
    fn multiple(self, i: u32, quotient: Frac, factor: Frac) -> Result<Frac, Evidence>
        ensures value { IfOk result (λ rate. rate ≡ quotient *ℚ factor) }
        ensures refused { IfErr result (IsRefusal 5 self.p self.q i 0 Op.Mul quotient factor) }
    {
        if let Some(multiple) = product_by_unit(quotient, factor) {
            return Ok(multiple);
        }
        quotient.mul(factor).map_err(|refused| self.evidence(
            ExchangeFormula::Multiple { i },
            refused,
        ))
    }

    /// The quotient at `j` times the rate of `i` at the entering variable.
    fn product(self, i: u32, j: u32, quotient: Frac, factor: Frac) -> Result<Frac, Evidence>
        ensures value { IfOk result (λ product. product ≡ quotient *ℚ factor) }
        ensures refused { IfErr result (IsRefusal 2 self.p self.q i j Op.Mul quotient factor) }
    {
        if let Some(product) = product_by_unit(quotient, factor) {
            return Ok(product);
        }
        quotient.mul(factor).map_err(|refused| self.evidence(
            ExchangeFormula::Product { i, j },
            refused,
        ))
    }

    /// The rate of `i` at `j` less such a product.
    fn difference(self, i: u32, j: u32, rate: Frac, product: Frac) -> Result<Frac, Evidence>
        ensures value { IfOk result (λ difference. difference ≡ rate -ℚ product) }
        ensures refused { IfErr result (IsRefusal 3 self.p self.q i j Op.Sub rate product) }
    {
        if rate.is_zero() {
            return Ok(product.neg());
        }
        rate.sub(product).map_err(|refused| self.evidence(
            ExchangeFormula::Difference { i, j },
            refused,
        ))
    }

    /// The rate of `i` at `j` without its part along the entering variable's direction, by the plain operations.
    fn plain_rest(
        self,
        i: u32,
        j: u32,
        rate: Frac,
        quotient: Frac,
        factor: Frac,
    ) -> Result<Frac, Evidence>
        ensures value { IfOk result (λ rest. rest ≡ rate -ℚ quotient *ℚ factor) }
        ensures refused { IfErr result (IsDifferenceRefused self.p self.q i j rate
            quotient factor) }
    {
        if quotient.is_zero() {
            return Ok(rate);
        }
        let product = self.product(i, j, quotient, factor)?;
        self.difference(i, j, rate, product)
    }

    /// The same, also where only the plain operations are refused.
    fn rest(
        self,
        i: u32,
        j: u32,
        rate: Frac,
        quotient: Frac,
        factor: Frac,
    ) -> Result<Frac, Evidence>
        ensures value { IfOk result (λ rest. rest ≡ rate -ℚ quotient *ℚ factor) }
        ensures refused { IfErr result (IsDifferenceRefused self.p self.q i j rate
            quotient factor) }
    {
        if let Some(rest) = rest_by_unit(rate, quotient, factor) {
            return Ok(rest);
        }
        match self.plain_rest(i, j, rate, quotient, factor) {
            Ok(rest) => Ok(rest),
            Err(evidence) => match rate.sub_product(quotient, factor) {
                Some(rest) => Ok(rest),
                None => Err(evidence),
            },
        }
    }
}

/// The leaver's rates over the pivot, which is its rate at `q`, and 1 over the pivot at the leaver itself. Lists the variables
/// where that isn't 0, and says how many there are.
pub fn fill_quotients(
    rates: &[Frac],
    exchange: &Exchange,
    quotients: &mut [Frac],
    changed: &mut [u32],
) -> Result<usize, Evidence>
    requires q_low { 1 ≤ exchange.now.q }
    requires q_high { exchange.now.q ≤ length rates.now }
    requires small { length rates.now < 2 ^ 32 }
    requires room { length quotients.old ≡ length rates.now }
    requires list { length changed.old ≡ length rates.now }
    requires pivot { value_at rates.now exchange.now.q ≢ zero_ℚ }
    ensures filled { OnOk result
        (IsFilled quotients.new (quotient_at exchange.now.p exchange.now.q rates.now)) }
    ensures within { IfOk result (λ count. count ≤ length quotients.new) }
    ensures listed { IfOk result (λ count. AreChanged (take count changed.new) quotients.new) }
    ensures refused { IfErr result (QuotientRefused exchange.now.p exchange.now.q rates.now) }
{
    let Exchange { p, q } = *exchange;
    let pivot = rates[q as usize - 1];
    let mut count = 0;
    for (k, rate) in rates.iter().enumerate() {
        let j = k as u32 + 1;
        if j != p && rate.is_zero() {
            quotients[k] = *rate;
            continue;
        }
        quotients[k] = if j == p {
            exchange.reciprocal(pivot)?
        } else {
            exchange.quotient(j, *rate, pivot)?
        };
        changed[count] = j;
        count += 1;
    }
    Ok(count)
}

/// The entering variable's rates at the variables of the list, from the quotients.
fn fill_entering(exchange: &Exchange, quotients: &[Frac], changed: &[u32], next: &mut [Frac])
    requires variables { AreNumbers (length quotients.now) changed.now }
    requires room { length changed.now ≤ length next.old }
    ensures { IsFilledAt changed.now next.new
        (entering_rate exchange.now.p exchange.now.q quotients.now) }
{
    let Exchange { p, q } = *exchange;
    for (place, number) in changed.iter().enumerate() {
        let j = *number;
        let quotient = quotients[j as usize - 1];
        next[place] = if j == q {
            Frac::whole(0)
        } else if j == p {
            quotient
        } else {
            quotient.neg()
        };
    }
}

/// The rates of another basic `i` at the variables of the list, from those before.
fn fill_staying(
    rates: &[Frac],
    i: u32,
    exchange: &Exchange,
    quotients: &[Frac],
    changed: &[u32],
    next: &mut [Frac],
) -> Result<(), Evidence>
    requires q_low { 1 ≤ exchange.now.q }
    requires q_high { exchange.now.q ≤ length rates.now }
    requires places { length quotients.now ≡ length rates.now }
    requires variables { AreNumbers (length quotients.now) changed.now }
    requires room { length changed.now ≤ length next.old }
    ensures filled { OnOk result (IsFilledAt changed.now next.new
        (staying_rate exchange.now.p exchange.now.q quotients.now rates.now)) }
    ensures refused { IfErr result
        (StayingRefused i exchange.now.p exchange.now.q quotients.now rates.now) }
{
    let Exchange { p, q } = *exchange;
    let factor = rates[q as usize - 1];
    for (place, number) in changed.iter().enumerate() {
        let j = *number;
        let rate = rates[j as usize - 1];
        let quotient = quotients[j as usize - 1];
        next[place] = if j == q {
            Frac::whole(0)
        } else if j == p {
            exchange.multiple(i, quotient, factor)?
        } else {
            exchange.rest(i, j, rate, quotient, factor)?
        };
    }
    Ok(())
}

/// Writes the rates that were made ready to their places.
fn take_over(changed: &[u32], next: &[Frac], rates: &mut [Frac])
    requires variables { AreNumbers (length rates.old) changed.now }
    requires room { length changed.now ≤ length next.now }
    ensures { (f : ℕ → ℚ) → IsFilledAt changed.now next.now f → IsTakenOver changed.now rates.old
        rates.new f }
{
    for (place, number) in changed.iter().enumerate() {
        rates[*number as usize - 1] = next[place];
    }
}

impl Line {
    /// The line of a basic, with zeros.
    pub fn blank(alloc: Global, basic: u32, size: u32) -> Result<Line, NoMemory>
        ensures { IfOk result (IsBlankLine size basic) }
    {
        Ok(Line {
            basic,
            rates: vec![in alloc; Frac::whole(0); size as usize]?,
            next: vec![in alloc; Frac::whole(0); size as usize]?,
        })
    }

    /// Writes the rate at `j`.
    pub fn write(&mut self, j: u32, rate: Frac)
        requires low { 1 ≤ j }
        requires high { j ≤ length self.old.rates.items }
        ensures { IsWritten j rate self.old self.new }
    {
        self.rates[j as usize - 1] = rate;
    }

    /// Whether the exchange changes the line: it is the leaver's, or its rate at `q` isn't 0.
    pub fn changes(&self, exchange: &Exchange) -> bool
        requires q_low { 1 ≤ exchange.now.q }
        requires q_high { exchange.now.q ≤ length self.now.rates.items }
        ensures stays { result ≡ false → IsUnchanged exchange.now.p exchange.now.q self.now }
        ensures moves { result ≡ true → IsUnchanged exchange.now.p exchange.now.q self.now → ⊥ }
    {
        self.basic == exchange.p || !self.rates[exchange.q as usize - 1].is_zero()
    }

    /// Makes ready the rates that the exchange changes, at the variables of the list.
    pub fn prepare(
        &mut self,
        exchange: &Exchange,
        quotients: &[Frac],
        changed: &[u32],
    ) -> Result<(), Evidence>
        requires q_low { 1 ≤ exchange.now.q }
        requires q_high { exchange.now.q ≤ length quotients.now }
        requires variables { AreNumbers (length quotients.now) changed.now }
        requires listed { length changed.now ≤ length quotients.now }
        requires places { length self.old.rates.items ≡ length quotients.now }
        requires room { length self.old.next.items ≡ length quotients.now }
        ensures same { SameRates self.old self.new }
        ensures ready { OnOk result
            (IsReady exchange.now.p exchange.now.q quotients.now changed.now self.new) }
        ensures stays { OnErr result (self.old.basic ≢ exchange.now.p) }
        ensures refused { IfErr result
            (StayingRefused self.old.basic exchange.now.p exchange.now.q quotients.now
            self.old.rates.items) }
    {
        if self.basic == exchange.p {
            fill_entering(exchange, quotients, changed, &mut self.next);
            Ok(())
        } else if self.rates[exchange.q as usize - 1].is_zero() {
            Ok(())
        } else {
            fill_staying(
                &self.rates,
                self.basic,
                exchange,
                quotients,
                changed,
                &mut self.next,
            )
        }
    }

    /// Takes the rates that were made ready.
    pub fn commit(&mut self, exchange: &Exchange, changed: &[u32])
        requires q_low { 1 ≤ exchange.now.q }
        requires q_high { exchange.now.q ≤ length self.old.rates.items }
        requires variables { AreNumbers (length self.old.rates.items) changed.now }
        requires room { length changed.now ≤ length self.old.next.items }
        ensures { IsCommitted exchange.now.p exchange.now.q changed.now self.old self.new }
    {
        if self.basic == exchange.p {
            self.basic = exchange.q;
            take_over(changed, &self.next, &mut self.rates);
        } else if !self.rates[exchange.q as usize - 1].is_zero() {
            take_over(changed, &self.next, &mut self.rates);
        }
    }
}
