//! How far a multiple of a row may be taken off the objective until a price has the wrong sign.

ghost use Rattle.std.specs.Prelude.{◌≡◌, ◌≢◌, length, IfOk, IfErr, OnErr};
ghost use Rattle.exact_values.specs.Rational.{zero_ℚ};
ghost use Rattle.frac128.specs.declared.Op.TheVariants.{Div};
ghost use Rattle.sensitivity_laws.specs.Changes.{SidesHold};
ghost use Rattle.lp_definitions.specs.LinearProgram.{size, value_at, IsVariable};
ghost use Rattle.basis_values.specs.Formulas.{IsRefusal};
ghost use Rattle.ranging.specs.Formulas.{ratio_formula};
ghost use Rattle.ranging.specs.RowEnds.{rate_bound, keeps_below, sides_of, RatesStayTo, IsTightenedIf, IsWithRate, AreRowEnds, RatioRefused};

use crate::choices::ways_of;
use affine_laws::{Ends, ProductBound, tightened};
use basis_values::Formula;
use frac128::Frac;
use lp_model::{Basis, Evidence, Lp, Sense};

/// Whether the price keeps its multiples of the rate below it.
fn is_below(sense: Sense, rising: bool) -> bool
    ensures { result ≡ keeps_below sense rising }
{
    match sense {
        Sense::Min => rising,
        Sense::Max => !rising,
    }
}

/// The rate of a basic at a nonbasic, and the nonbasic's price.
#[derive(Clone, Copy)]
struct PricedRate {
    basic: u32,
    nonbasic: u32,
    price: Frac,
    rate: Frac,
}

impl PricedRate {
    /// Formula 14: the price over the rate.
    fn formula(&self) -> Formula
        ensures { result ≡ ratio_formula self.now.basic self.now.nonbasic }
    {
        Formula::of_rate(14, self.basic, self.nonbasic, 0)
    }

    /// The bound of the price on the multiple that is taken off.
    fn bound(&self, sense: Sense, rising: bool) -> ProductBound
        ensures { result ≡ rate_bound sense rising self.now.price self.now.rate self.now.nonbasic }
    {
        ProductBound {
            at_most: is_below(sense, rising),
            slope: self.rate,
            number: self.price,
            by: self.nonbasic,
            which: 0,
        }
    }

    /// The ends with the bound of the price, if it is one.
    fn with_bound(
        &self,
        may: bool,
        ends: Ends,
        sense: Sense,
        rising: bool,
    ) -> Result<Ends, Evidence>
        requires { self.now.rate ≢ zero_ℚ }
        ensures tightened { IfOk result (IsTightenedIf may ends
            (rate_bound sense rising self.now.price self.now.rate self.now.nonbasic)) }
        ensures refused { IfErr result (IsRefusal (ratio_formula self.now.basic self.now.nonbasic)
            Div self.now.price self.now.rate) }
    {
        if !may {
            return Ok(ends);
        }
        let bound = self.bound(sense, rising);
        match tightened(ends, &bound) {
            Ok(now) => Ok(now),
            Err(refused) => Err(self.formula().evidence(refused)),
        }
    }

    /// The ends with the bounds of the price both ways.
    fn with_bounds(&self, lp: &Lp, basis: &Basis, ends: Ends) -> Result<Ends, Evidence>
        requires variable { IsVariable lp.now.matrix self.now.nonbasic }
        requires counted { length basis.now ≡ size lp.now.matrix }
        requires holds { SidesHold (sides_of lp.now basis.now self.now.price self.now.rate
            self.now.nonbasic) zero_ℚ }
        ensures ends { IfOk result (IsWithRate lp.now basis.now self.now.price self.now.rate
            self.now.nonbasic ends) }
        ensures moves { OnErr result (self.now.rate ≢ zero_ℚ) }
        ensures refused { IfErr result (IsRefusal (ratio_formula self.now.basic self.now.nonbasic)
            Div self.now.price self.now.rate) }
    {
        if self.rate.is_zero() {
            return Ok(ends);
        }
        let ways = ways_of(lp, basis, self.nonbasic);
        let risen = self.with_bound(ways.up, ends, lp.sense, true)?;
        self.with_bound(ways.down, risen, lp.sense, false)
    }
}

/// The ends of the multiples of the row that may be taken off the objective, so that each price keeps its sign. `i` is the row's
/// basic.
pub fn row_ends(
    lp: &Lp,
    basis: &Basis,
    prices: &[Frac],
    row: &[Frac],
    i: u32,
) -> Result<Ends, Evidence>
    requires counted { length basis.now ≡ size lp.now.matrix }
    requires prices { length prices.now ≡ size lp.now.matrix }
    requires places { length row.now ≡ size lp.now.matrix }
    requires holds { RatesStayTo lp.now basis.now (value_at prices.now) (value_at row.now)
        (size lp.now.matrix) zero_ℚ }
    ensures ends { IfOk result (AreRowEnds lp.now basis.now (value_at prices.now) (value_at row.now)
        (size lp.now.matrix)) }
    ensures refused { IfErr result (RatioRefused (value_at prices.now) (value_at row.now)
        (size lp.now.matrix) i) }
{
    let mut ends = Ends {
        low: None,
        high: None,
    };
    for k in 0..lp.number_of_variables() {
        let priced = PricedRate {
            basic: i,
            nonbasic: k + 1,
            price: prices[k as usize],
            rate: row[k as usize],
        };
        ends = priced.with_bounds(lp, basis, ends)?;
    }
    Ok(ends)
}
