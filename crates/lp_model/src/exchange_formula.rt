//! The formulas of an exchange, and the evidence that one is refused.

ghost use Rattle.std.specs.Prelude.{◌≡◌};
ghost use Rattle.exact_values.specs.Rational.{zero_ℚ};
ghost use Rattle.lp_definitions.specs.RatesEvidence.{Names};
ghost use Rattle.lp_model.specs.Formulas.{number_of, basic_of, nonbasic_of};

use frac128::{Frac, Refused};
use lp_definitions::Evidence;

/// A formula of an exchange, with the basic `i` and the nonbasic `j` that it is of besides the leaver and the entering variable.
#[derive(Clone, Copy)]
pub enum ExchangeFormula {
    /// The rate of the leaver at `j` over the pivot.
    Quotient { j: u32 },
    /// That quotient times the rate of `i` at the entering variable.
    Product { i: u32, j: u32 },
    /// The rate of `i` at `j` less that product.
    Difference { i: u32, j: u32 },
    /// 1 over the pivot.
    Reciprocal,
    /// That reciprocal times the rate of `i` at the entering variable.
    Multiple { i: u32 },
}

impl ExchangeFormula {
    /// The number by which a listing names it.
    fn number(self) -> u8
        ensures { result ≡ number_of self }
    {
        match self {
            ExchangeFormula::Quotient { .. } => 1,
            ExchangeFormula::Product { .. } => 2,
            ExchangeFormula::Difference { .. } => 3,
            ExchangeFormula::Reciprocal => 4,
            ExchangeFormula::Multiple { .. } => 5,
        }
    }

    /// The basic that it is of, or 0.
    fn basic(self) -> u32
        ensures { result ≡ basic_of self }
    {
        match self {
            ExchangeFormula::Product { i, .. }
            | ExchangeFormula::Difference { i, .. }
            | ExchangeFormula::Multiple { i } => i,
            ExchangeFormula::Quotient { .. } | ExchangeFormula::Reciprocal => 0,
        }
    }

    /// The nonbasic that it is of, or 0.
    fn nonbasic(self) -> u32
        ensures { result ≡ nonbasic_of self }
    {
        match self {
            ExchangeFormula::Quotient { j }
            | ExchangeFormula::Product { j, .. }
            | ExchangeFormula::Difference { j, .. } => j,
            ExchangeFormula::Reciprocal | ExchangeFormula::Multiple { .. } => 0,
        }
    }

    /// The evidence that it is refused where `q` becomes basic in place of `p`, at the set of basics with this number.
    pub fn evidence(self, way: u32, p: u32, q: u32, refused: Refused) -> Evidence
        ensures names { Names result (number_of self) p q (basic_of self) (nonbasic_of self) 0 }
        ensures way { result.way ≡ way }
        ensures no_theta { result.theta ≡ zero_ℚ }
        ensures refused { result.refused ≡ refused }
    {
        Evidence {
            formula: self.number(),
            way,
            p,
            q,
            i: self.basic(),
            j: self.nonbasic(),
            term: 0,
            theta: Frac::whole(0),
            refused,
        }
    }
}
