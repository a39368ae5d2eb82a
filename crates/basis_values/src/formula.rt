//! The operations of a formula at the basis itself. None is made that need not be: a sum with 0, a product with 0 or 1, a quotient
//! by 1.

ghost use Rattle.std.specs.Prelude.{◌≡◌, ◌≢◌, ◌↔◌, IsTrue, IfOk, IfErr, IfSome, OnErr};
ghost use Rattle.exact_values.specs.Rational.{zero_ℚ, one_ℚ, ◌+ℚ◌, ◌-ℚ◌, ◌*ℚ◌, ◌/ℚ◌};
ghost use Rattle.lp_definitions.specs.RatesEvidence.{Names};
ghost use Rattle.basis_values.specs.Formulas.{formula_of_rate, IsRefusal, IsTermRefusal};

use frac128::{Frac, Op, Refused};
use lp_model::Evidence;

/// A formula with its numbers, of which one that it does not use is 0: the variable `p` that leaves, `q` that enters or moves, the basic
/// or row `i`, the nonbasic `j`, and `term`, how many terms are added before or the number of a limit; and the value of the parameter.
#[derive(Clone, Copy)]
pub struct Formula {
    pub number: u8,
    pub p: u32,
    pub q: u32,
    pub i: u32,
    pub j: u32,
    pub term: u32,
    pub theta: Frac,
}

/// Whether the fraction is 1.
fn is_one(x: Frac) -> bool
    ensures { IsTrue result ↔ (x ≡ one_ℚ) }
{
    x == Frac::whole(1)
}

/// The sum with the product, also where the product doesn't fit but the sum can be computed by its parts.
pub fn plus_product(sum: Frac, x: Frac, y: Frac) -> Option<Frac>
    ensures { IfSome result (λ more. more ≡ sum +ℚ x *ℚ y) }
{
    sum.sub_product(x.neg(), y)
}

impl Formula {
    /// A formula of the rate of `i` at `j`, with its term.
    #[inline(always)]
    pub fn of_rate(number: u8, i: u32, j: u32, term: u32) -> Formula
        ensures { result ≡ formula_of_rate number i j term }
    {
        Formula {
            number,
            p: 0,
            q: 0,
            i,
            j,
            term,
            theta: Frac::whole(0),
        }
    }

    /// Evidence that an operation is refused.
    pub fn evidence(self, refused: Refused) -> Evidence
        ensures names { Names result self.number self.p self.q self.i self.j self.term }
        ensures no_way { result.way ≡ 0 }
        ensures theta { result.theta ≡ self.theta }
        ensures refused { result.refused ≡ refused }
    {
        Evidence {
            formula: self.number,
            way: 0,
            p: self.p,
            q: self.q,
            i: self.i,
            j: self.j,
            term: self.term,
            theta: self.theta,
            refused,
        }
    }

    /// The sum.
    #[inline(always)]
    pub fn sum(self, left: Frac, right: Frac) -> Result<Frac, Evidence>
        ensures value { IfOk result (λ sum. sum ≡ left +ℚ right) }
        ensures refused { IfErr result (IsRefusal self Op.Add left right) }
        ensures left { OnErr result (left ≢ zero_ℚ) }
        ensures right { OnErr result (right ≢ zero_ℚ) }
    {
        if left.is_zero() {
            return Ok(right);
        }
        if right.is_zero() {
            return Ok(left);
        }
        left.add(right).map_err(|refused| self.evidence(refused))
    }

    /// The difference.
    #[inline(always)]
    pub fn difference(self, left: Frac, right: Frac) -> Result<Frac, Evidence>
        ensures value { IfOk result (λ difference. difference ≡ left -ℚ right) }
        ensures refused { IfErr result (IsRefusal self Op.Sub left right) }
    {
        if left.is_zero() {
            return Ok(right.neg());
        }
        if right.is_zero() {
            return Ok(left);
        }
        left.sub(right).map_err(|refused| self.evidence(refused))
    }

    /// The product.
    #[inline(always)]
    pub fn product(self, left: Frac, right: Frac) -> Result<Frac, Evidence>
        ensures value { IfOk result (λ product. product ≡ left *ℚ right) }
        ensures refused { IfErr result (IsRefusal self Op.Mul left right) }
        ensures left { OnErr result (left ≢ zero_ℚ) }
        ensures right { OnErr result (right ≢ zero_ℚ) }
    {
        if left.is_zero() || is_one(right) {
            return Ok(left);
        }
        if right.is_zero() || is_one(left) {
            return Ok(right);
        }
        left.mul(right).map_err(|refused| self.evidence(refused))
    }

    /// The quotient.
    #[inline(always)]
    pub fn quotient(self, left: Frac, right: Frac) -> Result<Frac, Evidence>
        requires { right ≢ zero_ℚ }
        ensures value { IfOk result (λ quotient. quotient ≡ left /ℚ right) }
        ensures refused { IfErr result (IsRefusal self Op.Div left right) }
        ensures divides { OnErr result (right ≢ one_ℚ) }
    {
        if left.is_zero() || is_one(right) {
            return Ok(left);
        }
        left.div(right).map_err(|refused| self.evidence(refused))
    }

    /// The sum with the product, by the plain operations.
    fn plain_sum_with_product(&self, sum: Frac, x: Frac, y: Frac) -> Result<Frac, Evidence>
        ensures value { IfOk result (λ more. more ≡ sum +ℚ x *ℚ y) }
        ensures refused { IfErr result (IsTermRefusal self.now sum x y) }
        ensures needed { OnErr result (y ≢ zero_ℚ) }
    {
        let product = self.product(x, y)?;
        self.sum(sum, product)
    }

    /// The sum with the product, also where only the plain operations are refused.
    pub fn sum_with_product(&self, sum: Frac, x: Frac, y: Frac) -> Result<Frac, Evidence>
        ensures value { IfOk result (λ more. more ≡ sum +ℚ x *ℚ y) }
        ensures refused { IfErr result (IsTermRefusal self.now sum x y) }
        ensures needed { OnErr result (y ≢ zero_ℚ) }
    {
        match self.plain_sum_with_product(sum, x, y) {
            Ok(more) => Ok(more),
            Err(evidence) => match plus_product(sum, x, y) {
                Some(more) => Ok(more),
                None => Err(evidence),
            },
        }
    }
}
