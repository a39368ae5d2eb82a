//! A column carried through the file, by a forward transformation (FTRAN): where it begins, and what each eta makes of it.

ghost use Rattle.std.specs.Prelude.{◌≡◌, ◌≢◌, ◌+◌, ◌-◌, ◌*◌, ◌<◌, ◌≤◌, ◌^◌, length, All, IfOk, IfErr, OnOk};
ghost use Rattle.exact_values.specs.Rational.{zero_ℚ, one_ℚ, neg_ℚ, ◌-ℚ◌, ◌*ℚ◌, ◌/ℚ◌};
ghost use Rattle.lp_definitions.specs.LinearProgram.{value_at, on_row};
ghost use Rattle.lp_definitions.specs.RatesEvidence.{Names};
ghost use Rattle.eta_file.specs.Entries.{sum_rate, others, IsEntryWithin, AreApart, AreDistinctRows, IsRowWithin};
ghost use Rattle.eta_file.specs.Transformations.{IsWithinPlaces, IsSubtracted, IsTransformed, IsScaled, IsLeaving, IsColumnFilled, AreZero, NoneLater, LeftAt};
ghost use Rattle.lp_model.specs.Formulas.{number_of, basic_of, nonbasic_of};
ghost use Rattle.eta_file.specs.Refusals.{IsRefusal, IsRestRefused, SubtractRefused, TransformRefused, ScaleRefused, LeaveRefused};

use crate::eta::{EtaEntry, StoredEta};
use crate::steps::Steps;
use frac128::{Frac, Op, Refused};
use lp_model::{Entry, Evidence, ExchangeFormula};
use std::sync::ledger::Ledger;

/// The transformation of a column by an eta: the number of the set before it, and its exchange.
#[derive(Clone, Copy)]
struct Transformation {
    way: u32,
    p: u32,
    q: u32,
}

impl Transformation {
    /// The evidence that a formula is refused at the set before the eta.
    fn evidence(self, formula: ExchangeFormula, refused: Refused) -> Evidence
        ensures names { Names result (number_of formula) self.p self.q (basic_of formula)
            (nonbasic_of formula) 0 }
        ensures way { result.way ≡ self.way }
        ensures no_theta { result.theta ≡ zero_ℚ }
        ensures refused { result.refused ≡ refused }
    {
        formula.evidence(self.way, self.p, self.q, refused)
    }

    /// The rate of the leaver at `j` over the pivot.
    fn quotient<L: Ledger>(
        self,
        j: u32,
        lead: Frac,
        pivot: Frac,
        steps: &mut Steps<L>,
    ) -> Result<Frac, Evidence>
        requires { pivot ≢ zero_ℚ }
        ensures value { IfOk result (λ quotient. quotient ≡ lead /ℚ pivot) }
        ensures refused { IfErr result (IsRefusal self.way 1 self.p self.q 0 j Op.Div lead pivot) }
        ensures cost { steps.new ≡ steps.old + 1 }
    {
        steps.tick();
        lead.div(pivot).map_err(|refused| self.evidence(ExchangeFormula::Quotient { j }, refused))
    }

    /// 1 over the pivot.
    fn reciprocal<L: Ledger>(self, pivot: Frac, steps: &mut Steps<L>) -> Result<Frac, Evidence>
        requires { pivot ≢ zero_ℚ }
        ensures value { IfOk result (λ quotient. quotient ≡ one_ℚ /ℚ pivot) }
        ensures refused { IfErr result (IsRefusal self.way 4 self.p self.q 0 0 Op.Div one_ℚ pivot) }
        ensures cost { steps.new ≡ steps.old + 1 }
    {
        steps.tick();
        let one = Frac::whole(1);
        one.div(pivot).map_err(|refused| self.evidence(ExchangeFormula::Reciprocal, refused))
    }

    /// The reciprocal times the rate of `i` at the entering variable.
    fn multiple<L: Ledger>(
        self,
        i: u32,
        reciprocal: Frac,
        rate: Frac,
        steps: &mut Steps<L>,
    ) -> Result<Frac, Evidence>
        ensures value { IfOk result (λ multiple. multiple ≡ reciprocal *ℚ rate) }
        ensures refused { IfErr result (IsRefusal self.way 5 self.p self.q i 0 Op.Mul
            reciprocal rate) }
        ensures cost { steps.new ≡ steps.old + 1 }
    {
        steps.tick();
        reciprocal.mul(rate).map_err(|refused| self.evidence(
            ExchangeFormula::Multiple { i },
            refused,
        ))
    }

    /// The quotient times the rate of `i` at the entering variable.
    fn product(self, i: u32, j: u32, quotient: Frac, factor: Frac) -> Result<Frac, Evidence>
        ensures value { IfOk result (λ product. product ≡ quotient *ℚ factor) }
        ensures refused { IfErr result (IsRefusal self.way 2 self.p self.q i j Op.Mul
            quotient factor) }
    {
        quotient.mul(factor).map_err(|refused| self.evidence(
            ExchangeFormula::Product { i, j },
            refused,
        ))
    }

    /// The rate of `i` at `j` less such a product.
    fn difference(self, i: u32, j: u32, rate: Frac, product: Frac) -> Result<Frac, Evidence>
        ensures value { IfOk result (λ difference. difference ≡ rate -ℚ product) }
        ensures refused { IfErr result (IsRefusal self.way 3 self.p self.q i j Op.Sub
            rate product) }
    {
        rate.sub(product).map_err(|refused| self.evidence(
            ExchangeFormula::Difference { i, j },
            refused,
        ))
    }

    /// The rate at `j` of the basic of an entry without its part along the entering variable's direction. Where the product or the
    /// difference doesn't fit, it is computed from the product's parts. Either way this counts as two operations.
    fn rest<L: Ledger>(
        self,
        entry: &EtaEntry,
        j: u32,
        rate: Frac,
        quotient: Frac,
        steps: &mut Steps<L>,
    ) -> Result<Frac, Evidence>
        ensures value { IfOk result (λ rest. rest ≡ rate -ℚ quotient *ℚ entry.now.rate) }
        ensures refused { IfErr result (IsRestRefused self.way self.p self.q entry.now.i j rate
            quotient entry.now.rate) }
        ensures cost { steps.new ≡ steps.old + 2 }
    {
        steps.tick();
        steps.tick();
        match self.plain_rest(entry, j, rate, quotient) {
            Ok(rest) => Ok(rest),
            Err(evidence) => match rate.sub_product(quotient, entry.rate.reduced()) {
                Some(rest) => Ok(rest),
                None => Err(evidence),
            },
        }
    }

    /// The same by a product and a difference alone.
    fn plain_rest(
        self,
        entry: &EtaEntry,
        j: u32,
        rate: Frac,
        quotient: Frac,
    ) -> Result<Frac, Evidence>
        ensures value { IfOk result (λ rest. rest ≡ rate -ℚ quotient *ℚ entry.now.rate) }
        ensures refused { IfErr result (IsRestRefused self.way self.p self.q entry.now.i j rate
            quotient entry.now.rate) }
    {
        let product = self.product(entry.i, j, quotient, entry.rate.reduced())?;
        self.difference(entry.i, j, rate, product)
    }

    /// Takes from each entry of the column but the leaver's its part along the entering variable's direction.
    fn subtract<L: Ledger>(
        self,
        entries: &[EtaEntry],
        j: u32,
        quotient: Frac,
        out: &mut [Frac],
        steps: &mut Steps<L>,
    ) -> Result<(), Evidence>
        requires { All (IsEntryWithin (length out.old)) entries.now }
        ensures subtracted { OnOk result (IsSubtracted self.p quotient entries.now
            out.old out.new) }
        ensures refused { IfErr result (SubtractRefused self.way self.p self.q j quotient
            entries.now out.old) }
        ensures cost { steps.new ≤ steps.old + 2 * others self.p entries.now }
    {
        for entry in entries {
            if entry.i != self.p {
                let place = entry.i as usize - 1;
                out[place] = self.rest(entry, j, out[place], quotient, steps)?;
            }
        }
        Ok(())
    }

    /// Makes each entry but the leaver's the multiple of the entering variable's rate.
    fn scale<L: Ledger>(
        self,
        entries: &[EtaEntry],
        reciprocal: Frac,
        out: &mut [Frac],
        steps: &mut Steps<L>,
    ) -> Result<(), Evidence>
        requires within { All (IsEntryWithin (length out.old)) entries.now }
        requires apart { AreApart entries.now }
        requires zero { AreZero out.old }
        ensures scaled { OnOk result (IsScaled self.p reciprocal entries.now out.new) }
        ensures refused { IfErr result (ScaleRefused self.way self.p self.q reciprocal
            entries.now) }
        ensures cost { steps.new ≤ steps.old + others self.p entries.now }
    {
        for entry in entries {
            if entry.i != self.p {
                let place = entry.i as usize - 1;
                out[place] = self.multiple(entry.i, reciprocal, entry.rate.reduced(), steps)?;
            }
        }
        Ok(())
    }
}

/// Transforms the direction of `j` by an eta, whose number as a waypoint this is.
pub fn transform<L: Ledger>(
    eta: &StoredEta,
    way: u32,
    j: u32,
    out: &mut [Frac],
    steps: &mut Steps<L>,
) -> Result<(), Evidence>
    requires { IsWithinPlaces (length out.old) eta.now }
    ensures transformed { OnOk result (IsTransformed eta.now out.old out.new) }
    ensures refused { IfErr result (TransformRefused eta.now way j out.old) }
    ensures cost { steps.new ≤ steps.old + 1 + 2 * others eta.now.p eta.now.entries.items }
{
    let lead = out[eta.p as usize - 1];
    if lead.is_zero() {
        return Ok(());
    }
    let transformation = Transformation {
        way,
        p: eta.p,
        q: eta.q,
    };
    let quotient = transformation.quotient(j, lead, eta.pivot, steps)?;
    transformation.subtract(&eta.entries, j, quotient, out, steps)?;
    out[eta.p as usize - 1] = Frac::whole(0);
    out[eta.q as usize - 1] = quotient.neg();
    Ok(())
}

/// Fills with 0. Most places of a sparse program are 0 already, and what is 0 isn't written.
pub fn clear(out: &mut [Frac])
    ensures { AreZero out.new }
{
    for place in out.iter_mut() {
        if !place.is_zero() {
            *place = Frac::whole(0);
        }
    }
}

/// The direction that the leaver of an eta has after it.
pub fn leave<L: Ledger>(
    eta: &StoredEta,
    way: u32,
    out: &mut [Frac],
    steps: &mut Steps<L>,
) -> Result<(), Evidence>
    requires within { IsWithinPlaces (length out.old) eta.now }
    requires apart { AreApart eta.now.entries.items }
    ensures leaving { OnOk result (IsLeaving eta.now out.new) }
    ensures refused { IfErr result (LeaveRefused eta.now way) }
    ensures cost { steps.new ≤ steps.old + 1 + others eta.now.p eta.now.entries.items }
{
    let transformation = Transformation {
        way,
        p: eta.p,
        q: eta.q,
    };
    let reciprocal = transformation.reciprocal(eta.pivot, steps)?;
    clear(out);
    transformation.scale(&eta.entries, reciprocal, out, steps)?;
    out[eta.p as usize - 1] = Frac::whole(1);
    out[eta.q as usize - 1] = reciprocal;
    Ok(())
}

/// The direction that the column `j`, whose numbers these are, has where the rows are basic. `out` is all 0.
fn place_column(column: &[Entry], j: u32, out: &mut [Frac])
    requires rows { All (IsRowWithin j) column.now }
    requires low { 1 ≤ j }
    requires high { j ≤ length out.old }
    requires distinct { AreDistinctRows column.now }
    requires zero { AreZero out.old }
    ensures { IsColumnFilled column.now j out.new }
{
    for entry in column {
        out[entry.row as usize - 1] = entry.value;
    }
    out[j as usize - 1] = Frac::whole(1);
}

/// The same, whatever `out` has.
pub fn fill_column(column: &[Entry], j: u32, out: &mut [Frac])
    requires rows { All (IsRowWithin j) column.now }
    requires low { 1 ≤ j }
    requires high { j ≤ length out.old }
    requires distinct { AreDistinctRows column.now }
    ensures { IsColumnFilled column.now j out.new }
{
    clear(out);
    place_column(column, j, out);
}

/// The number of etas up to the last one at which `j` left, or 0.
pub fn last_left(etas: &[StoredEta], j: u32) -> usize
    ensures within { result ≤ length etas.now }
    ensures none_later { NoneLater etas.now j result }
    ensures left { LeftAt etas.now j result }
{
    let mut last = 0;
    for (k, eta) in etas.iter().enumerate() {
        if eta.p == j {
            last = k + 1;
        }
    }
    last
}
