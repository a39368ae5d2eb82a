//! Columns that are carried in whole numbers over one denominator. Where a number isn't whole or doesn't fit, the answer is None, and the
//! column has to be carried in fractions.

ghost use Rattle.std.specs.Prelude.{◌≡◌, ◌≢◌, ℕ, ◌≤◌, length, map, All, IfOk, IfSome};
ghost use Rattle.exact_values.specs.Rational.{zero_ℚ, one_ℚ, ◌*ℚ◌};
ghost use Rattle.lp_definitions.specs.LinearProgram.{value_at, on_row};
ghost use Rattle.whole_vectors.specs.Quotients.{quotients, Represent};
ghost use Rattle.eta_file.specs.Entries.{IsEntryWithin, AreApart, IsRowWithin, AreDistinctRows, scaled, IsWholeOf};
ghost use Rattle.eta_file.specs.Transformations.{IsWithinPlaces, IsSubtracted, IsTransformed, IsScaled, IsLeaving, IsColumnFilled, IsExchanged, AreZero};

use crate::eta::{EtaEntry, StoredEta, WholeEta};
use frac128::Frac;
use lp_model::{Entry, NoMemory, Ratio};
use std::alloc::Global;
use whole_vectors::{
    SparseWholes, common_multiple, product, product_by_scale, terms, whole_at, whole_number,
    whole_quotient,
};

/// 1 or -1, with which the pivot is positive.
fn sign_of_pivot(pivot: Frac) -> Frac
    ensures { result ≢ zero_ℚ }
{
    if pivot.sign() < 0 {
        Frac::whole(-1)
    } else {
        Frac::whole(1)
    }
}

/// A common multiple of a scale and of the denominator of a rate. Most rates have one denominator.
#[inline(always)]
fn with_denominator(scale: Frac, rate: &Ratio) -> Option<Frac>
    requires { scale ≢ zero_ℚ }
    ensures { IfSome result (λ multiple. multiple ≢ zero_ℚ) }
{
    let (_, den) = rate.terms();
    if den == scale.num() || den == -scale.num() {
        return Some(scale);
    }
    common_multiple(scale, rate.reduced())
}

/// A rate times a scale. Most rates have that one as their denominator.
#[inline(always)]
fn scaled_rate(rate: &Ratio, scale: Frac) -> Option<Ratio>
    ensures { IfSome result (λ product. product ≡ rate.now *ℚ scale) }
{
    let (num, den) = rate.terms();
    if scale.den() == 1 {
        if den == scale.num() {
            return Some(Ratio::new(num, 1));
        }
        if den == -scale.num() {
            return Some(Ratio::new(-num, 1));
        }
    }
    let made = product_by_scale(rate.reduced(), scale)?;
    Some(Ratio::of(made))
}

/// A common multiple of the denominators of the entries, with the sign of the pivot.
fn common_scale(pivot: Frac, entries: &[EtaEntry]) -> Option<Frac>
    ensures { IfSome result (λ scale. scale ≢ zero_ℚ) }
{
    let mut scale = sign_of_pivot(pivot);
    for entry in entries {
        scale = with_denominator(scale, &entry.rate)?;
    }
    Some(scale)
}

/// The entries, each times a number.
fn scaled_entries(
    alloc: Global,
    entries: &[EtaEntry],
    scale: Frac,
) -> Result<Option<Vec<EtaEntry>>, NoMemory>
    ensures { IfOk result (λ made. IfSome made (λ list. list.items ≡ map (scaled scale)
        entries.now)) }
{
    let mut list = Vec::with_capacity(alloc, entries.len())?;
    for entry in entries {
        let Some(rate) = scaled_rate(&entry.rate, scale) else {
            return Ok(None);
        };
        list.push(EtaEntry { i: entry.i, rate })
            .map_err(|_| NoMemory)?;
    }
    Ok(Some(list))
}

/// The pivot and the entries of an eta as whole numbers, where they fit.
pub fn whole_eta(
    alloc: Global,
    pivot: Frac,
    entries: &[EtaEntry],
) -> Result<Option<WholeEta>, NoMemory>
    ensures { IfOk result (λ made. IfSome made (IsWholeOf pivot entries.now)) }
{
    let Some(scale) = common_scale(pivot, entries) else {
        return Ok(None);
    };
    let Some(pivot) = product(pivot, scale) else {
        return Ok(None);
    };
    match scaled_entries(alloc, entries, scale)? {
        Some(entries) => Ok(Some(WholeEta {
            scale,
            pivot,
            entries,
        })),
        None => Ok(None),
    }
}

/// A common multiple of the denominators of a column.
fn column_scale(column: &[Entry]) -> Option<Frac>
    ensures { IfSome result (λ scale. scale ≢ zero_ℚ) }
{
    let mut scale = Frac::whole(1);
    for entry in column {
        scale = common_multiple(scale, entry.value)?;
    }
    Some(scale)
}

/// Puts the numbers of a column on its rows, each times a number.
fn place_rows(column: &[Entry], j: u32, scale: Frac, out: &mut SparseWholes) -> Option<()>
    requires rows { All (IsRowWithin j) column.now }
    requires high { j ≤ length out.old }
    requires distinct { AreDistinctRows column.now }
    requires zero { AreZero out.old }
    ensures rows { IfSome result (λ _. (k : ℕ) → 1 ≤ k →
        value_at out.new k ≡ on_row column.now k *ℚ scale) }
    ensures places { length out.new ≡ length out.old }
{
    for entry in column {
        let value = product_by_scale(entry.value, scale)?;
        let number = whole_number(value)?;
        out.put(entry.row, number)?;
    }
    Some(())
}

/// The direction that the column `j`, whose numbers these are, has where the rows are basic, over the denominator that is given. `out` is
/// all 0.
pub fn begin_whole(column: &[Entry], j: u32, out: &mut SparseWholes) -> Option<Frac>
    requires rows { All (IsRowWithin j) column.now }
    requires low { 1 ≤ j }
    requires high { j ≤ length out.old }
    requires distinct { AreDistinctRows column.now }
    requires zero { AreZero out.old }
    ensures filled { IfSome result (λ d. Represent (IsColumnFilled column.now j) d out.new) }
    ensures places { length out.new ≡ length out.old }
{
    let scale = column_scale(column)?;
    place_rows(column, j, scale, out)?;
    let own = whole_number(scale)?;
    out.put(j, own)?;
    Some(scale)
}

/// Takes from each entry but the leaver's its part along the entering variable's direction.
fn subtract_whole(
    entries: &[EtaEntry],
    p: u32,
    multiple: Frac,
    out: &mut SparseWholes,
) -> Option<()>
    requires { All (IsEntryWithin (length out.old)) entries.now }
    ensures subtracted { IfSome result (λ _. IsSubtracted p multiple entries.now
        out.old out.new) }
    ensures places { length out.new ≡ length out.old }
{
    let opposite = whole_number(multiple.neg())?;
    for entry in entries {
        if entry.i != p {
            out.add_product(entry.i, opposite, entry.rate.as_whole()?)?;
        }
    }
    Some(())
}

/// What the exchange of `p` for `q` makes of the numbers, where this multiple of the eta is taken from them.
fn exchange_whole(
    whole: &WholeEta,
    p: u32,
    q: u32,
    multiple: Frac,
    out: &mut SparseWholes,
) -> Option<()>
    requires p_low { 1 ≤ p }
    requires p_high { p ≤ length out.old }
    requires q_low { 1 ≤ q }
    requires q_high { q ≤ length out.old }
    requires entries { All (IsEntryWithin (length out.old)) whole.now.entries.items }
    ensures exchanged { IfSome result (λ _. IsExchanged p q multiple whole.now out.old out.new) }
    ensures places { length out.new ≡ length out.old }
{
    subtract_whole(&whole.entries, p, multiple, out)?;
    let at_q = product(multiple, whole.scale)?;
    let opposite = whole_number(at_q.neg())?;
    out.put(p, 0)?;
    out.put(q, opposite)
}

/// Transforms the numbers of a direction by an eta, and gives their denominator after it. One of `least` or more is reduced before.
pub fn transform_whole(
    eta: &StoredEta,
    least: u128,
    denominator: Frac,
    out: &mut SparseWholes,
) -> Option<Frac>
    requires places { IsWithinPlaces (length out.old) eta.now }
    requires whole { IfSome eta.now.whole (IsWholeOf eta.now.pivot eta.now.entries.items) }
    requires apart { denominator ≢ zero_ℚ }
    ensures transformed { IfSome result (λ d. Represent (IsTransformed eta.now
        (quotients denominator out.old)) d out.new) }
    ensures places { length out.new ≡ length out.old }
{
    let lead = whole_at(out.numbers(), eta.p);
    if lead == 0 {
        return Some(denominator);
    }
    let Some(whole) = &eta.whole else {
        return None;
    };
    let denominator = out.reduce_from(least, denominator)?;
    let lead = whole_at(out.numbers(), eta.p);
    let ratio = whole_quotient(lead, whole.pivot)?;
    let (multiple, by) = terms(ratio);
    out.multiply(by)?;
    exchange_whole(whole, eta.p, eta.q, multiple, out)?;
    product(denominator, by)
}

/// Puts the rates of the entries but the leaver's at their places.
fn place_entries(entries: &[EtaEntry], p: u32, out: &mut SparseWholes) -> Option<()>
    requires within { All (IsEntryWithin (length out.old)) entries.now }
    requires apart { AreApart entries.now }
    requires zero { AreZero out.old }
    ensures scaled { IfSome result (λ _. IsScaled p one_ℚ entries.now out.new) }
    ensures places { length out.new ≡ length out.old }
{
    for entry in entries {
        if entry.i != p {
            let number = whole_number(entry.rate.as_whole()?)?;
            out.put(entry.i, number)?;
        }
    }
    Some(())
}

/// The direction that the leaver of an eta has after it, over the denominator that is given. `out` is all 0.
pub fn leave_whole(eta: &StoredEta, out: &mut SparseWholes) -> Option<Frac>
    requires within { IsWithinPlaces (length out.old) eta.now }
    requires apart { AreApart eta.now.entries.items }
    requires whole { IfSome eta.now.whole (IsWholeOf eta.now.pivot eta.now.entries.items) }
    requires zero { AreZero out.old }
    ensures leaving { IfSome result (λ d. Represent (IsLeaving eta.now) d out.new) }
    ensures places { length out.new ≡ length out.old }
{
    let Some(whole) = &eta.whole else {
        return None;
    };
    place_entries(&whole.entries, eta.p, out)?;
    let at_p = whole_number(whole.pivot)?;
    out.put(eta.p, at_p)?;
    let at_q = whole_number(whole.scale)?;
    out.put(eta.q, at_q)?;
    Some(whole.pivot)
}
