//! The three lists of a report, from the ends of the rows and of the limits.

ghost use Rattle.std.specs.Prelude.{◌≡◌, ◌↔◌, ◌<◌, ◌≤◌, ◌-◌, ◌&&◌, not, nat_eq, None, length, IfOk, IfErr};
ghost use Rattle.exact_values.specs.Rational.{ℚ};
ghost use Rattle.ranging.specs.Intervals.{IsIn, taken_from, DifferenceRefused};
ghost use Rattle.lp_definitions.specs.LinearProgram.{size, cost, IsColumn, IsVariable};
ghost use Rattle.lp_definitions.specs.Basis.{is_basic, status_of, IsOptimalBasis};
ghost use Rattle.lp_model.specs.RatesCalls.{IfOverflow};
ghost use Rattle.simplex_definitions.specs.Moves.{may_rise, may_fall};
ghost use Rattle.simplex_definitions.specs.Ranges.{with_row, with_cost, with_limit, at_limits, columns_of, intermediate_rows};
ghost use Rattle.ranging.specs.Optima.{IsOptimum, AreEndsOfRows, AreEndsOfLimits};
ghost use Rattle.ranging.specs.Lists.{price_end, own_ends_of, ListsTo, RefusedAnywhere};

use crate::choices::{at_limit, stands_basic, ways_of};
use crate::intervals::{cost_interval, limit_interval, row_interval};
use crate::optimum::Optimum;
use affine_laws::{Endpoint, Ends};
use frac128::Frac;
use lp_model::{Basis, Evidence, Interval, Lp, NoMemory, Sense, Stop};
use std::alloc::Global;

/// The items of a list: what changes, by its number, and the interval that it has.
type ListItems = Vec<(u32, Interval)>;

/// Whether `i` is a basic row other than the objective.
fn is_intermediate(lp: &Lp, basis: &Basis, i: u32) -> bool
    requires low { 1 ≤ i }
    requires high { i ≤ length basis.now }
    ensures { result ≡ (is_basic (status_of basis.now i) && not (nat_eq i lp.now.objective)) }
{
    stands_basic(basis, i) && i != lp.objective
}

/// The intervals of the multiples of the rows.
pub fn row_list(alloc: Global, at: &Optimum<'_>, found: &[Ends]) -> Result<ListItems, NoMemory>
    requires optimum { IsOptimum at.now }
    requires found { AreEndsOfRows at.now found.now }
    ensures { IfOk result (λ list. ListsTo (intermediate_rows at.now.lp.now at.now.basis.now)
        (λ i t. IsOptimalBasis (with_row at.now.lp.now i t) at.now.basis.now) list.items) }
{
    let lp = at.lp;
    let mut list = Vec::new(alloc);
    for k in 0..lp.rows {
        if !is_intermediate(lp, at.basis, k + 1) {
            continue;
        }
        let interval = row_interval(&found[k as usize]);
        list.push((k + 1, interval)).map_err(|_| NoMemory)?;
    }
    Ok(list)
}

/// An end at the price of `k`, if it is one.
fn end_at(there: bool, price: Frac, k: u32) -> Option<Endpoint>
    ensures { result ≡ price_end there price k }
{
    if there {
        Some(Endpoint {
            value: price,
            by: k,
            which: 0,
        })
    } else {
        None
    }
}

/// The ends of what may be taken off the price of the nonbasic `k` itself.
fn own_ends(lp: &Lp, basis: &Basis, price: Frac, k: u32) -> Ends
    requires variable { IsVariable lp.now.matrix k }
    requires counted { length basis.now ≡ size lp.now.matrix }
    ensures { result ≡ own_ends_of lp.now.sense (may_rise lp.now basis.now k)
        (may_fall lp.now basis.now k) price k }
{
    let ways = ways_of(lp, basis, k);
    match lp.sense {
        Sense::Min => Ends {
            low: end_at(ways.down, price, k),
            high: end_at(ways.up, price, k),
        },
        Sense::Max => Ends {
            low: end_at(ways.up, price, k),
            high: end_at(ways.down, price, k),
        },
    }
}

/// The interval of the cost of the nonbasic `k`, which is a column.
fn nonbasic_cost(lp: &Lp, basis: &Basis, price: Frac, k: u32) -> Result<Interval, Evidence>
    requires no_change { lp.now.change ≡ None }
    requires counted { length basis.now ≡ size lp.now.matrix }
    requires column { IsColumn lp.now.matrix (k - lp.now.rows) }
    requires variable { IsVariable lp.now.matrix k }
    requires past { lp.now.rows < k }
    ensures interval { IfOk result
        (λ interval. interval ≡ taken_from (cost lp.now (k - lp.now.rows))
        (own_ends_of lp.now.sense (may_rise lp.now basis.now k)
        (may_fall lp.now basis.now k) price k)) }
    ensures refused { IfErr result
        (DifferenceRefused (cost lp.now (k - lp.now.rows)) (own_ends_of lp.now.sense
        (may_rise lp.now basis.now k) (may_fall lp.now basis.now k) price k) 0) }
{
    let ends = own_ends(lp, basis, price, k);
    cost_interval(lp.cost(k - lp.rows), &ends, 0)
}

/// The interval of the cost of the column that is the variable `k`.
fn column_cost(at: &Optimum<'_>, found: &[Ends], k: u32) -> Result<Interval, Evidence>
    requires optimum { IsOptimum at.now }
    requires found { AreEndsOfRows at.now found.now }
    requires variable { IsVariable at.now.lp.now.matrix k }
    requires past { at.now.lp.now.rows < k }
    ensures interval { IfOk result (λ interval. (t : ℚ) → IsIn interval t ↔ IsOptimalBasis
        (with_cost at.now.lp.now k t) at.now.basis.now) }
    ensures refused { IfErr result (RefusedAnywhere at.now.lp.now at.now.basis.now) }
{
    let lp = at.lp;
    if stands_basic(at.basis, k) {
        let ends = &found[k as usize - 1];
        return cost_interval(lp.cost(k - lp.rows), ends, k);
    }
    let prices = at.prices;
    nonbasic_cost(lp, at.basis, prices[k as usize - 1], k)
}

/// The intervals of the costs of the columns.
pub fn cost_list(alloc: Global, at: &Optimum<'_>, found: &[Ends]) -> Result<ListItems, Stop>
    requires optimum { IsOptimum at.now }
    requires found { AreEndsOfRows at.now found.now }
    ensures list { IfOk result (λ list. ListsTo (columns_of at.now.lp.now)
        (λ k t. IsOptimalBasis (with_cost at.now.lp.now k t) at.now.basis.now) list.items) }
    ensures overflow { IfErr result
        (λ stop. IfOverflow stop (RefusedAnywhere at.now.lp.now at.now.basis.now)) }
{
    let lp = at.lp;
    let mut list = Vec::new(alloc);
    for j in 0..lp.cols {
        let k = lp.rows + j + 1;
        match column_cost(at, found, k) {
            Ok(interval) => list.push((k, interval)).map_err(|_| NoMemory)?,
            Err(evidence) => return Err(Stop::Overflow(evidence)),
        }
    }
    Ok(list)
}

/// The intervals of the limits at which nonbasics stand.
pub fn limit_list(alloc: Global, at: &Optimum<'_>, ends: &[Ends]) -> Result<ListItems, Stop>
    requires optimum { IsOptimum at.now }
    requires ends { AreEndsOfLimits at.now ends.now }
    ensures list { IfOk result (λ list. ListsTo (at_limits at.now.lp.now at.now.basis.now)
        (λ k t. IsOptimalBasis (with_limit at.now.lp.now at.now.basis.now k t) at.now.basis.now)
        list.items) }
    ensures overflow { IfErr result
        (λ stop. IfOverflow stop (RefusedAnywhere at.now.lp.now at.now.basis.now)) }
{
    let point = at.point;
    let mut list = Vec::new(alloc);
    for k in 0..at.lp.number_of_variables() {
        if !at_limit(at.basis, k + 1) {
            continue;
        }
        match limit_interval(at.lp, at.basis, point[k as usize], k + 1, &ends[k as usize]) {
            Ok(interval) => list.push((k + 1, interval)).map_err(|_| NoMemory)?,
            Err(evidence) => return Err(Stop::Overflow(evidence)),
        }
    }
    Ok(list)
}
