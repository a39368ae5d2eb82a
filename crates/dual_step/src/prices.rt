//! The basis's prices over a step.

ghost use Rattle.std.specs.Prelude.{◌≡◌, ◌≢◌, ◌≤◌, ◌<◌, ◌^◌, false, length, IsTrue};
ghost use Rattle.exact_values.specs.Rational.{zero_ℚ};
ghost use Rattle.lp_definitions.specs.LinearProgram.{value_at};
ghost use Rattle.dual_step.specs.Prices.{IsTaken, SomeTakenRefused, ArePricesOver, OverRefused};

use frac128::Frac;

/// Takes `step` times the row from the prices. False where an operation is refused; `prices` has no meaning then. Most rates of a
/// sparse program are 0, and what has such a rate stays as it is.
fn take_multiple(prices: &mut [Frac], row: &[Frac], step: Frac) -> bool
    requires places { length prices.old ≡ length row.now }
    ensures taken { IsTrue result → IsTaken step (value_at row.now) (value_at prices.old)
        (length row.now) (value_at prices.new) }
    ensures refused { result ≡ false → SomeTakenRefused step (value_at row.now)
        (value_at prices.old) (length row.now) }
{
    for k in 0..prices.len() {
        let rate = row[k];
        if rate.is_zero() {
            continue;
        }
        let price = prices[k];
        let Some(next) = price.sub_product(step, rate) else {
            return false;
        };
        prices[k] = next;
    }
    true
}

/// Takes the prices over to the basis in which `q` has the place of `r`: `row` has the rates of `r`. False where an operation is
/// refused; `prices` has no meaning then.
pub fn prices_over(prices: &mut [Frac], row: &[Frac], r: u32, q: u32) -> bool
    requires places { length prices.old ≡ length row.now }
    requires leaver_low { 1 ≤ r }
    requires leaver_high { r ≤ length row.now }
    requires entering_low { 1 ≤ q }
    requires entering_high { q ≤ length row.now }
    requires apart { r ≢ q }
    requires pivot { value_at row.now q ≢ zero_ℚ }
    ensures prices { IsTrue result → ArePricesOver (value_at prices.old) (value_at row.now) r q
        (length row.now) (value_at prices.new) }
    ensures refused { result ≡ false → OverRefused (value_at prices.old) (value_at row.now) q
        (length row.now) }
{
    let price = prices[q as usize - 1];
    let pivot = row[q as usize - 1];
    let Ok(step) = price.div(pivot) else {
        return false;
    };
    if !take_multiple(prices, row, step) {
        return false;
    }
    prices[r as usize - 1] = step;
    prices[q as usize - 1] = Frac::whole(0);
    true
}
