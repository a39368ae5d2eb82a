// How much work the sums over a linear program are.
use listing_words::Allowance;
use long_programs::Spread;
use long_vectors::Column;
use lp_model::Lp;
use std::alloc::AllocError;

/// A sum with one number counts as so many products with each limb of what is added: a product is made, with memory of its own, and
/// then the sum, which takes some six times as long as a product of two limbs in a row of them.
const PRODUCTS_OF_A_NUMBER: usize = 6;

/// A variable counts as so many numbers beside those of its column: it is compared with its limits, each by a sum of three products, and
/// its own number is one of the sum of its row.
const NUMBERS_OF_A_VARIABLE: usize = 10;

// How many numbers the columns of a linear program have.
fn count_of_entries(lp: &Lp) -> usize {
    let mut count: usize = 0;
    for j in 0..lp.cols {
        count = count.saturating_add(lp.column(j + 1).len());
    }
    count
}

// How many numbers of a linear program a vector is tested with.
fn count_of_numbers(lp: &Lp) -> usize {
    let variables = lp.number_of_variables() as usize;
    count_of_entries(lp).saturating_add(variables.saturating_mul(NUMBERS_OF_A_VARIABLE))
}

// The limbs of the longest number of a vector, or of its denominator.
fn most_limbs(column: &Column) -> usize {
    let mut most = column.bottom.size().limbs().len();
    for top in &column.tops {
        let limbs = top.size().limbs().len();
        if limbs > most {
            most = limbs;
        }
    }
    most
}

// What the sums of so long numbers with those of a linear program are.
fn products_of_sums(lp: &Lp, limbs: usize) -> usize {
    let products = count_of_numbers(lp).saturating_mul(PRODUCTS_OF_A_NUMBER);
    products.saturating_mul(limbs)
}

// Takes what the sums of so long numbers with those of a linear program are.
fn take_long(allowance: &mut Allowance, lp: &Lp, limbs: usize) -> Result<(), AllocError> {
    allowance.take(products_of_sums(lp, limbs))
}

/// Whether the allowance has what the sums of a vector with the numbers of a linear program are, before more is made.
pub fn check_sums(allowance: &Allowance, lp: &Lp, column: &Column) -> Result<(), AllocError> {
    allowance.check(products_of_sums(lp, most_limbs(column)))
}

/// Takes from the allowance what the sums of a vector with the numbers of a linear program are, in its rows or its columns and at its
/// limits, as if each number of the vector were as long as its longest one.
pub fn take_sums(allowance: &mut Allowance, lp: &Lp, column: &Column) -> Result<(), AllocError> {
    take_long(allowance, lp, most_limbs(column))
}

/// The same for a vector over whose denominator the parameter is a whole number.
pub fn take_spread(allowance: &mut Allowance, lp: &Lp, spread: &Spread) -> Result<(), AllocError> {
    let limbs = most_limbs(&spread.column);
    let moved = spread.moved.size().limbs().len();
    if moved > limbs {
        take_long(allowance, lp, moved)
    } else {
        take_long(allowance, lp, limbs)
    }
}
