// How much work the tests along a listing may still take.
ghost use Rattle.std.specs.Prelude.{◌≡◌, ◌≤◌, ◌<◌, ◌+◌, ◌*◌, ◌^◌, OnOk, OnErr};

use std::alloc::AllocError;
use std::marker::Model;

/// So many products of two limbs of 64 bits the tests of one listing may take for its columns, whatever its numbers are.
const MOST_PRODUCTS: usize = 8589934592;

/// So many more they may take for each limb of a number in a column: enough where a column's common denominator is about as long as its
/// numbers, and these have up to 20,000 digits.
const PRODUCTS_OF_A_LIMB: usize = 1024;

/// How many products of two limbs the tests of one listing may still take for its columns. A walk along a listing has one allowance for
/// all its tables, so that many tables that are much work aren't each taken for the only one.
#[derive(Clone, Copy)]
pub struct Allowance {
    products: usize,
}

impl Model for Allowance {
    ghost use Rattle.std.specs.Prelude.{ℕ, refl};

    ghost Value = { ℕ };

    ghost view = { λ a. a.products };

    ghost inverse = { λ n. record { products = n } };

    ghost inverse_ok = { λ a h. refl };
}

impl Allowance {
    /// What a listing may take of which no number is read.
    pub fn new() -> Allowance
        ensures { result ≡ 2 ^ 33 }
    {
        Allowance {
            products: MOST_PRODUCTS,
        }
    }

    /// Adds what may be taken for the numbers of a column, which have so many limbs.
    pub fn add_share(&mut self, limbs: usize)
        ensures added { self.old + limbs * 1024 < 2 ^ 64 →
            self.new ≡ self.old + limbs * 1024 }
        ensures kept { self.old ≤ self.new }
    {
        let share = limbs.saturating_mul(PRODUCTS_OF_A_LIMB);
        self.products = self.products.saturating_add(share);
    }

    /// Whether so many products may still be taken.
    pub fn check(&self, products: usize) -> Result<(), AllocError>
        ensures enough { OnOk result (products ≤ self.now) }
        ensures refused { OnErr result (self.now < products) }
    {
        if products > self.products {
            return Err(AllocError);
        }
        Ok(())
    }

    /// Takes so many products, if there are as many left.
    pub fn take(&mut self, products: usize) -> Result<(), AllocError>
        ensures taken { OnOk result (self.new + products ≡ self.old) }
        ensures refused { OnErr result (self.old < products) }
        ensures unchanged { OnErr result (self.new ≡ self.old) }
    {
        self.check(products)?;
        self.products = self.products.saturating_sub(products);
        Ok(())
    }
}
