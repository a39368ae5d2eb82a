// A number as its word.
ghost use Rattle.std.specs.Prelude.{◌≡◌, pos};
ghost use Rattle.std.specs.Option.{SomeIff};
ghost use Rattle.exact_values.specs.Rational.{whole, zero_ℚ};
ghost use Rattle.exact_values.specs.Tests.{eq_ℚ};
ghost use Rattle.frac128.specs.Operations.{TermsFit};
ghost use Rattle.listing_definitions.specs.Numbers.{rational_text};
ghost use Rattle.walk_definitions.specs.Words.{spelled};

use crate::numbers::fraction_in;
use frac128::Frac;
use std::marker::Model;

/// A number of any length, seen as the fraction whose text its word is. Since a fraction has one text, two numbers are equal where their
/// words are.
#[derive(Drop)]
pub struct Number<'a> {
    word: &'a [u8],
}

impl<'a> Model for Number<'a> {
    ghost use Rattle.std.specs.Prelude.{◌≡◌};
    ghost use Rattle.exact_values.specs.Rational.{ℚ};
    ghost use Rattle.listing_definitions.specs.Numbers.{rational_text};
    ghost use Rattle.walk_definitions.specs.Words.{spelled};

    ghost Value = { ℚ };

    ghost view = { λ n. spelled n.word.now };

    ghost invariant = { λ n. rational_text (spelled n.word.now) ≡ n.word.now };
}

impl<'a> Number<'a> {
    /// The number whose text this word is.
    pub fn new(word: &'a [u8]) -> Number<'a>
        requires { rational_text (spelled word.now) ≡ word.now }
        ensures { result ≡ spelled word.now }
    {
        Number { word }
    }

    /// 0
    pub fn zero() -> Number<'a>
        ensures { result ≡ zero_ℚ }
    {
        Number { word: b"0" }
    }

    /// 1
    pub fn one() -> Number<'a>
        ensures { result ≡ whole (pos 1) }
    {
        Number { word: b"1" }
    }

    /// Its text.
    pub fn word(&self) -> &'a [u8]
        ensures { result.now ≡ rational_text self.now }
    {
        self.word
    }

    /// The same number once more.
    pub fn again(&self) -> Number<'a>
        ensures { result ≡ self.now }
    {
        Number { word: self.word }
    }

    /// Whether two numbers are equal.
    pub fn is_equal(&self, other: &Number<'_>) -> bool
        ensures { result ≡ eq_ℚ self.now other.now }
    {
        self.word == other.word
    }

    /// Whether it is 0.
    pub fn is_zero(&self) -> bool
        ensures { result ≡ eq_ℚ self.now zero_ℚ }
    {
        self.is_equal(&Number::zero())
    }

    /// The same as a fraction of 128 bits, if it fits.
    pub fn fraction(&self) -> Option<Frac>
        ensures { SomeIff result (TermsFit self.now) self.now }
    {
        fraction_in(self.word)
    }
}
