// A number with the text that it was read from.
ghost use Rattle.std.specs.Prelude.{◌≡◌};
ghost use Rattle.problem_definitions.specs.Valid.{IsDecimal};

use frac128::Frac;
use name_table::{padded, without_trailing_blanks};
use std::marker::Model;

const WIDTH: usize = 12;

/// A number as a deck states it: the text without surrounding blanks, and its exact value.
#[derive(Clone, Copy, Debug)]
pub struct Decimal {
    // The text with blanks after it.
    places: [u8; WIDTH],
    value: Frac,
}

impl Model for Decimal {
    ghost use Rattle.std.specs.Prelude.{length, ◌≡◌};
    ghost use Rattle.card_definitions.specs.Numbers.{Decimal as Number};
    ghost use Rattle.card_definitions.specs.Words.{padded};
    ghost use Rattle.card_definitions.specs.Places.{text_in};
    ghost use Rattle.card_definitions.proofs.Places.{padded-text_in};
    ghost use Rattle.problem_definitions.specs.Valid.{IsDecimal};

    ghost Value = { Number };

    ghost view = { λ d. record { text = text_in d.places; value = d.value } };

    ghost invariant = { λ d. (length d.places ≡ 12) ×
        IsDecimal (record { text = text_in d.places; value = d.value }) };

    ghost inverse = { λ number. record { places = padded 12 number.text; value = number.value } };

    ghost inverse_ok = { λ d h. λ i. record { places = padded-text_in 12 d.places h.0 i; value = d.value } };
}

impl Decimal {
    // The number of this text.
    pub(crate) fn new(text: &[u8], value: Frac) -> Decimal
        requires { IsDecimal (record { text = text.now; value = value }) }
        ensures { result ≡ record { text = text.now; value = value } }
    {
        Decimal {
            places: padded(text),
            value,
        }
    }

    /// The text without surrounding blanks, of at most 12 bytes.
    pub fn text(&self) -> &[u8]
        ensures text { result.now ≡ self.now.text }
        ensures is_decimal { IsDecimal self.now }
    {
        without_trailing_blanks(&self.places)
    }

    /// The exact value.
    pub fn value(&self) -> Frac
        ensures { result ≡ self.now.value }
    {
        self.value
    }
}
