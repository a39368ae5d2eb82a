// The cards of a job, in one buffer.
ghost use Rattle.std.specs.Prelude.{◌≡◌, ◌≤◌, ◌-◌, List, ℕ, length, slice_get, Some, All};
ghost use Rattle.card_reader.specs.Card.{card_bytes};
ghost use Rattle.card_reader.specs.Spans.{cards_at, IsWithin, AreSpans, IsFaultless};
ghost use Rattle.card_definitions.specs.declared.TheConstants.{MAX_JOB_CARDS};

use crate::card::Card;
use crate::span::Span;
use std::marker::Model;

/// The cards of a job, numbered from 1: a list of texts, each without its trailing blanks and carriage returns. Each has
/// printable bytes alone, and at most 80.
#[derive(Drop)]
pub struct Cards {
    bytes: Vec<u8>,
    spans: Vec<Span>,
}

impl Model for Cards {
    ghost Value = { List (List ℕ) };

    ghost view = { λ c. cards_at c.bytes.items c.spans.items };

    ghost invariant = { λ c. AreSpans c.bytes.items c.spans.items };
}

impl Cards {
    pub(crate) fn new(bytes: Vec<u8>, spans: Vec<Span>) -> Cards
        requires within { All (IsWithin (length bytes.items)) spans.items }
        requires few { length spans.items ≤ MAX_JOB_CARDS }
        requires faultless { All IsFaultless (cards_at bytes.items spans.items) }
        ensures { result ≡ cards_at bytes.items spans.items }
    {
        Cards { bytes, spans }
    }

    /// How many cards there are.
    pub fn count(&self) -> u32
        ensures count { result ≡ length self.now }
        ensures few { result ≤ MAX_JOB_CARDS }
    {
        self.spans.len() as u32
    }

    /// The card with this number, from 1.
    pub fn card(&self, n: u32) -> Card<'_>
        requires first { 1 ≤ n }
        requires last { n ≤ length self.now }
        ensures { slice_get self.now (n - 1) ≡ Some (card_bytes result) }
    {
        let span = self.spans[n as usize - 1];
        Card::new(&self.bytes[span.start..span.end])
    }
}
