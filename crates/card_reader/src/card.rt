// One card of a job.
ghost use Rattle.std.specs.Prelude.{◌≤◌, length, IsTrue};
ghost use Rattle.std.specs.List.{list_all};
ghost use Rattle.card_definitions.specs.Cards.{is_printable};
ghost use Rattle.card_definitions.specs.declared.TheConstants.{CARD_COLUMNS};

use crate::blanks::without_blanks;

/// One card of a job: at most 80 bytes, all printable.
#[derive(Clone, Copy, Debug)]
pub struct Card<'a> {
    bytes: &'a [u8],
    ghost printable: { IsTrue (list_all is_printable bytes.now) },
    ghost short: { length bytes.now ≤ CARD_COLUMNS },
}

impl<'a> Card<'a> {
    ghost use Rattle.std.specs.Prelude.{◌≡◌};
    ghost use Rattle.card_definitions.specs.Cards.{is_skipped};
    ghost use Rattle.card_definitions.specs.Fields.{columns};
    ghost use Rattle.card_reader.specs.Card.{card_bytes};

    pub(crate) fn new(bytes: &'a [u8]) -> Card<'a>
        requires printable { IsTrue (list_all is_printable bytes.now) }
        requires short { length bytes.now ≤ CARD_COLUMNS }
        ensures { card_bytes result ≡ bytes.now }
    {
        Card { bytes }
    }

    /// The whole card.
    pub fn bytes(&self) -> &'a [u8]
        ensures bytes { result.now ≡ card_bytes self.now }
        ensures printable { IsTrue (list_all is_printable result.now) }
        ensures short { length result.now ≤ CARD_COLUMNS }
    {
        self.bytes
    }

    /// The columns from one to another, counted from 1, as far as the card has them, without the blanks at their end.
    pub fn field(&self, from: u8, to: u8) -> &'a [u8]
        requires first { 1 ≤ from }
        requires ordered { from ≤ to }
        requires last { to ≤ CARD_COLUMNS }
        ensures { result.now ≡ columns from to (card_bytes self.now) }
    {
        let end = self.bytes.len().min(usize::from(to));
        let start = end.min(usize::from(from) - 1);
        without_blanks(&self.bytes[start..end])
    }

    /// Whether the card means nothing: it is blank, or has an asterisk in column 1.
    pub fn is_skipped(&self) -> bool
        ensures { result ≡ is_skipped (card_bytes self.now) }
    {
        match self.bytes {
            [] => true,
            [first, ..] => *first == b'*',
        }
    }
}
