// The six fields of a data card.
ghost use Rattle.std.specs.Prelude.{◌≡◌, ◌≤◌, IsTrue, IsFalse, IfSome, IfNone};
ghost use Rattle.card_definitions.specs.Fields.{is_blank_column, gaps_are_blank, Fixed, reading_of};
ghost use Rattle.card_reader.specs.Card.{card_bytes};
ghost use Rattle.deck_fields.specs.Readings.{ShowsFields};

use crate::blanks::without_leading_blanks;
use crate::texts::Fields;
use card_reader::Card;

/// Whether a column of a card is blank.
pub fn has_blank(card: &[u8], column: usize) -> bool
    requires { 1 ≤ column }
    ensures { result ≡ is_blank_column card.now column }
{
    match card.get(column - 1) {
        Some(byte) => *byte == b' ',
        None => true,
    }
}

// Whether the columns between the fields are blank.
fn has_blank_gaps(card: &[u8]) -> bool
    ensures { result ≡ gaps_are_blank card.now }
{
    has_blank(card, 1)
        && has_blank(card, 4)
        && has_blank(card, 13)
        && has_blank(card, 14)
        && has_blank(card, 23)
        && has_blank(card, 24)
        && has_blank(card, 37)
        && has_blank(card, 38)
        && has_blank(card, 39)
        && has_blank(card, 48)
        && has_blank(card, 49)
}

/// The six fields at the fixed columns of a data card, or none where a column between them isn't blank. Nothing is copied.
#[tactic(auto, unfolding(card_definitions::specs::Fields::reading_of))]
pub fn fields(card: Card<'_>) -> Option<Fields<'_>>
    ensures some { IfSome result (λ f. IsTrue (gaps_are_blank (card_bytes card.entry)) × ShowsFields
        f (reading_of Fixed (card_bytes card.entry))) }
    ensures none { IfNone result (IsFalse (gaps_are_blank (card_bytes card.entry))) }
{
    if has_blank_gaps(card.bytes()) {
        Some(Fields {
            kind: without_leading_blanks(card.field(2, 3)),
            name1: card.field(5, 12),
            name2: card.field(15, 22),
            value1: card.field(25, 36),
            name3: card.field(40, 47),
            value2: card.field(50, 61),
            value1_column: 25,
            value2_column: 50,
        })
    } else {
        None
    }
}
