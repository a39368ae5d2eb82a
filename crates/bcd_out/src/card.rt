// One card of a deck.
ghost use Rattle.std.specs.Prelude.{◌≡◌, ◌≤◌, ◌+◌, ◌-◌, ◌++◌, ◌∷◌, [], codes, length, replicate};
ghost use Rattle.card_definitions.specs.Words.{padded, without_trailing};
ghost use Rattle.card_definitions.specs.Cards.{is_blank};
ghost use Rattle.deck_definitions.specs.Written.{data_card};
ghost use Rattle.job_devices.specs.Text.{Writes};
ghost use Rattle.arrayvec.specs.ArrayVec.{array_vec_len};
ghost use Rattle.bcd_out.specs.Lines.{line, columns_of};

use arrayvec::ArrayVec;
use job_devices::{Sink, WriteStop, put_each};
use name_table::without_trailing_blanks;

const KIND_PLACES: usize = 2;

const NAME_PLACES: usize = 8;

static BLANKS: [u8; NAME_PLACES] = [b' '; NAME_PLACES];

// A card up to the end of field 4.
type Columns = ArrayVec<u8, 36>;

/// What stands in the fields 1 to 4 of a data card that is written.
#[derive(Clone, Copy, Debug)]
pub struct WrittenCard<'a> {
    pub kind: &'a [u8],
    pub name1: &'a [u8],
    pub name2: &'a [u8],
    pub value: &'a [u8],
}

// Writes a piece in the columns after those that are filled.
fn fill(columns: &mut Columns, piece: &[u8])
    requires { array_vec_len columns.old + length piece.now ≤ 36 }
    ensures items { columns.new.items ≡ columns.old.items ++ piece.now }
    ensures len { array_vec_len columns.new ≡ array_vec_len columns.old + length piece.now }
{
    let _fits = columns.try_extend_from_slice(piece);
}

// Writes a text at the left of so many columns.
fn fill_padded(columns: &mut Columns, width: usize, text: &[u8])
    requires width { width ≤ 8 }
    requires short { length text.now ≤ width }
    requires room { array_vec_len columns.old + width ≤ 36 }
    ensures items { columns.new.items ≡ columns.old.items ++ padded width text.now }
    ensures len { array_vec_len columns.new ≡ array_vec_len columns.old + width }
{
    fill(columns, text);
    fill(columns, &BLANKS[..width - text.len()]);
}

// The columns of a data card.
fn columns(card: WrittenCard<'_>) -> Columns
    requires kind { length card.kind.now ≤ 2 }
    requires name1 { length card.name1.now ≤ 8 }
    requires name2 { length card.name2.now ≤ 8 }
    requires value { length card.value.now ≤ 12 }
    ensures { result.items ≡ columns_of card.entry.kind.now card.entry.name1.now
        card.entry.name2.now card.entry.value.now }
{
    let mut columns = Columns::new();
    fill(&mut columns, b" ");
    fill_padded(&mut columns, KIND_PLACES, card.kind);
    fill(&mut columns, b" ");
    fill_padded(&mut columns, NAME_PLACES, card.name1);
    fill(&mut columns, b"  ");
    fill_padded(&mut columns, NAME_PLACES, card.name2);
    fill(&mut columns, b"  ");
    fill(&mut columns, card.value);
    columns
}

// The columns of the card that a deck begins with.
fn name_columns(name: &[u8]) -> Columns
    requires { length name.now ≤ 8 }
    ensures { result.items ≡ codes "NAME          " ++ name.now }
{
    let mut columns = Columns::new();
    fill(&mut columns, b"NAME          ");
    fill(&mut columns, name);
    columns
}

// Writes a card, up to its last byte that isn't blank.
fn put_columns<P: Sink>(punch: &mut P, columns: &Columns) -> Result<(), WriteStop>
    ensures { Writes (P.taken punch.old) (P.taken punch.new) result
        (line (without_trailing is_blank columns.now.items)) }
{
    let card = without_trailing_blanks(columns.as_slice());
    put_each(punch, &[card, b"\n"])
}

/// Writes a data card.
#[tactic(auto, unfolding(deck_definitions::specs::Written::data_card))]
pub fn put_card<P: Sink>(punch: &mut P, card: WrittenCard<'_>) -> Result<(), WriteStop>
    requires kind { length card.kind.now ≤ 2 }
    requires name1 { length card.name1.now ≤ 8 }
    requires name2 { length card.name2.now ≤ 8 }
    requires value { length card.value.now ≤ 12 }
    ensures { Writes (P.taken punch.old) (P.taken punch.new) result
        (line (data_card card.entry.kind.now card.entry.name1.now card.entry.name2.now
        card.entry.value.now)) }
{
    put_columns(punch, &columns(card))
}

/// Writes the card that a deck begins with.
pub fn put_name<P: Sink>(punch: &mut P, name: &[u8]) -> Result<(), WriteStop>
    requires { length name.now ≤ 8 }
    ensures { Writes (P.taken punch.old) (P.taken punch.new) result
        (line (without_trailing is_blank (codes "NAME          " ++ name.now))) }
{
    put_columns(punch, &name_columns(name))
}
