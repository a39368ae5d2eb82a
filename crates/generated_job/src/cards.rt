// Single cards of the generated problem.
ghost use Rattle.std.specs.Prelude.{◌≡◌, ◌<◌, ◌≤◌, [], codes, length};
ghost use Rattle.problem_definitions.specs.declared.RowKind.TheVariants.{L, G};
ghost use Rattle.problem_definitions.specs.Problem.{plain_row};
ghost use Rattle.deck_definitions.specs.Written.{row_card, card_text};
ghost use Rattle.deck_definitions.specs.Transport as made;
ghost use Rattle.job_devices.specs.Text.{Writes};
ghost use Rattle.bcd_out.specs.Lines.{line};

use crate::names::{destination, route, source};
use bcd_out::{WrittenCard, put_card};
use deck_fields::row_kind_word;
use itoa::Buffer;
use job_devices::{Sink, WriteStop};
use problem_definitions::RowKind;

// A number of a name on a row.
fn put_item<P: Sink>(text: &mut P, name: &[u8], row: &[u8], value: u32) -> Result<(), WriteStop>
    requires name { length name.now ≤ 8 }
    requires row { length row.now ≤ 8 }
    ensures { Writes (P.taken text.old) (P.taken text.new) result
        (line (made.item_card name.now row.now value)) }
{
    let mut digits = Buffer::new();
    let card = WrittenCard {
        kind: b"",
        name1: name,
        name2: row,
        value: digits.format(value).as_bytes(),
    };
    put_card(text, card)
}

// What it costs to send one from a source to a destination.
fn route_cost(from: u32, to: u32) -> u32
    requires from { from < 1000 }
    requires to { to < 1000 }
    ensures { result ≡ made.route_cost from to }
{
    (7 * from + 11 * to) % 19 + 1
}

// A row of this type.
fn put_row<P: Sink>(text: &mut P, kind: RowKind, name: &[u8]) -> Result<(), WriteStop>
    requires { length name.now ≤ 8 }
    ensures { Writes (P.taken text.old) (P.taken text.new) result
        (line (row_card (plain_row kind name.now))) }
{
    let card = WrittenCard {
        kind: row_kind_word(kind),
        name1: name,
        name2: b"",
        value: b"",
    };
    put_card(text, card)
}

/// The row of a source, from which at most so many are sent as it has.
pub fn put_source_row<P: Sink>(text: &mut P, number: u32) -> Result<(), WriteStop>
    requires { number < 1000 }
    ensures { Writes (P.taken text.old) (P.taken text.new) result
        (line (row_card (plain_row L (made.source number)))) }
{
    put_row(text, RowKind::L, &source(number))
}

/// The row of a destination, which gets at least so many as it wants.
pub fn put_destination_row<P: Sink>(text: &mut P, number: u32) -> Result<(), WriteStop>
    requires { number < 1000 }
    ensures { Writes (P.taken text.old) (P.taken text.new) result
        (line (row_card (plain_row G (made.destination number)))) }
{
    put_row(text, RowKind::G, &destination(number))
}

/// The cards of a route.
pub fn put_route<P: Sink>(text: &mut P, from: u32, to: u32) -> Result<(), WriteStop>
    requires from { from < 1000 }
    requires to { to < 1000 }
    ensures { Writes (P.taken text.old) (P.taken text.new) result
        (card_text (made.route_cards from to)) }
{
    let name = route(from, to);
    put_item(text, &name, b"COST", route_cost(from, to))?;
    put_item(text, &name, &source(from), 1)?;
    put_item(text, &name, &destination(to), 1)
}

/// What a source has.
pub fn put_supply<P: Sink>(text: &mut P, number: u32) -> Result<(), WriteStop>
    requires { number < 1000 }
    ensures { Writes (P.taken text.old) (P.taken text.new) result
        (line (made.item_card (codes "RHS") (made.source number) 10)) }
{
    put_item(text, b"RHS", &source(number), 10)
}

/// What a destination wants.
pub fn put_demand<P: Sink>(text: &mut P, number: u32) -> Result<(), WriteStop>
    requires { number < 1000 }
    ensures { Writes (P.taken text.old) (P.taken text.new) result
        (line (made.item_card (codes "RHS") (made.destination number) 10)) }
{
    put_item(text, b"RHS", &destination(number), 10)
}
