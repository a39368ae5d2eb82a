// The sections of the generated deck.
ghost use Rattle.std.specs.Prelude.{◌≡◌, ◌<◌, ℕ, List, codes, map, flat_map};
ghost use Rattle.problem_definitions.specs.declared.RowKind.TheVariants.{L, G};
ghost use Rattle.problem_definitions.specs.Problem.{plain_row};
ghost use Rattle.deck_definitions.specs.Written.{row_card, card_text};
ghost use Rattle.deck_definitions.specs.Transport as made;
ghost use Rattle.job_devices.specs.Text.{Writes};
ghost use Rattle.generated_job.specs.Numbered.{WritesOfNumbers};

use crate::cards::{put_demand, put_destination_row, put_route, put_source_row, put_supply};
use job_devices::{Sink, WriteStop};

// Writes what a function writes of each of the numbers from 1 to n.
fn put_numbered<P: Sink, F: Fn(&mut P, u32) -> Result<(), WriteStop>>(
    text: &mut P,
    n: u32,
    put: F,
) -> Result<(), WriteStop>
    requires n { n < 1000 }
    requires put { (before : _) (number : ℕ) → number < 1000 → F.pre put before number }
    ensures { (lines : ℕ → List ℕ) → WritesOfNumbers P.taken (F.post put) lines →
        Writes (P.taken text.old) (P.taken text.new) result (flat_map lines (made.up_to n)) }
{
    for before in 0..n {
        put(text, before + 1)?;
    }
    Ok(())
}

/// The rows of the sources from 1 to n.
pub fn put_source_rows<P: Sink>(text: &mut P, n: u32) -> Result<(), WriteStop>
    requires { n < 1000 }
    ensures { Writes (P.taken text.old) (P.taken text.new) result
        (card_text (map (λ i. row_card (plain_row L (made.source i))) (made.up_to n))) }
{
    put_numbered(text, n, put_source_row)
}

/// The rows of the destinations from 1 to n.
pub fn put_destination_rows<P: Sink>(text: &mut P, n: u32) -> Result<(), WriteStop>
    requires { n < 1000 }
    ensures { Writes (P.taken text.old) (P.taken text.new) result
        (card_text (map (λ j. row_card (plain_row G (made.destination j))) (made.up_to n))) }
{
    put_numbered(text, n, put_destination_row)
}

// The routes from a source to the destinations from 1 to n.
fn put_routes_from<P: Sink>(text: &mut P, from: u32, n: u32) -> Result<(), WriteStop>
    requires from { from < 1000 }
    requires n { n < 1000 }
    ensures { Writes (P.taken text.old) (P.taken text.new) result
        (card_text (flat_map (λ j. made.route_cards from j) (made.up_to n))) }
{
    put_numbered(text, n, |text, to| put_route(text, from, to))
}

/// The routes from each source to each destination.
pub fn put_routes<P: Sink>(text: &mut P, n: u32) -> Result<(), WriteStop>
    requires { n < 1000 }
    ensures { Writes (P.taken text.old) (P.taken text.new) result
        (card_text (flat_map (λ i. flat_map (λ j. made.route_cards i j) (made.up_to n))
        (made.up_to n))) }
{
    put_numbered(text, n, |text, from| put_routes_from(text, from, n))
}

/// What the sources from 1 to n have.
pub fn put_supplies<P: Sink>(text: &mut P, n: u32) -> Result<(), WriteStop>
    requires { n < 1000 }
    ensures { Writes (P.taken text.old) (P.taken text.new) result
        (card_text (map (λ i. made.item_card (codes "RHS") (made.source i) 10) (made.up_to n))) }
{
    put_numbered(text, n, put_supply)
}

/// What the destinations from 1 to n want.
pub fn put_demands<P: Sink>(text: &mut P, n: u32) -> Result<(), WriteStop>
    requires { n < 1000 }
    ensures { Writes (P.taken text.old) (P.taken text.new) result
        (card_text (map (λ j. made.item_card (codes "RHS") (made.destination j) 10)
        (made.up_to n))) }
{
    put_numbered(text, n, put_demand)
}
