// The walk.
ghost use Rattle.std.specs.Prelude.{◌≡◌, [], IfOk};
ghost use Rattle.report_text.specs.Views.{IsEnding, ending_view};
ghost use Rattle.walk_definitions.specs.Walker as walks;
ghost use Rattle.walk_definitions.specs.Found.{first_walker};
ghost use Rattle.listing_walk.specs.Ended.{found_view, IsFoundBy};

use crate::chosen::Chosen;
use crate::execute::step;
use crate::found::Found;
use crate::place::ListingPlace;
use crate::walk_step::AfterStep;
use card_reader::Cards;
use control_compiler::{Program, RunInput};
use job_devices::NoMemory;
use listing_claims::Checks;
use report_text::Ending;
use run_machine::{MAX_EXECUTED, Machine};
use std::alloc::Global;

/// Walks along a compiled program over the cards of its job and along a listing, with the tests of a checker.
pub fn walk<'a, T: Checks>(
    alloc: Global,
    program: &Program,
    cards: &Cards,
    listing: &'a [u8],
) -> Result<Found<'a>, NoMemory>
    ensures { IfOk result (IsFoundBy T.checker program.now cards.now listing.now) }
{
    let mut machine = Machine::<Chosen>::new(alloc, cards, program.decks_from());
    let mut place = ListingPlace::new(listing);
    let mut last = None;
    let mut position = 1;
    let mut executed = 0;
    while position <= program.count() {
        if executed >= MAX_EXECUTED {
            return place.close(alloc, &Ending::Statements);
        }
        executed += 1;
        let input = RunInput { program, cards };
        match step::<T>(alloc, &mut machine, input, &mut place, &mut last, position) {
            Ok(AfterStep::Goes(to)) => position = to,
            Ok(AfterStep::Finds(found)) => return Ok(found),
            Err(refused) => return Err(refused),
        }
    }
    place.close(alloc, &Ending::Code(0))
}

/// Compares a listing with the text of an end that comes before any report.
pub fn closes<'a>(
    alloc: Global,
    listing: &'a [u8],
    ending: &Ending<'_>,
) -> Result<Found<'a>, NoMemory>
    requires { IsEnding ending.now }
    ensures { IfOk result
        (λ found. walks.closes (first_walker [] listing.now) (ending_view ending.now) ≡
        walks.Finds (found_view found)) }
{
    let mut place = ListingPlace::new(listing);
    place.close(alloc, ending)
}
