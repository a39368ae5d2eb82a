// What a check begins with: the program of a job, or why there is none.
ghost use Rattle.std.specs.Prelude.{List, ℕ, IfOk};
ghost use Rattle.walk_definitions.specs.Found.{EndsIn};
ghost use Rattle.listing_walk.specs.Ended.{found_view};
ghost use Rattle.listing_check.specs.Starting.{IsStartOf};

use card_definitions::CardFault;
use control_compiler::ControlFault;
use job_devices::NoMemory;
use job_program::Prepared;
use listing_claims::Checks;
use listing_walk::{Found, closes, walk};
use report_text::Ending;
use std::alloc::Global;

/// What a check begins with.
#[derive(Drop)]
pub enum Start {
    /// The program of the job, and its cards.
    Program(Prepared),
    /// The cards of the job are refused.
    Card(CardFault),
    /// A control card is refused.
    Control(ControlFault),
}

/// What a listing is found to be: the program is walked along, or the one end is compared.
pub fn find<'a, T: Checks>(
    alloc: Global,
    start: &Start,
    listing: &'a [u8],
) -> Result<Found<'a>, NoMemory>
    ensures { IfOk result
        (λ found. (bytes : List ℕ) → IsStartOf bytes start.now →
        EndsIn T.checker bytes listing.now (found_view found)) }
{
    match start {
        Start::Program(prepared) => {
            walk::<T>(alloc, &prepared.program, &prepared.cards, listing)
        }
        Start::Card(fault) => closes(alloc, listing, &Ending::Card(*fault)),
        Start::Control(fault) => closes(
            alloc,
            listing,
            &Ending::Control {
                fault: fault.number,
                card: fault.card,
            },
        ),
    }
}
