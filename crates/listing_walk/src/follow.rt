// What follows a statement.
ghost use Rattle.std.specs.Prelude.{◌≡◌, ◌+◌, ◌≤◌, ◌<◌, [], Option, IfOk};
ghost use Rattle.exact_values.specs.Rational.{ℚ};
ghost use Rattle.run_machine.specs.declared.act.Act.TheVariants as acts;
ghost use Rattle.run_machine.specs.declared.end.End.TheVariants as ends;
ghost use Rattle.listing_walk.specs.Standing.{holding};
ghost use Rattle.listing_walk.specs.Walking.{ends_run, Finishes, Passes, Refuses};
ghost use Rattle.walk_definitions.specs.Words.{max_count};

use crate::chosen::Chosen;
use crate::found::Found;
use crate::place::{ListingPlace, has_text};
use crate::selecting::Unselected;
use crate::walk_step::WalkStep;
use job_devices::NoMemory;
use listing_definitions::VerbFault;
use run_machine::{Act, End, Machine, ending_of};
use std::alloc::Global;

// Whether the run ends with an act.
fn ends_run(act: &Act) -> bool
    ensures { result ≡ ends_run act.now }
{
    match act {
        Act::Next | Act::Jump(_) => false,
        Act::Ends(_) => true,
    }
}

/// Goes on as an act says, once the report is passed. An end is due in a line of its own.
pub fn finish<'a>(
    alloc: Global,
    place: &mut ListingPlace<'a>,
    act: &Act,
) -> Result<WalkStep<'a>, NoMemory>
    ensures finishes { IfOk result (Finishes place.old place.new act.now) }
    ensures reports { place.new.reports ≡ place.old.reports }
{
    match act {
        Act::Next => Ok(WalkStep::Next),
        Act::Jump(to) => Ok(WalkStep::Jump(*to)),
        Act::Ends(end) => {
            let found = place.close(alloc, &ending_of(end))?;
            Ok(WalkStep::Finds(found))
        }
    }
}

/// Goes on after a statement that asks nothing, which came to an act with this text. The text has to stand in the listing.
pub fn follow<'a>(
    alloc: Global,
    machine: &Machine<Chosen>,
    place: &mut ListingPlace<'a>,
    act: &Act,
    text: &[u8],
) -> Result<WalkStep<'a>, NoMemory>
    requires { place.old.reports < max_count }
    ensures passes { IfOk result (Passes machine.now place.old place.new act.now text.now) }
    ensures held { (last : Option ℚ) →
        IfOk result (Passes (holding last machine.now) place.old place.new act.now text.now) }
    ensures few { place.new.reports ≤ place.old.reports + 1 }
{
    let ends = ends_run(act);
    let looks = ends || has_text(text);
    let clears = ends || machine.mark.is_none();
    if let Some(found) = place.open_here(looks, clears) {
        return Ok(WalkStep::Finds(found));
    }
    let rest = place.cursor.left();
    if !place.pass(text) {
        return Ok(WalkStep::Finds(Found::Wrong(rest)));
    }
    finish(alloc, place, act)
}

/// The run ends with a verb fault.
pub fn fault<'a>(
    alloc: Global,
    machine: &Machine<Chosen>,
    place: &mut ListingPlace<'a>,
    fault: VerbFault,
    card: u32,
) -> Result<WalkStep<'a>, NoMemory>
    requires { place.old.reports < max_count }
    ensures passes { IfOk result
        (Passes machine.now place.old place.new (acts.Ends (ends.Verb fault card)) []) }
    ensures held { (last : Option ℚ) →
        IfOk result
        (Passes (holding last machine.now) place.old place.new
        (acts.Ends (ends.Verb fault card)) []) }
    ensures few { place.new.reports ≤ place.old.reports + 1 }
{
    follow(
        alloc,
        machine,
        place,
        &Act::Ends(End::Verb { fault, card }),
        &[],
    )
}

/// What is refused: the run ends with a verb fault; or with what is found here, where an operation of a selection is refused.
pub fn refuse<'a>(
    alloc: Global,
    machine: &Machine<Chosen>,
    place: &mut ListingPlace<'a>,
    refusal: Unselected,
    found: Found<'a>,
    card: u32,
) -> Result<WalkStep<'a>, NoMemory>
    requires { place.old.reports < max_count }
    ensures refuses { IfOk result
        (Refuses machine.now place.old place.new card refusal found.entry) }
    ensures held { (last : Option ℚ) →
        IfOk result
        (Refuses (holding last machine.now) place.old place.new card refusal found.entry) }
    ensures few { place.new.reports ≤ place.old.reports + 1 }
{
    match refusal {
        Unselected::Fault(why) => fault(alloc, machine, place, why, card),
        Unselected::Unchecked => Ok(WalkStep::Finds(found)),
        Unselected::NoMemory => Err(NoMemory),
    }
}
