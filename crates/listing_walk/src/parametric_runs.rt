// PARAOBJ and PARARHS.
ghost use Rattle.std.specs.Prelude.{◌≡◌, ◌+◌, ◌≤◌, ◌<◌, ℕ, List, Option, IfOk, IfErr, IfSome};
ghost use Rattle.exact_values.specs.Rational.{ℚ};
ghost use Rattle.run_machine.specs.Standing.{AreDemands};
ghost use Rattle.parametric_request.specs.Asking.{verb_of};
ghost use Rattle.listing_answers.specs.declared.answer.ParametricRunAnswer.TheVariants.{RanThrough};
ghost use Rattle.listing_walk.specs.ParametricVerbs.{finding_of, left_by, IsUnasked};
ghost use Rattle.listing_walk.specs.Standing.{IsReady, IsSound, holding};
ghost use Rattle.listing_walk.specs.Walking.{Walks};
ghost use Rattle.walk_definitions.specs.Words.{max_count};

use crate::answering::{answer_parametric_run, stop_walk};
use crate::asked_runs::{asked_run, first_value};
use crate::chosen::Chosen;
use crate::follow::{fault, finish, refuse};
use crate::place::ListingPlace;
use crate::selecting::select_present;
use crate::walk_step::WalkStep;
use job_devices::NoMemory;
use listing_answers::ParametricRunAnswer;
use listing_claims::Checks;
use listing_definitions::VerbFault;
use listing_tables::{Sheet, fraction};
use listing_words::Number;
use parametric_request::{ParametricVerb, RequestStop};
use run_cells::NumberCell;
use run_machine::{Finding, Machine, act_of, problem_on_file};
use std::alloc::Global;

// No run is asked for: the run of the program ends with a verb fault.
fn unasked<'a>(
    alloc: Global,
    machine: &Machine<Chosen>,
    place: &mut ListingPlace<'a>,
    stop: RequestStop,
    card: u32,
) -> Result<WalkStep<'a>, NoMemory>
    requires { place.old.reports < max_count }
    ensures unasked { (last : Option ℚ) →
        IfOk result (IsUnasked (holding last machine.now) place.old place.new card stop) }
    ensures few { place.new.reports ≤ place.old.reports + 1 }
{
    match stop {
        RequestStop::Fault(why) => fault(alloc, machine, place, why, card),
        RequestStop::NoMemory => Err(NoMemory),
    }
}

// What was found, in the machine's words, or the last value of a run, where it has more than the 128 bits of a cell.
fn finding_of<'a>(answer: &ParametricRunAnswer<'a>) -> Result<Finding, Number<'a>>
    ensures found { IfOk result (λ finding. finding ≡ finding_of answer.now) }
    ensures long { IfErr result (λ last. answer.now ≡ RanThrough last) }
{
    match answer {
        ParametricRunAnswer::Opened(mark) => Ok(Finding::Ended(*mark)),
        ParametricRunAnswer::RanThrough(last) => match last.fraction() {
            Some(value) => Ok(Finding::RanThrough(value)),
            None => Err(last.again()),
        },
    }
}

// A run leaves no mark, and its last value in XPARAM.
fn leave(machine: &mut Machine<Chosen>, last: &mut Option<Number<'_>>, finding: &Finding)
    ensures machine { machine.new ≡ left_by finding.now machine.old }
    ensures held { holding last.new machine.new ≡
        left_by finding.now (holding last.old machine.old) }
{
    machine.mark = None;
    if let Finding::RanThrough(value) = finding {
        machine.cells.move_number(NumberCell::Xparam, *value);
        *last = None;
    }
}

/// PARAOBJ and PARARHS: selects again by the cells as they stand, and takes the parametric run that is asked for from the listing. It
/// begins at the value in XPARAM, also where a run left one there that no cell holds. Its last value is left in XPARAM; one of more than
/// 128 bits, which is more than the cell holds, is handed out. An opening that isn't optimal goes by the demand of its verdict. Neither
/// leaves a mark.
pub fn parametric_run<'a, T: Checks>(
    alloc: Global,
    machine: &mut Machine<Chosen>,
    place: &mut ListingPlace<'a>,
    last: &mut Option<Number<'a>>,
    card: u32,
    verb: ParametricVerb,
) -> Result<WalkStep<'a>, NoMemory>
    requires demands { AreDemands machine.old.cells }
    requires ready { IfSome machine.old.setup (IsReady machine.old.file) }
    requires few { place.old.reports < max_count }
    ensures walks { (cards : List (List ℕ)) →
        IfOk result
        (Walks T.checker (verb_of verb) card cards (holding last.old machine.old)
        (holding last.new machine.new) place.old place.new) }
    ensures sound { (cards : List (List ℕ)) → IsSound cards machine.old →
        IsSound cards machine.new }
    ensures few { place.new.reports ≤ place.old.reports + 1 }
{
    let Some(chosen) = &machine.setup else {
        return fault(alloc, machine, place, VerbFault::NoSetup, card);
    };
    let problem = problem_on_file(&machine.file, &chosen.name);
    let lp = match select_present(alloc, problem, &machine.cells, chosen.options) {
        Ok(lp) => lp,
        Err(refusal) => {
            let found = place.unchecked();
            return refuse(alloc, machine, place, refusal, found, card);
        }
    };
    let text = fraction(machine.cells.param());
    let from = first_value(last, text.as_str().as_bytes());
    let request = match asked_run::<T>(alloc, problem, &machine.cells, verb, from) {
        Ok(request) => request,
        Err(stop) => return unasked(alloc, machine, place, stop, card),
    };
    let sheet = Sheet { problem, lp: &lp };
    let answer = match answer_parametric_run::<T>(alloc, place, sheet, &request) {
        Ok(answer) => answer,
        Err(stopped) => return stop_walk(stopped),
    };
    let finding = match finding_of(&answer) {
        Ok(finding) => finding,
        Err(value) => {
            machine.mark = None;
            return Ok(WalkStep::Leaves(value));
        }
    };
    leave(machine, last, &finding);
    let act = act_of(&machine.cells, card, finding);
    finish(alloc, place, &act)
}
