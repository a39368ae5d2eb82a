// BCDOUT.
ghost use Rattle.std.specs.Prelude.{◌≡◌, ℕ, List};
ghost use Rattle.control_definitions.specs.Program as program;
ghost use Rattle.run_definitions.specs.Moves.{DecidesAlone};
ghost use Rattle.run_machine.specs.Punching.{Performs};

use crate::act::{Act, Halt};
use crate::kept::Kept;
use crate::machine::Machine;
use crate::selecting::Refusal;
use bcd_out::deck_of;
use control_definitions::NameCell;
use job_devices::Sink;
use listing_definitions::VerbFault;
use report_text::{Report, text_of};

impl<S: Kept> Machine<S> {
    /// BCDOUT: punches the deck of the problem that XPBNAME names, or else of the one filed last, and prints the number of its
    /// cards.
    pub fn punch_problem<P: Sink, U: Sink>(
        &self,
        print: &mut P,
        punch: &mut U,
        card: u32,
    ) -> Result<Act, Halt>
        ensures { (cards : List (List ℕ)) →
            Performs S.shows DecidesAlone program.Bcdout card
            (P.taken print.old) (P.taken print.new)
            (U.taken punch.old) (U.taken punch.new) cards self.now self.now result }
    {
        let Some(problem) = self.problem_in(NameCell::Xpbname) else {
            return Refusal::Fault(VerbFault::NoProblem).act(card);
        };
        let count = match deck_of(problem, punch) {
            Ok(count) => count,
            Err(stop) => return Err(Halt::Punch(stop)),
        };
        let report = Report::BcdOut {
            name: problem.name(),
            cards: count,
        };
        text_of(&report, print)?;
        Ok(Act::Next)
    }
}
