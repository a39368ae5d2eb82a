// TITLE.
ghost use Rattle.std.specs.Prelude.{◌≡◌, ℕ, List};
ghost use Rattle.control_definitions.specs.Program as program;
ghost use Rattle.run_definitions.specs.Moves.{DecidesAlone};
ghost use Rattle.run_machine.specs.Statements.{Executes};

use crate::act::{Act, Halt};
use crate::kept::Kept;
use crate::machine::Machine;
use control_verbs::Text;
use job_devices::Sink;
use report_text::{Report, text_of};

impl<S: Kept> Machine<S> {
    /// TITLE: prints a text.
    pub fn print_title<P: Sink>(&self, print: &mut P, text: &Text) -> Result<Act, Halt>
        ensures { (card : ℕ) (cards : List (List ℕ)) →
            Executes S.shows DecidesAlone (program.Title text.now) card (P.taken print.old)
            (P.taken print.new) cards self.now self.now result }
    {
        text_of(&Report::Title { text: text.bytes() }, print)?;
        Ok(Act::Next)
    }
}
