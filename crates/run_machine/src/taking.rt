// The statements that take a deck, CONVERT and REVISE: what they find, and how they file it.
ghost use Rattle.std.specs.Prelude.{◌≡◌, ◌+◌, ◌≤◌, ℕ, List, Option, sum_by, length, Ok};
ghost use Rattle.problem_definitions.specs.Problem.{entry_count};
ghost use Rattle.listing_definitions.specs.Text.{report_text};
ghost use Rattle.report_text.specs.Views.{IsReport, text_view};
ghost use Rattle.run_definitions.specs.Verbs.{size_of};
ghost use Rattle.run_definitions.specs.Moves.{DecidesAlone};
ghost use Rattle.run_machine.specs.Standing.{IsSound};
ghost use Rattle.run_machine.specs.Statements.{Executes};
ghost use Rattle.run_machine.specs.Describing.{verb_of, report_of, Describes, described_as};

use crate::act::{Act, Halt};
use crate::end::End;
use crate::kept::Kept;
use crate::machine::Machine;
use card_reader::Cards;
use deck_fields::{CardStop, DeckFault};
use job_devices::Sink;
use problem_file::Problem;
use report_text::{Report, text_of};

/// A statement that takes a deck.
#[derive(Clone, Copy)]
pub enum DeckVerb {
    Convert,
    Revise,
}

/// What it finds.
#[derive(Drop)]
pub enum Described {
    /// A deck gives this problem, and the next deck begins with the card of this number or later.
    Filed { problem: Problem, next: u32 },
    /// The run ends.
    Ends(End),
}

// The number of entries of all columns.
fn entry_count(problem: &Problem) -> u32
    ensures { result ≡ entry_count problem.now }
{
    problem
        .columns()
        .iter()
        .map(|column| column.items.len())
        .sum::<usize>() as u32
}

// What is printed of a problem that is filed.
fn filed_report(verb: DeckVerb, problem: &Problem) -> Report<'static>
    ensures text { text_view result ≡ report_text (report_of verb (size_of problem.now)) }
    ensures lawful { IsReport result }
{
    let name = problem.name();
    let rows = problem.row_count();
    let columns = problem.column_count();
    let entries = entry_count(problem);
    match verb {
        DeckVerb::Convert => Report::Converted {
            name,
            rows,
            columns,
            entries,
        },
        DeckVerb::Revise => Report::Revised {
            name,
            rows,
            columns,
            entries,
        },
    }
}

/// The number of the next card after the one with this number.
pub fn next_card(cards: &Cards, last: u32) -> u32
    requires { last ≤ length cards.now }
    ensures { result ≡ last + 1 }
{
    last.min(cards.count()) + 1
}

/// What the problem that a deck gives comes to, or its stop; the next deck begins with the card of this number or later.
pub fn described_as(
    given: Result<Problem, CardStop<DeckFault>>,
    next: u32,
) -> Result<Described, Halt>
    ensures { result ≡ described_as given next }
{
    match given {
        Ok(problem) => Ok(Described::Filed { problem, next }),
        Err(CardStop::Fault(fault)) => Ok(Described::Ends(End::Deck(fault))),
        Err(CardStop::NoMemory) => Err(Halt::NoMemory),
    }
}

impl<S: Kept> Machine<S> {
    /// Files the problem that a statement found, and prints its size. Setup and mark are cleared.
    pub fn file_described<P: Sink>(
        &mut self,
        verb: DeckVerb,
        described: Described,
        cards: &Cards,
        print: &mut P,
        card: u32,
    ) -> Result<Act, Halt>
        requires sound { IsSound S.ready S.solved cards.now self.old }
        requires described { Describes S.shows verb card cards.now self.old
            (Ok described) }
        ensures acts { Executes S.shows DecidesAlone (verb_of verb) card (P.taken print.old)
            (P.taken print.new) cards.now self.old self.new result }
        ensures sound { IsSound S.ready S.solved cards.now self.new }
    {
        match described {
            Described::Ends(end) => Ok(Act::Ends(end)),
            Described::Filed { problem, next } => {
                let report = filed_report(verb, &problem);
                self.file.put(problem)?;
                self.decks_from = next;
                self.setup = None;
                self.mark = None;
                text_of(&report, print)?;
                Ok(Act::Next)
            }
        }
    }
}
