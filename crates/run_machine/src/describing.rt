// CONVERT and REVISE: the problem that a deck gives.
ghost use Rattle.std.specs.Prelude.{◌≡◌, ◌≤◌, Ok, length};
ghost use Rattle.run_definitions.specs.Moves.{DecidesAlone};
ghost use Rattle.run_machine.specs.Standing.{IsSound};
ghost use Rattle.run_machine.specs.Statements.{Executes};
ghost use Rattle.run_machine.specs.Describing.{verb_of, Describes};
ghost use Rattle.run_machine.specs.declared.end.End.TheVariants as ends;
ghost use Rattle.run_machine.specs.declared.taking.DeckVerb.TheVariants as deck_verb;
ghost use Rattle.run_machine.specs.declared.taking.Described.TheVariants as descriptions;

use crate::act::{Act, Halt};
use crate::end::End;
use crate::kept::Kept;
use crate::machine::Machine;
use crate::taking::{DeckVerb, Described, described_as, next_card};
use card_reader::Cards;
use control_definitions::NameCell;
use job_decks::take_deck;
use job_devices::Sink;
use listing_definitions::VerbFault;
use mps_convert::convert;
use revise_deck::revise;
use std::alloc::Global;

// The statement of this card is refused.
fn refused(fault: VerbFault, card: u32) -> Result<Described, Halt>
    ensures { result ≡ Ok (descriptions.Ends (ends.Verb fault card)) }
{
    Ok(Described::Ends(End::Verb { fault, card }))
}

impl<S: Kept> Machine<S> {
    // CONVERT takes a deck, and converts it.
    fn converted(&self, alloc: Global, cards: &Cards, card: u32) -> Result<Described, Halt>
        requires { IsSound S.ready S.solved cards.now self.now }
        ensures { Describes S.shows deck_verb.Convert card cards.now self.now result }
    {
        let wanted = self.cells.name(NameCell::Xdata);
        let Some(deck) = take_deck(cards, self.decks_from, wanted) else {
            return refused(VerbFault::DeckNotFound, card);
        };
        let named = self.cells.name(NameCell::Xpbname);
        let given = convert(alloc, cards, deck.first, deck.last, named);
        described_as(given, next_card(cards, deck.last))
    }

    // REVISE takes a deck, and revises the old problem by it.
    fn revised(&self, alloc: Global, cards: &Cards, card: u32) -> Result<Described, Halt>
        requires { IsSound S.ready S.solved cards.now self.now }
        ensures { Describes S.shows deck_verb.Revise card cards.now self.now result }
    {
        let Some(old) = self.problem_in(NameCell::Xoldname) else {
            return refused(VerbFault::NoProblem, card);
        };
        let wanted = self.cells.name(NameCell::Xdata);
        let Some(deck) = take_deck(cards, self.decks_from, wanted) else {
            return refused(VerbFault::DeckNotFound, card);
        };
        let name = self.cells.name(NameCell::Xpbname);
        let given = revise(alloc, old, cards, deck.first, deck.last, name);
        described_as(given, next_card(cards, deck.last))
    }

    // What the verb finds.
    fn described(
        &self,
        alloc: Global,
        verb: DeckVerb,
        cards: &Cards,
        card: u32,
    ) -> Result<Described, Halt>
        requires { IsSound S.ready S.solved cards.now self.now }
        ensures { Describes S.shows verb card cards.now self.now result }
    {
        match verb {
            DeckVerb::Convert => self.converted(alloc, cards, card),
            DeckVerb::Revise => self.revised(alloc, cards, card),
        }
    }

    /// CONVERT and REVISE: takes the first deck of the name moved to XDATA, or the first of all, and files the problem that it
    /// describes, or what it makes of the problem that XOLDNAME names, or else of the one filed last, under the name moved to XPBNAME
    /// or the deck's own. The old problem stays on file unless the new one has its name. Setup and mark are cleared.
    pub fn make_problem<P: Sink>(
        &mut self,
        alloc: Global,
        verb: DeckVerb,
        cards: &Cards,
        print: &mut P,
        card: u32,
    ) -> Result<Act, Halt>
        requires { IsSound S.ready S.solved cards.now self.old }
        ensures acts { Executes S.shows DecidesAlone (verb_of verb) card (P.taken print.old)
            (P.taken print.new) cards.now self.old self.new result }
        ensures sound { IsSound S.ready S.solved cards.now self.new }
    {
        let described = self.described(alloc, verb, cards, card)?;
        self.file_described(verb, described, cards, print, card)
    }
}
