// Reads the control cards of a job up to PEND.
ghost use Rattle.std.specs.Prelude.{◌+◌, ◌<◌, length};
ghost use Rattle.control_compiler.specs.Underway.{IsFirst, FindsFirst, StandsFirst, Begins, IsUnderway, Passes};

use crate::draft::{Draft, place_label};
use crate::labels::Labels;
use card_reader::{CardStop, Cards};
use control_definitions::{ControlFault, ControlFaultKind};
use control_verbs::{head_fault, label, label_in};
use std::alloc::Global;

/// What was read of a job's control cards: labels and statements, and PEND's number, if it was there.
#[derive(Drop)]
pub struct Reading {
    pub draft: Draft,
    pub end: Option<u32>,
}

// The number of the first card that isn't skipped.
fn first_live(cards: &Cards) -> Option<u32>
    ensures { FindsFirst result cards.now }
{
    let mut number = 0;
    while number < cards.count() {
        if !cards.card(number + 1).is_skipped() {
            return Some(number + 1);
        }
        number += 1;
    }
    None
}

// The draft that PROGRAM's card begins, which is the first card that isn't skipped, or the card's fault.
fn begin(alloc: Global, cards: &Cards, number: u32) -> Result<Draft, CardStop<ControlFault>>
    requires { IsFirst cards.now number }
    ensures { Begins result cards.now number }
{
    let card = cards.card(number).bytes();
    if let Some(fault) = head_fault(card) {
        return Err(CardStop::Fault(fault.on_card(number)));
    }
    let mut labels = Labels::new(alloc);
    place_label(&mut labels, label_in(label(card)), 1)?;
    Ok(Draft {
        labels,
        statements: Vec::new(alloc),
    })
}

// Takes the card after this number, unless it is skipped, and says whether it is PEND.
fn pass(draft: &mut Draft, cards: &Cards, number: u32) -> Result<bool, CardStop<ControlFault>>
    requires within { number < length cards.now }
    requires room { number < 4294967295 }
    requires underway { IsUnderway cards.now number draft.old }
    ensures { Passes result cards.now (number + 1) draft.new }
{
    let card = cards.card(number + 1);
    if card.is_skipped() {
        return Ok(false);
    }
    draft.take(number + 1, card.bytes())
}

impl Reading {
    ghost use Rattle.control_compiler.specs.Outcomes.{Reads};

    /// Reads the job's cards up to PEND.
    pub fn of(alloc: Global, cards: &Cards) -> Result<Reading, CardStop<ControlFault>>
        ensures { Reads result cards.now }
    {
        let Some(number) = first_live(cards) else {
            return Err(CardStop::Fault(ControlFaultKind::NoProgram.on_card(cards.count())));
        };
        let draft = begin(alloc, cards, number)?;
        Reading::after(draft, cards, number)
    }

    // Reads the cards after the one of this number, which is PROGRAM's.
    fn after(mut draft: Draft, cards: &Cards, first: u32) -> Result<Reading, CardStop<ControlFault>>
        requires { StandsFirst cards.now first draft }
        ensures { Reads result cards.now }
    {
        let mut number = first;
        while number < cards.count() {
            let ends = pass(&mut draft, cards, number)?;
            number += 1;
            if ends {
                return Ok(Reading {
                    draft,
                    end: Some(number),
                });
            }
        }
        Ok(Reading { draft, end: None })
    }
}
