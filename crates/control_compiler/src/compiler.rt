// Compiles the control program of a job.
ghost use Rattle.std.specs.Prelude.{◌≡◌, Ok, IfOk, IfErr, Option, option_map, is_some};
ghost use Rattle.card_definitions.specs.Cards.{Card};
ghost use Rattle.control_definitions.specs.Compiled.{end_fault, compiled};
ghost use Rattle.control_compiler.specs.Outcomes.{EndsAt, ReportsControlFault};

use crate::program::Program;
use crate::reading::Reading;
use crate::settling::{missing, settle};
use card_reader::{CardStop, Cards};
use control_definitions::{ControlFault, ControlFaultKind};
use std::alloc::Global;

// The number of PEND's card, unless the program has a fault as a whole: the job, whose last card has this number, ends before
// PEND, or a statement names a label that no card has. The earlier card decides, and the end where it is one card.
fn pend_or_fault(pend: Option<u32>, missing: Option<u32>, last: u32) -> Result<u32, ControlFault>
    ensures { (card : Option Card) → missing ≡ option_map (λ card. card.number) card → EndsAt result
        pend (end_fault last (is_some pend) card) }
{
    match (pend, missing) {
        (Some(pend), None) => Ok(pend),
        (Some(_), Some(card)) => Err(ControlFaultKind::NoLabel.on_card(card)),
        (None, Some(card)) if card < last => Err(ControlFaultKind::NoLabel.on_card(card)),
        (None, _) => Err(ControlFaultKind::NoPend.on_card(last)),
    }
}

/// Compiles the control program at the head of a job's cards, from PROGRAM to PEND, or answers the job's first control fault.
pub fn compile(alloc: Global, cards: &Cards) -> Result<Program, CardStop<ControlFault>>
    ensures program { IfOk result (λ program. compiled cards.now ≡ Ok program) }
    ensures fault { IfErr result (ReportsControlFault (compiled cards.now)) }
{
    let reading = Reading::of(alloc, cards)?;
    match pend_or_fault(reading.end, missing(&reading.draft), cards.count()) {
        Ok(pend) => settle(alloc, reading.draft, pend + 1),
        Err(fault) => Err(CardStop::Fault(fault)),
    }
}
