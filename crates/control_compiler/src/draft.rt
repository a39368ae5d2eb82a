// A program while its cards are read: labels still stand for positions.
ghost use Rattle.std.specs.Prelude.{◌≡◌, ◌+◌, ◌≤◌, ◌++◌, List, ℕ, All, length, map, bytes_eq, is_some, false, option_to_list, OnOk, IfErr};
ghost use Rattle.control_verbs.specs.Views.{viewed, statement_view, IsLawful};
ghost use Rattle.control_compiler.specs.Cards.{placed, statement_said};
ghost use Rattle.card_reader.specs.declared.stop.CardStop.TheVariants.{NoMemory};
ghost use Rattle.std.specs.Option.{option_map_or};
ghost use Rattle.std.specs.Map.{lookup};
ghost use Rattle.card_definitions.specs.Cards.{Card};
ghost use Rattle.control_definitions.specs.declared.TheConstants.{MAX_STATEMENTS};

use crate::labels::Labels;
use card_reader::CardStop;
use control_definitions::ControlFault;
use control_verbs::{Statement, card_fault, is_pend, label, label_in, verb_of};
use name_table::Name;

/// The labels and the statements of the cards read so far, of which the first is PROGRAM.
#[derive(Drop)]
pub struct Draft {
    pub labels: Labels,
    pub statements: Vec<Statement<Name>>,
}

// Gives a label its position, if there is one.
pub fn place_label(
    labels: &mut Labels,
    label: Option<Name>,
    position: u32,
) -> Result<(), CardStop<ControlFault>>
    ensures ok { OnOk result ((other : List ℕ) → lookup (bytes_eq other) labels.new ≡ placed label
        position other (lookup (bytes_eq other) labels.old)) }
    ensures err { IfErr result (λ stop. stop ≡ NoMemory) }
{
    match label {
        Some(label) => labels.add(label, position),
        None => Ok(()),
    }
}

// Puts the statement of a card after the others, if it has one.
fn push_statement(
    statements: &mut Vec<Statement<Name>>,
    number: u32,
    card: &[u8],
) -> Result<(), CardStop<ControlFault>>
    ensures ok { OnOk result (map statement_view statements.new.items ≡ map statement_view
        statements.old.items ++ option_to_list (statement_said
        (record { number = number; bytes = card.now }))) }
    ensures lawful { OnOk result (All (λ statement. IsLawful (viewed statement.verb))
        statements.old.items → All (λ statement. IsLawful (viewed statement.verb))
        statements.new.items) }
    ensures err { IfErr result (λ stop. stop ≡ NoMemory) }
{
    if let Some(verb) = verb_of(card) {
        statements.push(Statement { card: number, verb })?;
    }
    Ok(())
}

// Whether a label has a position.
fn is_placed(labels: &Labels, label: &Option<Name>) -> bool
    ensures { result ≡ option_map_or (λ (name : List ℕ). is_some
        (lookup (bytes_eq name) labels.now)) label.now false }
{
    match label {
        Some(label) => labels.position(label).is_some(),
        None => false,
    }
}

impl Draft {
    ghost use Rattle.control_compiler.specs.After.{IsAfter, Takes};

    /// Takes one more card of the program, and says whether it is PEND.
    pub fn take(&mut self, number: u32, card: &[u8]) -> Result<bool, CardStop<ControlFault>>
        requires { length self.old.statements.items ≤ MAX_STATEMENTS }
        ensures { (cards : List Card) → IsAfter cards self.old → length cards ≡ length
            self.old.statements.items + 1 → Takes result cards
            (record { number = number; bytes = card.now }) self.new }
    {
        let position = self.statements.len() + 1;
        let label = label_in(label(card));
        let is_twice = is_placed(&self.labels, &label);
        if let Some(fault) = card_fault(card, is_twice, position) {
            return Err(CardStop::Fault(fault.on_card(number)));
        }
        place_label(&mut self.labels, label, position as u32)?;
        push_statement(&mut self.statements, number, card)?;
        Ok(is_pend(card))
    }
}
