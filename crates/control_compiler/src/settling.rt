// Labels give way to positions.
ghost use Rattle.std.specs.Prelude.{◌≡◌, IfErr, IfOk, map, find, option_map};
ghost use Rattle.control_definitions.specs.Program.{verb_by};
ghost use Rattle.control_verbs.specs.Views.{viewed, statement_view};
ghost use Rattle.control_compiler.specs.Settled.{lacks_label, place_in, settled, settled_program};
ghost use Rattle.control_compiler.specs.Valid.{IsProgram};
ghost use Rattle.card_reader.specs.declared.stop.CardStop.TheVariants.{NoMemory};

use crate::draft::Draft;
use crate::labels::Labels;
use crate::program::Program;
use card_reader::CardStop;
use control_definitions::ControlFault;
use control_verbs::{Statement, Verb};
use name_table::Name;
use std::alloc::Global;

// Whether a verb names a label that has no position.
fn lacks_label(labels: &Labels, verb: &Verb<Name>) -> bool
    ensures { result ≡ lacks_label labels.now (viewed verb.now) }
{
    match verb {
        Verb::Mvadr(_, label) => labels.position(label).is_none(),
        Verb::Goto(label) => labels.position(label).is_none(),
        _ => false,
    }
}

// The position of a label, and 0 where it has none.
fn place_of(labels: &Labels, label: &Name) -> u32
    ensures { result ≡ place_in labels.now label.now }
{
    labels.position(label).unwrap_or(0)
}

// The card of the first statement that names a label without a position.
pub fn missing(draft: &Draft) -> Option<u32>
    ensures { result ≡ option_map (λ statement. statement.card)
        (find (λ statement. lacks_label draft.now.labels (viewed statement.verb))
        draft.now.statements.items) }
{
    for statement in &draft.statements {
        if lacks_label(&draft.labels, &statement.verb) {
            return Some(statement.card);
        }
    }
    None
}

// A verb with positions in place of labels.
fn settled_verb(labels: &Labels, verb: Verb<Name>) -> Verb<u32>
    ensures { viewed result ≡ verb_by (place_in labels.now) (viewed verb) }
{
    match verb {
        Verb::Initialz => Verb::Initialz,
        Verb::Title(text) => Verb::Title(text),
        Verb::MoveName(cell, name) => Verb::MoveName(cell, name),
        Verb::MoveNumber(cell, value) => Verb::MoveNumber(cell, value),
        Verb::MoveLimit(limit) => Verb::MoveLimit(limit),
        Verb::Mvadr(demand, label) => Verb::Mvadr(demand, place_of(labels, &label)),
        Verb::Goto(label) => Verb::Goto(place_of(labels, &label)),
        Verb::Convert => Verb::Convert,
        Verb::Setup(options) => Verb::Setup(options),
        Verb::Primal => Verb::Primal,
        Verb::Dual => Verb::Dual,
        Verb::Revise => Verb::Revise,
        Verb::Ranging => Verb::Ranging,
        Verb::Paraobj => Verb::Paraobj,
        Verb::Pararhs => Verb::Pararhs,
        Verb::Solution => Verb::Solution,
        Verb::Bcdout => Verb::Bcdout,
        Verb::Punch => Verb::Punch,
        Verb::Insert => Verb::Insert,
        Verb::Exit => Verb::Exit,
    }
}

// The statements with positions in place of labels.
fn settled_statements(
    alloc: Global,
    labels: &Labels,
    statements: Vec<Statement<Name>>,
) -> Result<Vec<Statement<u32>>, CardStop<ControlFault>>
    ensures ok { IfOk result (λ all. map statement_view all.items ≡ map
        (λ statement. settled labels.now (statement_view statement)) statements.items) }
    ensures err { IfErr result (λ stop. stop ≡ NoMemory) }
{
    let mut all = Vec::new(alloc);
    for Statement { card, verb } in statements {
        let verb = settled_verb(labels, verb);
        all.push(Statement { card, verb })?;
    }
    Ok(all)
}

// The program of a draft, with the first card after it.
pub fn settle(
    alloc: Global,
    draft: Draft,
    decks_from: u32,
) -> Result<Program, CardStop<ControlFault>>
    requires { IsProgram (settled_program draft decks_from) }
    ensures ok { IfOk result (λ program. program ≡ settled_program draft decks_from) }
    ensures err { IfErr result (λ stop. stop ≡ NoMemory) }
{
    let Draft { labels, statements } = draft;
    let statements = settled_statements(alloc, &labels, statements)?;
    Ok(Program::new(statements, decks_from))
}
