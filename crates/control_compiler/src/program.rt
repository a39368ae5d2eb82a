// Compiled programs.
ghost use Rattle.std.specs.Prelude.{◌≡◌, ◌≤◌, ◌-◌, length, map, slice_get, Some};
ghost use Rattle.control_verbs.specs.Views.{statement_view};
ghost use Rattle.control_compiler.specs.Valid.{IsProgram};

use card_reader::Cards;
use control_verbs::Statement;
use std::marker::Model;

/// What a job's control cards compile to: at most 5,000 statements, in which each position is from 1 to one more than their
/// count, and no limit on steps is above 1,000,000.
#[derive(Drop)]
pub struct Program {
    statements: Vec<Statement<u32>>,
    decks_from: u32,
}

impl Model for Program {
    ghost use Rattle.std.specs.Prelude.{map};
    ghost use Rattle.control_definitions.specs.Program.{Program as Compiled};
    ghost use Rattle.control_verbs.specs.Views.{statement_view};
    ghost use Rattle.control_compiler.specs.Valid.{IsProgram};

    ghost Value = { Compiled };

    ghost view = { λ p. record { statements = map statement_view p.statements.items; decks_from = p.decks_from } };

    ghost invariant = { λ p. IsProgram
        (record { statements = map statement_view p.statements.items; decks_from = p.decks_from }) };
}

impl Program {
    // The program of these statements, with the first card after it.
    pub(crate) fn new(statements: Vec<Statement<u32>>, decks_from: u32) -> Program
        requires { IsProgram (record {
          statements = map statement_view statements.items;
          decks_from
              = decks_from;
        }) }
        ensures { result ≡ record {
          statements = map statement_view statements.items;
          decks_from =
              decks_from;
        } }
    {
        Program {
            statements,
            decks_from,
        }
    }

    /// How many statements the program has.
    pub fn count(&self) -> u32
        ensures count { result ≡ length self.now.statements }
        ensures valid { IsProgram self.now }
    {
        self.statements.len() as u32
    }

    /// The statement with this number, from 1.
    pub fn statement(&self, k: u32) -> &Statement<u32>
        requires first { 1 ≤ k }
        requires last { k ≤ length self.now.statements }
        ensures { slice_get self.now.statements (k - 1) ≡ Some (statement_view result.now) }
    {
        &self.statements[k as usize - 1]
    }

    /// The number of the first card after the program.
    pub fn decks_from(&self) -> u32
        ensures { result ≡ self.now.decks_from }
    {
        self.decks_from
    }
}

/// What a run goes by: a compiled program, and the cards of its job.
#[derive(Clone, Copy)]
pub struct RunInput<'a> {
    pub program: &'a Program,
    pub cards: &'a Cards,
}
