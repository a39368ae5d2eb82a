// A problem in the making, of which one is made when the cards of a deck are through.
ghost use Rattle.std.specs.Prelude.{◌≡◌, IfOk};
ghost use Rattle.problem_definitions.specs.Names.{Name as TheName};
ghost use Rattle.problem_definitions.specs.Numbering.{numbered};
ghost use Rattle.problem_definitions.specs.Problem.{Problem as TheProblem};
ghost use Rattle.problem_definitions.specs.Valid.{IsProblem};

use name_table::Name;
use problem_file::{NoMemory, Problem};

/// A problem in the making.
pub trait ProblemDraft {
    /// The problem after the cards so far, by names and under this name.
    ghost problem_under: { TheName → Self → TheProblem TheName };

    /// The problem after the cards so far, under this name and with numbers in place of names.
    fn problem(&self, name: Name) -> Result<Problem, NoMemory>
        requires { IsProblem (numbered (problem_under name self.now)) }
        ensures { IfOk result (λ problem. problem ≡ numbered (problem_under name self.now)) };
}
