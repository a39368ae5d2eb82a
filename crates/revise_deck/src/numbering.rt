// A problem with numbers in place of names.
ghost use Rattle.std.specs.Prelude.{◌≡◌, IfOk};
ghost use Rattle.problem_definitions.specs.Numbering.{numbered};
ghost use Rattle.problem_definitions.specs.Valid.{IsProblem};

use name_table::Name;
use named_problem::NamedProblem;
use problem_file::{NoMemory, Problem};
use std::alloc::Global;

/// The problem under this name, with numbers in place of names.
#[tactic(auto, unfolding(problem_definitions::specs::Numbering::numbered))]
pub fn renumbered(alloc: Global, problem: &NamedProblem, name: Name) -> Result<Problem, NoMemory>
    requires { IsProblem (numbered (record problem.now { name = name })) }
    ensures { IfOk result (λ made. made ≡ numbered (record problem.now { name = name })) }
{
    let rows = problem.rows.decls(alloc)?;
    let columns = problem.columns.numbered(alloc, &problem.rows)?;
    let rhs = problem.rhs.numbered(alloc, &problem.rows)?;
    let ranges = problem.ranges.numbered(alloc, &problem.rows)?;
    let bounds = problem.bounds.numbered(alloc, &problem.columns)?;
    Ok(Problem::new(name, rows, columns, rhs, ranges, bounds))
}
