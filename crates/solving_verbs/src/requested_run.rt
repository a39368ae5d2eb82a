// The parametric run of a request, as it is made.
ghost use Rattle.std.specs.Prelude.{◌≡◌, ℕ};
ghost use Rattle.lp_definitions.specs.LinearProgram.{LinearProgram};
ghost use Rattle.problem_definitions.specs.Problem.{Problem};
ghost use Rattle.parametric_request.specs.Asking.{parametric_run_of};
ghost use Rattle.parametric_request.specs.Asking as requests;
ghost use Rattle.solving_verbs.specs.ParametricVerbs.{parametric_run_view, Serves};

use frac128::Frac;
use listing_definitions::Solver;
use name_table::Name;
use para_objective::ParaObj;
use para_rhs::ParaRhs;
use parametric_request::{Change, ParametricRequest};

/// A parametric run, with the name of the row or set that changes.
#[derive(Drop)]
pub enum ParametricRun {
    Row { name: Name, run: ParaObj },
    Set { name: Name, run: ParaRhs },
}

/// The run of a request, in so many steps at most.
pub fn run_of(request: ParametricRequest, limit: u32) -> ParametricRun
    ensures viewed { parametric_run_view result ≡ parametric_run_of limit request }
    ensures serves { (problem : Problem ℕ) (p : LinearProgram) → requests.Serves problem p request →
        Serves problem p result }
{
    let ParametricRequest {
        name,
        change,
        from,
        to,
    } = request;
    match change {
        Change::Row(row) => ParametricRun::Row {
            name,
            run: ParaObj {
                row,
                from,
                to,
                limit,
            },
        },
        Change::Set(shift) => ParametricRun::Set {
            name,
            run: ParaRhs {
                shift,
                from,
                to,
                limit,
            },
        },
    }
}

impl ParametricRun {
    ghost use Rattle.std.specs.Prelude.{◌≡◌};
    ghost use Rattle.question_definitions.specs.Answers.{changing_name, parametric_solver};
    ghost use Rattle.solving_verbs.specs.ParametricVerbs.{parametric_run_view};

    /// The solver that its reports name.
    pub fn solver(&self) -> Solver
        ensures { result ≡ parametric_solver (parametric_run_view self.now).changing }
    {
        match self {
            ParametricRun::Row { .. } => Solver::Paraobj,
            ParametricRun::Set { .. } => Solver::Pararhs,
        }
    }

    /// The name of what changes.
    pub fn change(&self) -> Name
        ensures { result ≡ changing_name (parametric_run_view self.now).changing }
    {
        match self {
            ParametricRun::Row { name, .. } | ParametricRun::Set { name, .. } => *name,
        }
    }

    /// The first value.
    pub fn from(&self) -> Frac
        ensures { result ≡ (parametric_run_view self.now).from }
    {
        match self {
            ParametricRun::Row { run, .. } => run.from,
            ParametricRun::Set { run, .. } => run.from,
        }
    }

    /// The last value that is asked for.
    pub fn to(&self) -> Frac
        ensures { result ≡ (parametric_run_view self.now).to }
    {
        match self {
            ParametricRun::Row { run, .. } => run.to,
            ParametricRun::Set { run, .. } => run.to,
        }
    }
}
