//! What a parametric method is.

ghost use Rattle.std.specs.Prelude.{◌≡◌, List, length, OnOk, OnErr, IfOk, IfErr};
ghost use Rattle.exact_values.specs.Rational.{◌≤ℚ◌};
ghost use Rattle.lp_definitions.specs.LinearProgram.{size, value_at};
ghost use Rattle.lp_definitions.specs.Basis.{Basics, IsOptimalBasis, IsPointOf};
ghost use Rattle.lp_model.specs.RatesCalls.{IfOverflow};
ghost use Rattle.simplex_definitions.specs.Chain.{IsPart};
ghost use Rattle.simplex_laws.specs.Laws.{IsNonsingularBasis};
ghost use Rattle.basis_values.specs.Calls.{IsAtBasis, StaysAt};
ghost use Rattle.bounded_primal.specs.Calls.{CallEnds, WaypointsFollow};
ghost use Rattle.bounded_primal.specs.Outcomes.{IsTrueOutcome};
ghost use Rattle.parametric_run.specs.Calls.{part_of};
ghost use Rattle.parametric_run.specs.Chains.{MethodStops};
ghost use Rattle.parametric_run.specs.Faces.{FaceFound};
ghost use Rattle.parametric_run.specs.Programs.{ParametricProgram};
ghost use Rattle.parametric_run.specs.Standing.{AreSized, IsWorkspaceOf, IsPointAtSome, RefusedAt};

use crate::workspace::Workspace;
use bounded_primal::{BlockingVariable, PrimalStop};
use frac128::Frac;
use lp_model::{Basis, Lp, Outcome, ParaEnd, ParaPart, Point, Rates, Stop};
use std::alloc::Global;

/// From which value of the parameter to which a run goes, and in at most how many steps.
#[derive(Clone, Copy, Debug)]
pub struct Span {
    pub from: Frac,
    pub to: Frac,
    pub limit: u32,
}

/// Where the opening path has ended: the basis's point at the first value, and how many steps are left to the run.
#[derive(Debug, Drop)]
pub struct Opened {
    pub point: Point,
    pub left: u32,
}

/// What is done at a basis: nothing is left, the run ends, or `q` moves by `by`, and its direction is at hand.
pub enum FaceStep {
    Done,
    Ends(ParaEnd),
    Moves { q: u32, by: BlockingVariable },
}

/// What the face steps at a breakpoint come to: none remains, with so many steps left to the run, or it ends.
pub enum AfterFaces {
    Done { left: u32 },
    Ends(ParaEnd),
}

/// A linear program that changes with a parameter, and what a run of it does at a basis. An overflow comes only with evidence of it at
/// that basis.
pub trait Parametric {
    /// The program at each value, and what is done at a breakpoint.
    ghost problem: { Self → ParametricProgram };

    /// What is asked of the program and its change.
    ghost fits: { Self → Type 0 };

    /// The linear program at 0.
    fn program(&self) -> &Lp
        ensures { result.now ≡ (problem self.now).program };

    /// The opening path: the path of the linear program at the first value.
    fn opening<R: Rates>(
        &self,
        alloc: Global,
        span: &Span,
        basis: &mut Basis,
        rates: &mut R,
    ) -> Result<Outcome, PrimalStop>
        requires fits { fits self.now }
        requires rates { IsAtBasis (R.state rates.old) (problem self.now).program basis.old }
        ensures ends { IfOk result (CallEnds ((problem self.now).family span.now.from)
            basis.old basis.new span.now.limit) }
        ensures truth { IfOk result (IsTrueOutcome ((problem self.now).family span.now.from)) }
        ensures stops { IfErr result (MethodStops (problem self.now) span.now basis.old basis.new
            (R.state rates.old).waypoints (R.state rates.new).waypoints) }
        ensures rates { IsAtBasis (R.state rates.new) (problem self.now).program basis.new }
        ensures waypoints { WaypointsFollow ((problem self.now).family span.now.from) basis.old
            basis.new (R.state rates.old) (R.state rates.new) };

    /// The basis's point at 0, from its point at some value.
    fn point<R: Rates>(
        &self,
        alloc: Global,
        basis: &Basis,
        rates: &mut R,
        there: &Point,
    ) -> Result<Vec<Frac>, Stop>
        requires fits { fits self.now }
        requires rates { IsAtBasis (R.state rates.old) (problem self.now).program basis.now }
        requires there { IsPointAtSome (problem self.now) basis.now (value_at there.now) }
        requires places { length there.now ≡ size (problem self.now).program.matrix }
        ensures point { IfOk result (λ point. IsPointOf (problem self.now).program basis.now
            (value_at point.items)) }
        ensures places { IfOk result (λ point. length point.items ≡
            size (problem self.now).program.matrix) }
        ensures rates { StaysAt (R.state rates.old) (R.state rates.new) (problem self.now).program
            basis.now }
        ensures overflow { IfErr result (λ stop. IfOverflow stop (RefusedAt (problem self.now)
            basis.now (R.state rates.old).waypoints (R.state rates.new).waypoints)) };

    /// Fills the basis's prices, and how it moves with the parameter. Its point is there.
    fn refresh<R: Rates>(
        &self,
        basis: &Basis,
        rates: &mut R,
        workspace: &mut Workspace,
    ) -> Result<(), Stop>
        requires fits { fits self.now }
        requires rates { IsAtBasis (R.state rates.old) (problem self.now).program basis.now }
        requires sized { AreSized (size (problem self.now).program.matrix) workspace.old }
        requires point { IsPointOf (problem self.now).program basis.now
            (value_at workspace.old.point.items) }
        ensures workspace { OnOk result
            (IsWorkspaceOf (problem self.now) basis.now workspace.new) }
        ensures rates { StaysAt (R.state rates.old) (R.state rates.new) (problem self.now).program
            basis.now }
        ensures overflow { IfErr result (λ stop. IfOverflow stop (RefusedAt (problem self.now)
            basis.now (R.state rates.old).waypoints (R.state rates.new).waypoints)) };

    /// The interval of the basis that begins at `from`, and ends at `max` at the latest.
    fn interval(
        &self,
        basis: &Basis,
        workspace: &Workspace,
        from: Frac,
        max: Frac,
    ) -> Result<ParaPart, Stop>
        requires fits { fits self.now }
        requires basis { IsNonsingularBasis (problem self.now).program basis.now }
        requires workspace { IsWorkspaceOf (problem self.now) basis.now workspace.now }
        requires forward { from ≤ℚ max }
        requires optimal { IsOptimalBasis ((problem self.now).family from) basis.now }
        ensures interval { IfOk result (λ part. IsPart (problem self.now).family from max basis.now
            (part_of part)) }
        ensures overflow { IfErr result (λ stop. IfOverflow stop (λ e.
            (before : List Basics) (after : List Basics) →
            RefusedAt (problem self.now) basis.now before after e)) };

    /// What is done at a breakpoint at the basis, which is optimal there. `Limit` comes where a step is to be made and none is left.
    fn face_turn<R: Rates>(
        &self,
        basis: &Basis,
        rates: &mut R,
        workspace: &mut Workspace,
        theta: Frac,
        left: u32,
    ) -> Result<FaceStep, PrimalStop>
        requires fits { fits self.now }
        requires rates { IsAtBasis (R.state rates.old) (problem self.now).program basis.now }
        requires workspace { IsWorkspaceOf (problem self.now) basis.now workspace.old }
        requires optimal { IsOptimalBasis ((problem self.now).family theta) basis.now }
        ensures turn { FaceFound (problem self.now) result theta basis.now left workspace.new
            (R.state rates.old) (R.state rates.new) }
        ensures workspace { OnOk result
            (IsWorkspaceOf (problem self.now) basis.now workspace.new) }
        ensures rates { StaysAt (R.state rates.old) (R.state rates.new) (problem self.now).program
            basis.now };
}
