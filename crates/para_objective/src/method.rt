//! The objective as a parameter.

use crate::breaks::face_entering_variable;
use crate::reaching::reach;
use crate::turns::{blocking_variable_of, rises, unbounded_end};
use basis_values::fill_prices;
use bounded_primal::{PrimalStop, copied, primal};
use dual_step::read_row;
use frac128::Frac;
use lp_model::{Basis, Change, Lp, Outcome, ParaPart, Point, Rates, Stop};
use parametric_run::{
    FaceStep, Parametric, Span, Workspace, prices_with, reduced_point, still_point,
};
use std::alloc::Global;

/// A linear program, and a row without limits: theta times the row is added to the objective.
#[derive(Clone, Copy)]
pub struct Objective<'a> {
    pub lp: &'a Lp,
    pub row: u32,
}

impl<'a> Parametric for Objective<'a> {
    ghost use Rattle.para_objective.specs.Method.{objective_problem, FitsObjective};

    ghost problem = { λ m. objective_problem m.lp.now m.row };

    ghost fits = { λ m. FitsObjective m.lp.now m.row };

    fn program(&self) -> &Lp {
        self.lp
    }

    fn opening<R: Rates>(
        &self,
        alloc: Global,
        span: &Span,
        basis: &mut Basis,
        rates: &mut R,
    ) -> Result<Outcome, PrimalStop> {
        let first = Change {
            row: self.row,
            theta: span.from,
        };
        let program = self.lp.with_change(alloc, first)?;
        primal(alloc, &program, basis, rates, span.limit)
    }

    // The point is the same at each value.
    fn point<R: Rates>(
        &self,
        alloc: Global,
        _basis: &Basis,
        _rates: &mut R,
        there: &Point,
    ) -> Result<Vec<Frac>, Stop> {
        let point = copied(alloc, there.values())?;
        Ok(point)
    }

    fn refresh<R: Rates>(
        &self,
        basis: &Basis,
        rates: &mut R,
        workspace: &mut Workspace,
    ) -> Result<(), Stop> {
        let Workspace {
            prices,
            change,
            row,
            ..
        } = workspace;
        fill_prices(self.lp, basis, rates, row, prices)?;
        read_row(self.lp, basis, rates, self.row, change)?;
        Ok(())
    }

    // The point is the same at each value, and the prices move with the rates of the change row.
    fn interval(
        &self,
        basis: &Basis,
        workspace: &Workspace,
        from: Frac,
        max: Frac,
    ) -> Result<ParaPart, Stop> {
        let to = match reach(self, basis, workspace, max) {
            Ok(to) => to,
            Err(evidence) => return Err(Stop::Overflow(evidence)),
        };
        let alloc = workspace.alloc;
        let statuses = basis.copy(alloc)?;
        let value = reduced_point(alloc, &workspace.point)?;
        let value_rate = still_point(alloc, self.lp)?;
        let price = prices_with(alloc, &workspace.prices)?;
        let price_rate = prices_with(alloc, &workspace.change)?;
        Ok(ParaPart {
            from,
            to,
            statuses,
            value,
            value_rate,
            price,
            price_rate,
        })
    }

    fn face_turn<R: Rates>(
        &self,
        basis: &Basis,
        rates: &mut R,
        workspace: &mut Workspace,
        theta: Frac,
        left: u32,
    ) -> Result<FaceStep, PrimalStop> {
        let Some(q) = face_entering_variable(self, basis, workspace, theta) else {
            return Ok(FaceStep::Done);
        };
        let up = rises(self.lp, workspace, q);
        let stopped = blocking_variable_of(self.lp, basis, rates, workspace, q, up)?;
        let Some(by) = stopped else {
            let end = unbounded_end(self.lp, workspace, up, theta)?;
            return Ok(FaceStep::Ends(end));
        };
        if left == 0 {
            return Err(PrimalStop::Limit);
        }
        Ok(FaceStep::Moves { q, by })
    }
}
