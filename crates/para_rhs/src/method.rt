//! The right-hand side as a parameter.

use crate::breaks::face_leaver;
use crate::limits::program_at;
use crate::reaching::reach;
use crate::reported::reported_at;
use crate::turns::{entering, infeasible_end, return_of};
use basis_values::{fill_prices, point_of};
use bounded_primal::{PrimalStop, primal};
use frac128::Frac;
use lp_model::{Basis, Lp, Outcome, ParaPart, Point, Rates, Stop};
use parametric_run::{
    FaceStep, Parametric, Span, Workspace, point_with, prices_with, reduced_point, still_prices,
    zeros,
};
use std::alloc::Global;

/// A linear program, and the shift of each row: theta times its shift is added to the limits of the row. `moving` is the program whose
/// limits are the shifts.
#[derive(Clone, Copy)]
pub struct RightHandSide<'a> {
    pub lp: &'a Lp,
    pub shift: &'a [Frac],
    pub moving: &'a Lp,
}

impl<'a> Parametric for RightHandSide<'a> {
    ghost use Rattle.para_rhs.specs.Method.{rhs_problem, FitsRhs};

    ghost problem = { λ m. rhs_problem m.lp.now m.shift.now };

    ghost fits = { λ m. FitsRhs m.lp.now m.shift.now m.moving.now };

    fn program(&self) -> &Lp {
        self.lp
    }

    fn opening<R: Rates>(
        &self,
        alloc: Global,
        span: &Span,
        basis: &mut Basis,
        rates: &mut R,
    ) -> Result<Outcome, PrimalStop> {
        let program = program_at(alloc, self.lp, self.shift, span.from)?;
        match primal(alloc, &program, basis, rates, span.limit) {
            Ok(outcome) => Ok(outcome),
            Err(stop) => Err(reported_at(span.from, stop)),
        }
    }

    // The point at another value is of no use: limits have moved.
    fn point<R: Rates>(
        &self,
        alloc: Global,
        basis: &Basis,
        rates: &mut R,
        _there: &Point,
    ) -> Result<Vec<Frac>, Stop> {
        let mut point = zeros(alloc, self.lp)?;
        point_of(alloc, self.lp, basis, rates, &mut point)?;
        Ok(point)
    }

    fn refresh<R: Rates>(
        &self,
        basis: &Basis,
        rates: &mut R,
        workspace: &mut Workspace,
    ) -> Result<(), Stop> {
        let Workspace {
            alloc,
            change,
            prices,
            row,
            ..
        } = workspace;
        self.slope(*alloc, basis, rates, change)?;
        fill_prices(self.lp, basis, rates, row, prices)?;
        Ok(())
    }

    // The point moves with the slope, and the prices are the same at each value.
    fn interval(
        &self,
        basis: &Basis,
        workspace: &Workspace,
        from: Frac,
        max: Frac,
    ) -> Result<ParaPart, Stop> {
        let to = match reach(self, basis, workspace, max) {
            Ok(to) => to,
            Err(evidence) => return Err(Stop::Overflow(evidence)),
        };
        let alloc = workspace.alloc;
        let statuses = basis.copy(alloc)?;
        let value = reduced_point(alloc, &workspace.point)?;
        let value_rate = point_with(alloc, &workspace.change)?;
        let price = prices_with(alloc, &workspace.prices)?;
        let price_rate = still_prices(alloc, self.lp)?;
        Ok(ParaPart {
            from,
            to,
            statuses,
            value,
            value_rate,
            price,
            price_rate,
        })
    }

    fn face_turn<R: Rates>(
        &self,
        basis: &Basis,
        rates: &mut R,
        workspace: &mut Workspace,
        theta: Frac,
        left: u32,
    ) -> Result<FaceStep, PrimalStop> {
        let found = match face_leaver(self, basis, workspace, theta) {
            Ok(found) => found,
            Err(evidence) => return Err(PrimalStop::Overflow(evidence)),
        };
        let Some(leaver) = found else {
            return Ok(FaceStep::Done);
        };
        let chosen = entering(self.lp, basis, rates, workspace, &leaver)?;
        let Some(q) = chosen else {
            let end = infeasible_end(self.lp, workspace, &leaver, theta)?;
            return Ok(FaceStep::Ends(end));
        };
        if left == 0 {
            return Err(PrimalStop::Limit);
        }
        let by = return_of(self.lp, basis, rates, workspace, q, &leaver)?;
        Ok(FaceStep::Moves { q, by })
    }
}
