//! What stops a move.

ghost use Rattle.std.specs.Prelude.{◌≡◌, ◌↔◌, Some, length, IfSome, IfOk, IfErr, IsTrue};
ghost use Rattle.exact_values.specs.Rational.{zero_ℚ};
ghost use Rattle.lp_definitions.specs.LinearProgram.{size, value_at, IsVariable};
ghost use Rattle.lp_definitions.specs.Solutions.{IsFeasible, IsWithinLimits};
ghost use Rattle.lp_definitions.specs.Basis.{basics_of, IsBasis, IsNonbasic, IsNonsingular, IsPointOf, IsDirectionOf};
ghost use Rattle.simplex_definitions.specs.Moves.{step_length, signed, reached};
ghost use Rattle.basis_values.specs.Motions.{may_move, motion};
ghost use Rattle.bounded_primal.specs.Moves.{blocking_variable_of, BlockingVariableRefused};
ghost use Rattle.basis_values.specs.Reach.{length_of, IsFirst, IsNearest, Reaches, SomeStepLengthRefused};

use crate::moves::BlockingVariable;
use basis_values::counted;
use basis_values::reach::{Reach, is_no_nearer, length_to, nearer, yields};
use frac128::Frac;
use lp_model::{Basis, Evidence, Lp, Ratio, SparseVector, Status};

/// Whether a limit is reached at once.
fn is_at_once(nearest: &Option<Reach>) -> bool
    ensures { IsTrue result ↔ (length_of nearest.now ≡ Some zero_ℚ) }
{
    match nearest {
        Some(reach) => reach.length.is_zero(),
        None => false,
    }
}

/// What reaches a limit first where `q` moves up or down from within all limits, by all lengths. What stands still reaches none. The
/// search ends where a limit is reached at once, since none is reached sooner.
fn nearest_by_lengths(
    lp: &Lp,
    point: &[Ratio],
    direction: &SparseVector,
    q: u32,
    up: bool,
) -> Result<Option<Reach>, Evidence>
    requires point_places { length point.now ≡ size lp.now.matrix }
    requires direction_places { length direction.now ≡ size lp.now.matrix }
    requires within { IsWithinLimits lp.now (value_at point.now) }
    ensures nearest { IfOk result (IsNearest (step_length lp.now (value_at point.now)
        (motion (value_at direction.now) up)) (size lp.now.matrix)) }
    ensures refused { IfErr result (SomeStepLengthRefused lp.now (value_at point.now)
        (value_at direction.now) up q) }
{
    let mut nearest: Option<Reach> = None;
    let values = direction.values();
    let moving = direction.nonzero();
    for k in moving {
        if is_no_nearer(lp, point, values, up, &nearest, *k) {
            continue;
        }
        let length = length_to(lp, point, values, up, q, *k)?;
        nearest = nearer(nearest, length, *k);
        if is_at_once(&nearest) {
            return Ok(nearest);
        }
    }
    Ok(nearest)
}

/// The nearest of the variables whose lengths can be computed.
fn nearest_computed(
    lp: &Lp,
    point: &[Ratio],
    direction: &[Ratio],
    q: u32,
    up: bool,
) -> Option<Reach>
    requires point_places { length point.now ≡ size lp.now.matrix }
    requires direction_places { length direction.now ≡ size lp.now.matrix }
    ensures { IfSome result (Reaches (step_length lp.now (value_at point.now)
        (motion (value_at direction.now) up)) (size lp.now.matrix)) }
{
    let mut nearest: Option<Reach> = None;
    for k in 0..lp.number_of_variables() {
        let Ok(length) = length_to(lp, point, direction, up, q, k + 1) else {
            continue;
        };
        nearest = nearer(nearest, length, k + 1);
    }
    nearest
}

/// Whether the place of each variable shows that `first` reaches a limit first.
fn is_first(lp: &Lp, point: &[Ratio], direction: &[Ratio], up: bool, first: &Reach) -> bool
    requires point_places { length point.now ≡ size lp.now.matrix }
    requires direction_places { length direction.now ≡ size lp.now.matrix }
    requires reaches { Reaches (step_length lp.now (value_at point.now)
        (motion (value_at direction.now) up)) (size lp.now.matrix) first.now }
    ensures { IsTrue result → IsFirst (step_length lp.now (value_at point.now)
        (motion (value_at direction.now) up)) (size lp.now.matrix) first.now }
{
    for k in 0..lp.number_of_variables() {
        if !yields(lp, point, direction, up, first, k + 1) {
            return false;
        }
    }
    true
}

/// What reaches a limit first, where its length and the places of all variables after it can be computed.
fn first_by_places(lp: &Lp, point: &[Ratio], direction: &[Ratio], q: u32, up: bool) -> Option<Reach>
    requires point_places { length point.now ≡ size lp.now.matrix }
    requires direction_places { length direction.now ≡ size lp.now.matrix }
    ensures { IfSome result (IsFirst (step_length lp.now (value_at point.now)
        (motion (value_at direction.now) up)) (size lp.now.matrix)) }
{
    let first = nearest_computed(lp, point, direction, q, up)?;
    if is_first(lp, point, direction, up, &first) {
        Some(first)
    } else {
        None
    }
}

/// What reaches a limit first where `q` moves up or down from within all limits: by all lengths, and where one of them can't be computed,
/// by the places of the variables after the least of the others.
fn nearest(
    lp: &Lp,
    point: &[Ratio],
    direction: &SparseVector,
    q: u32,
    up: bool,
) -> Result<Option<Reach>, Evidence>
    requires point_places { length point.now ≡ size lp.now.matrix }
    requires direction_places { length direction.now ≡ size lp.now.matrix }
    requires within { IsWithinLimits lp.now (value_at point.now) }
    ensures nearest { IfOk result (IsNearest (step_length lp.now (value_at point.now)
        (motion (value_at direction.now) up)) (size lp.now.matrix)) }
    ensures refused { IfErr result (SomeStepLengthRefused lp.now (value_at point.now)
        (value_at direction.now) up q) }
{
    match nearest_by_lengths(lp, point, direction, q, up) {
        Ok(nearest) => Ok(nearest),
        Err(evidence) => match first_by_places(lp, point, direction.values(), q, up) {
            Some(first) => Ok(Some(first)),
            None => Err(evidence),
        },
    }
}

/// The limit that a variable of this speed reaches, as a status.
fn limit_reached(speed: Frac) -> Status
    ensures { result ≡ reached (λ _. speed) 0 }
{
    if Frac::whole(0).is_less(speed) {
        Status::Ul
    } else {
        Status::Ll
    }
}

/// What `blocking_variable` answers, from the values of the variables that have a limit.
pub fn blocking_variable_from(
    lp: &Lp,
    point: &[Ratio],
    direction: &SparseVector,
    q: u32,
    up: bool,
) -> Result<Option<BlockingVariable>, Evidence>
    requires point_places { length point.now ≡ size lp.now.matrix }
    requires direction_places { length direction.now ≡ size lp.now.matrix }
    requires within { IsWithinLimits lp.now (value_at point.now) }
    ensures blocking_variable { IfOk result
        (λ found. found ≡ blocking_variable_of lp.now (value_at point.now)
        (value_at direction.now) up) }
    ensures refused { IfErr result (SomeStepLengthRefused lp.now (value_at point.now)
        (value_at direction.now) up q) }
{
    let rates = direction.values();
    let found = nearest(lp, point, direction, q, up)?;
    match found {
        None => Ok(None),
        Some(nearest) => {
            let speed = counted(rates[nearest.p as usize - 1].reduced(), up);
            Ok(Some(BlockingVariable {
                p: nearest.p,
                step: counted(nearest.length, up),
                to: limit_reached(speed),
            }))
        }
    }
}

/// What stops `q`, which moves up or down from the feasible point, and how far it comes: the least-numbered of the variables that
/// reach a limit first. None comes exactly where nothing stops `q`. Takes no memory.
pub fn blocking_variable(
    lp: &Lp,
    basis: &Basis,
    point: &[Ratio],
    direction: &SparseVector,
    q: u32,
    up: bool,
) -> Result<Option<BlockingVariable>, Evidence>
    requires point_places { length point.now ≡ size lp.now.matrix }
    requires direction_places { length direction.now ≡ size lp.now.matrix }
    requires basis { IsBasis lp.now basis.now }
    requires nonsingular { IsNonsingular lp.now.matrix (basics_of basis.now) }
    requires point { IsPointOf lp.now basis.now (value_at point.now) }
    requires feasible { IsFeasible lp.now (value_at point.now) }
    requires nonbasic { IsNonbasic lp.now.matrix (basics_of basis.now) q }
    requires direction { IsDirectionOf lp.now.matrix (basics_of basis.now) q
        (value_at direction.now) }
    requires may { IsTrue (may_move lp.now basis.now up q) }
    ensures blocking_variable { IfOk result
        (λ found. found ≡ blocking_variable_of lp.now (value_at point.now)
        (value_at direction.now) up) }
    ensures refused { IfErr result (BlockingVariableRefused lp.now basis.now (value_at point.now)
        (value_at direction.now) q up) }
{
    blocking_variable_from(lp, point, direction, q, up)
}
