//! The slacks of the rows.

ghost use Rattle.std.specs.Prelude.{◌≡◌, ℕ, length, vec_len, IfOk, IfErr};
ghost use Rattle.lp_definitions.specs.LinearProgram.{size, value_at, IsRow};
ghost use Rattle.lp_model.specs.RatesCalls.{IfOverflow};
ghost use Rattle.verb_answers.specs.Slack.{slack_at, SlackRefused, SomeSlackRefused};

use basis_values::reach::distance_formula;
use frac128::Frac;
use lp_model::{Evidence, Lp, NoMemory, Stop};
use std::alloc::Global;

/// The number that a right-hand side has beside the two limits of its row.
const RIGHT_HAND_SIDE: u32 = 3;

/// The slack of row `i`.
fn slack_of(lp: &Lp, point: &[Frac], i: u32) -> Result<Frac, Evidence>
    requires row { IsRow lp.now.matrix i }
    requires places { length point.now ≡ size lp.now.matrix }
    ensures value { IfOk result (λ slack. slack ≡ slack_at lp.now (value_at point.now) i) }
    ensures refused { IfErr result (SlackRefused lp.now (value_at point.now) i) }
{
    let side = lp.rhs[i as usize - 1];
    let activity = point[i as usize - 1];
    distance_formula(i, RIGHT_HAND_SIDE).difference(side, activity)
}

/// The slack of each row.
pub fn slacks(alloc: Global, lp: &Lp, point: &[Frac]) -> Result<Vec<Frac>, Stop>
    requires { length point.now ≡ size lp.now.matrix }
    ensures places { IfOk result (λ slacks. vec_len slacks ≡ lp.now.rows) }
    ensures slacks { IfOk result (λ slacks. (i : ℕ) → IsRow lp.now.matrix i → value_at slacks.items
        i ≡ slack_at lp.now (value_at point.now) i) }
    ensures refused { IfErr result
        (λ stop. IfOverflow stop (SomeSlackRefused lp.now (value_at point.now))) }
{
    let mut values = Vec::new(alloc);
    for k in 0..lp.rows {
        let slack = slack_of(lp, point, k + 1).map_err(|evidence| Stop::Overflow(evidence))?;
        values.push(slack).map_err(|_| NoMemory)?;
    }
    Ok(values)
}
