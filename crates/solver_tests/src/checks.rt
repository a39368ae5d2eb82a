//! The checks of verdicts, whole and part by part.

ghost use Rattle.std.specs.Prelude.{◌≡◌, length};
ghost use Rattle.lp_definitions.specs.LinearProgram.{size};

use crate::decks::{SHORT_OF_Z, TESTPROB, program_of};
use crate::texts::{fits, wholes};
use certificate_check::{
    Verdict, check_combination, check_crossed, check_direction, check_direction_limits,
    check_equations, check_infeasible, check_optimal, check_point, check_prices, check_ray_limits,
    check_unbounded,
};
use frac128::{Frac, Op, Refused};
use lp_model::{Lp, Sense};
use std::alloc::Global;
use std::test::Fail;

/// What is checked: a whole verdict, or a part of one by the first values.
#[derive(Clone, Copy)]
enum Check {
    Optimal,
    Infeasible,
    Unbounded,
    Crossed(u32),
    Equations,
    Point,
    Prices,
    Combination,
    RayLimits,
    Direction,
    DirectionLimits,
}

fn check_part(check: Check, lp: &Lp, values: &[Frac]) -> Option<Verdict>
    requires { length values.now ≡ size lp.now.matrix }
{
    let verdict = match check {
        Check::Equations => check_equations(lp, values),
        Check::Point => check_point(lp, values),
        Check::Prices => check_prices(lp, values),
        Check::Combination => check_combination(lp, values),
        Check::RayLimits => check_ray_limits(lp, values),
        Check::Direction => check_direction(lp, values),
        Check::DirectionLimits => check_direction_limits(lp, values),
        Check::Infeasible => check_infeasible(lp, values),
        _ => return None,
    };
    Some(verdict)
}

fn check_both(check: Check, lp: &Lp, first: &[Frac], second: &[Frac]) -> Option<Verdict>
    requires first { length first.now ≡ size lp.now.matrix }
    requires second { length second.now ≡ size lp.now.matrix }
{
    match check {
        Check::Optimal => Some(check_optimal(lp, first, second)),
        Check::Unbounded => Some(check_unbounded(lp, first, second)),
        _ => None,
    }
}

/// The verdict on the values, where there are as many as the check takes.
fn verdict_on(check: Check, lp: &Lp, first: &[Frac], second: &[Frac]) -> Option<Verdict> {
    if let Check::Crossed(k) = check {
        let is_variable = 1 <= k && k <= lp.number_of_variables();
        return if is_variable {
            Some(check_crossed(lp, k))
        } else {
            None
        };
    }
    if !fits(lp, first) {
        return None;
    }
    if second.is_empty() {
        return check_part(check, lp, first);
    }
    if !fits(lp, second) {
        return None;
    }
    check_both(check, lp, first, second)
}

/// What a check finds: `Refused` where it would multiply the large number by itself.
#[derive(Clone, Copy)]
enum Found {
    Checked,
    Failed(u8, u32),
    Refused,
}

const LARGE: i128 = 999_999_999_000_000_000_000_000_000;

fn verdict_of(found: Found) -> Verdict {
    match found {
        Found::Checked => Verdict::Checked,
        Found::Failed(part, number) => Verdict::Failed { part, number },
        Found::Refused => Verdict::Unchecked(Refused {
            op: Op::Mul,
            left: Frac::whole(LARGE),
            right: Frac::whole(LARGE),
        }),
    }
}

/// COST has the number 1, and X 2, whose cost is -1.
const FALLS: &[u8] = b"NAME          FALLS     FREE
ROWS
 N COST
COLUMNS
 X COST -1
ENDATA
";

/// The same with X at most 5, and at most -1.
const UP_TO_FIVE: &[u8] = b"NAME          FALLS     FREE
ROWS
 N COST
COLUMNS
 X COST -1
BOUNDS
 UP S X 5
ENDATA
";

const CROSSED: &[u8] = b"NAME          FALLS     FREE
ROWS
 N COST
COLUMNS
 X COST -1
BOUNDS
 UP S X -1
ENDATA
";

/// The cost of X is the large number; and X is at most that number, too.
const DEAR: &[u8] = b"NAME          DEAR      FREE
ROWS
 N COST
COLUMNS
 X COST 999999999E18
ENDATA
";

const DEAR_LIMITED: &[u8] = b"NAME          DEAR      FREE
ROWS
 N COST
COLUMNS
 X COST 999999999E18
BOUNDS
 UP S X 999999999E18
ENDATA
";

/// A deck, what is checked, the values (the second ones where a verdict has two), and what is found.
type Case = (
    &'static [u8],
    Check,
    &'static [i128],
    &'static [i128],
    Found,
);

const BEST: &[i128] = &[54, 3, 10, 7, 4, -1, 6];

const BEST_PRICES: &[i128] = &[0, 0, 1, 8, 0, 12, 0];

/// One price is another, by which column X has a wrong cost.
const OTHER_PRICES: &[i128] = &[0, 0, 2, 8, 0, 12, 0];

/// X is above its limit, and all equations hold.
const HIGH: &[i128] = &[55, 4, 11, 7, 5, -1, 6];

const RAY: &[i128] = &[0, 0, 0, -1, 0, -1, 1];

/// Its limits add up to 8, and so contradict nothing.
const TURNED: &[i128] = &[0, 0, 0, 1, 0, 1, -1];

const RISES: &[i128] = &[1, 1, 1, 0, 1, 0, 0];

const WHOLE: [Case; 9] = [
    (TESTPROB, Check::Optimal, BEST, BEST_PRICES, Found::Checked),
    (
        TESTPROB,
        Check::Optimal,
        BEST,
        OTHER_PRICES,
        Found::Failed(3, 5),
    ),
    (SHORT_OF_Z, Check::Infeasible, RAY, &[], Found::Checked),
    (
        SHORT_OF_Z,
        Check::Infeasible,
        TURNED,
        &[],
        Found::Failed(3, 0),
    ),
    (TESTPROB, Check::Infeasible, RAY, &[], Found::Failed(2, 7)),
    (FALLS, Check::Unbounded, &[0, 0], &[-1, 1], Found::Checked),
    (
        UP_TO_FIVE,
        Check::Unbounded,
        &[0, 0],
        &[-1, 1],
        Found::Failed(4, 2),
    ),
    (UP_TO_FIVE, Check::Crossed(2), &[], &[], Found::Failed(1, 2)),
    (CROSSED, Check::Crossed(2), &[], &[], Found::Checked),
];

const PARTS: [Case; 19] = [
    (TESTPROB, Check::Equations, BEST, &[], Found::Checked),
    (TESTPROB, Check::Equations, HIGH, &[], Found::Checked),
    (
        TESTPROB,
        Check::Equations,
        &[54, 3, 10, 8, 4, -1, 6],
        &[],
        Found::Failed(1, 4),
    ),
    (TESTPROB, Check::Point, BEST, &[], Found::Checked),
    (TESTPROB, Check::Point, HIGH, &[], Found::Failed(2, 5)),
    (
        TESTPROB,
        Check::Point,
        &[54, 4, 10, 7, 4, -1, 6],
        &[],
        Found::Failed(1, 2),
    ),
    (TESTPROB, Check::Prices, BEST_PRICES, &[], Found::Checked),
    // Prices that prove nothing best are still those of the columns.
    (
        TESTPROB,
        Check::Prices,
        &[0, 0, 0, 0, 1, 4, 9],
        &[],
        Found::Checked,
    ),
    (
        TESTPROB,
        Check::Prices,
        OTHER_PRICES,
        &[],
        Found::Failed(3, 5),
    ),
    (SHORT_OF_Z, Check::Combination, RAY, &[], Found::Checked),
    (
        SHORT_OF_Z,
        Check::Combination,
        &[0, 0, 0, -1, 0, -1, 2],
        &[],
        Found::Failed(1, 7),
    ),
    (SHORT_OF_Z, Check::RayLimits, RAY, &[], Found::Checked),
    (SHORT_OF_Z, Check::RayLimits, TURNED, &[], Found::Checked),
    (TESTPROB, Check::RayLimits, RAY, &[], Found::Failed(2, 7)),
    (TESTPROB, Check::Direction, RISES, &[], Found::Checked),
    (
        TESTPROB,
        Check::Direction,
        &[1, 1, 1, 1, 1, 0, 0],
        &[],
        Found::Failed(3, 4),
    ),
    (
        TESTPROB,
        Check::DirectionLimits,
        &[1, -1, 1, 0, 0, 0, 1],
        &[],
        Found::Checked,
    ),
    (
        SHORT_OF_Z,
        Check::DirectionLimits,
        &[1, -1, 1, 0, 0, 0, 1],
        &[],
        Found::Failed(4, 7),
    ),
    (
        TESTPROB,
        Check::DirectionLimits,
        RISES,
        &[],
        Found::Failed(4, 2),
    ),
];

const REFUSED: [Case; 7] = [
    (
        DEAR_LIMITED,
        Check::Equations,
        &[0, LARGE],
        &[],
        Found::Refused,
    ),
    (DEAR_LIMITED, Check::Point, &[0, LARGE], &[], Found::Refused),
    (
        DEAR_LIMITED,
        Check::Prices,
        &[LARGE, 0],
        &[],
        Found::Refused,
    ),
    (
        DEAR_LIMITED,
        Check::Combination,
        &[LARGE, 0],
        &[],
        Found::Refused,
    ),
    (
        DEAR_LIMITED,
        Check::RayLimits,
        &[0, LARGE],
        &[],
        Found::Refused,
    ),
    (
        DEAR_LIMITED,
        Check::Direction,
        &[0, LARGE],
        &[],
        Found::Refused,
    ),
    (DEAR, Check::Optimal, &[0, LARGE], &[0, 0], Found::Refused),
];

/// Whether the check finds what it has to.
fn finds(alloc: Global, case: &Case) -> Result<bool, Fail> {
    let (deck, check, first, second, found) = case;
    let lp = program_of(alloc, deck, Sense::Min)?;
    let first = wholes(alloc, first)?;
    let second = wholes(alloc, second)?;
    Ok(verdict_on(*check, &lp, &first, &second) == Some(verdict_of(*found)))
}

/// The place of the first check that finds something else.
fn first_other(alloc: Global, cases: &[Case]) -> Result<Option<usize>, Fail> {
    for (place, case) in cases.iter().enumerate() {
        if !finds(alloc, case)? {
            return Ok(Some(place));
        }
    }
    Ok(None)
}

#[test]
fn checks_find(rt: HostRuntime) -> Result<(), Fail> {
    let tables: [&[Case]; 3] = [&WHOLE, &PARTS, &REFUSED];
    for cases in tables {
        assert_eq!(rt; first_other(rt.alloc(), cases)?, None);
    }
    Ok(())
}
