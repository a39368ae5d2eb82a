//! Paths from the opening basis to their ends: the simplex path over each engine, the one without a limit, and the dual path.

ghost use Rattle.std.specs.Prelude.{◌≡◌, None};

use crate::decks::{BEALE, CHVATAL, KUHN, TESTPROB, program_of};
use crate::texts::{evidence_text, fits, outcome_text, statuses_text};
use bounded_dual::{DualStop, dual};
use bounded_primal::{PrimalStop, opening, primal, primal_free};
use certificate_check::{Verdict, check_crossed, check_infeasible, check_optimal, check_unbounded};
use eta_file::ByColumns;
use lp_model::{Basis, Engine, Lp, Outcome, Sense, Stop};
use rates_dense::Dense;
use reinversion::ProductForm;
use std::alloc::Global;
use std::test::Fail;

/// Where a path ends.
#[derive(Drop)]
enum PathResult {
    Found(Outcome),
    Reported(String),
}

/// What a path that isn't ended says.
fn reported(alloc: Global, text: &str) -> Result<PathResult, Fail> {
    Ok(PathResult::Reported(String::from_str(alloc, text)?))
}

fn primal_end(alloc: Global, answer: Result<Outcome, PrimalStop>) -> Result<PathResult, Fail> {
    match answer {
        Ok(outcome) => Ok(PathResult::Found(outcome)),
        Err(PrimalStop::Limit) => reported(alloc, "LIMIT"),
        Err(PrimalStop::Overflow(evidence)) => Ok(PathResult::Reported(evidence_text(
            alloc, &evidence,
        )?)),
        Err(PrimalStop::NoMemory) => Err(Fail::from("memory")),
    }
}

fn free_end(alloc: Global, answer: Result<Outcome, Stop>) -> Result<PathResult, Fail> {
    match answer {
        Ok(outcome) => Ok(PathResult::Found(outcome)),
        Err(Stop::Overflow(evidence)) => Ok(PathResult::Reported(evidence_text(alloc, &evidence)?)),
        Err(Stop::NoMemory) => Err(Fail::from("memory")),
    }
}

fn dual_end(alloc: Global, answer: Result<Outcome, DualStop>) -> Result<PathResult, Fail> {
    match answer {
        Ok(outcome) => Ok(PathResult::Found(outcome)),
        Err(DualStop::NotDualFeasible(k)) => {
            Ok(PathResult::Reported(format!(in alloc; "WRONG PRICE {k}")?))
        }
        Err(DualStop::Path(stop)) => primal_end(alloc, Err(stop)),
    }
}

/// The simplex path within a limit of steps, over an engine.
fn by_primal<E: Engine>(alloc: Global, lp: &Lp, limit: u32) -> Result<(PathResult, Basis), Fail> {
    let (mut basis, mut rates) = opening::<E>(alloc, lp)?;
    let answer = primal(alloc, lp, &mut basis, &mut rates, limit);
    Ok((primal_end(alloc, answer)?, basis))
}

/// The simplex path without a limit.
fn by_free(alloc: Global, lp: &Lp) -> Result<(PathResult, Basis), Fail> {
    let (mut basis, mut rates) = opening::<Dense>(alloc, lp)?;
    let answer = primal_free(alloc, lp, &mut basis, &mut rates);
    Ok((free_end(alloc, answer)?, basis))
}

fn by_dual(alloc: Global, lp: &Lp, limit: u32) -> Result<(PathResult, Basis), Fail>
    requires { lp.now.change ≡ None }
{
    let (mut basis, mut rates) = opening::<Dense>(alloc, lp)?;
    let answer = dual(alloc, lp, &mut basis, &mut rates, limit);
    Ok((dual_end(alloc, answer)?, basis))
}

/// Which path is followed: the simplex path over the table of rates, by columns or over the product form, or over the table without
/// a limit, or the dual path over the table.
#[derive(Clone, Copy)]
enum Way {
    Table,
    Columns,
    ProductForm,
    Free,
    Dual,
}

fn followed(alloc: Global, lp: &Lp, way: Way, limit: u32) -> Result<(PathResult, Basis), Fail>
    requires { lp.now.change ≡ None }
{
    match way {
        Way::Table => by_primal::<Dense>(alloc, lp, limit),
        Way::Columns => by_primal::<ByColumns>(alloc, lp, limit),
        Way::ProductForm => by_primal::<ProductForm>(alloc, lp, limit),
        Way::Free => by_free(alloc, lp),
        Way::Dual => by_dual(alloc, lp, limit),
    }
}

/// What the check finds of an outcome, where it has a value for each variable.
fn verdict_on(lp: &Lp, outcome: &Outcome) -> Option<Verdict> {
    match outcome {
        Outcome::Optimal { point, prices, .. } => {
            if !fits(lp, point.values()) || !fits(lp, prices.values()) {
                return None;
            }
            Some(check_optimal(lp, point.values(), prices.values()))
        }
        Outcome::Crossed { k } => {
            let is_variable = 1 <= *k && *k <= lp.number_of_variables();
            if is_variable {
                Some(check_crossed(lp, *k))
            } else {
                None
            }
        }
        Outcome::Infeasible { ray, .. } => {
            if !fits(lp, ray.values()) {
                return None;
            }
            Some(check_infeasible(lp, ray.values()))
        }
        Outcome::Unbounded {
            point,
            direction,
            ..
        } => {
            if !fits(lp, point.values()) || !fits(lp, direction.values()) {
                return None;
            }
            Some(check_unbounded(lp, point.values(), direction.values()))
        }
    }
}

/// The text of an end, which is checked where it is an outcome.
fn end_text(alloc: Global, lp: &Lp, end: PathResult) -> Result<String, Fail> {
    match end {
        PathResult::Found(outcome) => {
            if verdict_on(lp, &outcome) != Some(Verdict::Checked) {
                return Err(Fail::from("a wrong outcome"));
            }
            Ok(outcome_text(alloc, &outcome)?)
        }
        PathResult::Reported(text) => Ok(text),
    }
}

/// COST, LIM and X have the numbers 1 to 3 in each of these decks of one row, whose names say what lies between which limits.
const UP_TO_FOUR: &[u8] = b"NAME          T         FREE
ROWS
 N COST
 L LIM
COLUMNS
 X COST 3 LIM 1
RHS
 B LIM 4
ENDATA
";

const COLUMN_UP_TO_FIVE: &[u8] = b"NAME          T         FREE
ROWS
 N COST
 L LIM
COLUMNS
 X COST 3 LIM 1
RHS
 B LIM 9
BOUNDS
 UP S X 5
ENDATA
";

const TWO_TO_FIVE: &[u8] = b"NAME          T         FREE
ROWS
 N COST
 E LIM
COLUMNS
 X COST 1 LIM 1
RHS
 B LIM 2
RANGES
 R LIM 3
ENDATA
";

const COLUMN_UP_TO_MINUS_ONE: &[u8] = b"NAME          T         FREE
ROWS
 N COST
 N LIM
COLUMNS
 X COST 3 LIM 1
BOUNDS
 MI S X
 UP S X -1
ENDATA
";

const FREE_COLUMN: &[u8] = b"NAME          T         FREE
ROWS
 N COST
 G LIM
COLUMNS
 X COST 1 LIM 1
RHS
 B LIM -3
BOUNDS
 FR S X
ENDATA
";

const CROSSED: &[u8] = b"NAME          T         FREE
ROWS
 N COST
 N LIM
COLUMNS
 X COST 1 LIM 1
BOUNDS
 UP S X -1
ENDATA
";

const UNBOUNDED: &[u8] = b"NAME          T         FREE
ROWS
 N COST
 G LIM
COLUMNS
 X COST -1 LIM 1
ENDATA
";

/// COST, two rows with the value of X, and X have the numbers 1 to 4.
const TWO_LIMITS: &[u8] = b"NAME          T         FREE
ROWS
 N COST
 L ONE
 L TWO
COLUMNS
 X COST -1 ONE 1
 X TWO 1
ENDATA
";

const APART: &[u8] = b"NAME          T         FREE
ROWS
 N COST
 G ONE
 L TWO
COLUMNS
 X COST 1 ONE 1
 X TWO 1
RHS
 B ONE 3 TWO 2
ENDATA
";

/// The large number is 999 999 999 and 18 zeros more, and the small one 1 by 10 000 000 000 000 000 000.
const LARGE_POINT: &[u8] = b"NAME          T         FREE
ROWS
 N COST
 L LIM
COLUMNS
 X COST 1 LIM 999999999E18
BOUNDS
 LO S X 999999999E18
ENDATA
";

const LARGE_LENGTH: &[u8] = b"NAME          T         FREE
ROWS
 N COST
 L LIM
COLUMNS
 X COST -1 LIM .1E-18
RHS
 B LIM 999999999E18
ENDATA
";

const LARGE_STEP: &[u8] = b"NAME          T         FREE
ROWS
 N COST
 G LIM
COLUMNS
 X COST -1 LIM 999999999E18
BOUNDS
 UP S X 999999999E18
ENDATA
";

const SHORTER_STEP: &[u8] = b"NAME          T         FREE
ROWS
 N COST
 L LIM
COLUMNS
 X COST -1 LIM .1E-18
RHS
 B LIM 999999999E18
BOUNDS
 UP S X 1
ENDATA
";

/// Decks whose dual paths are followed.
const RISES: &[u8] = b"NAME          T         FREE
ROWS
 N COST
 G LIM
COLUMNS
 X COST 1 LIM -1
RHS
 B LIM -5
RANGES
 R LIM 2
ENDATA
";

const FALLS: &[u8] = b"NAME          T         FREE
ROWS
 N COST
 L LIM
COLUMNS
 X COST -1 LIM 1
RHS
 B LIM 3
BOUNDS
 MI S X
 UP S X 5
ENDATA
";

const FIXED_BELOW: &[u8] = b"NAME          T         FREE
ROWS
 N COST
 G LIM
COLUMNS
 X COST -1 LIM 1
RHS
 B LIM 4
BOUNDS
 FX S X 1
ENDATA
";

const CROSSED_BELOW: &[u8] = b"NAME          T         FREE
ROWS
 N COST
 G LIM
COLUMNS
 X COST 1 LIM 1
RHS
 B LIM 4
BOUNDS
 UP S X -1
ENDATA
";

const WRONG_PRICE: &[u8] = b"NAME          T         FREE
ROWS
 N COST
 G LIM
COLUMNS
 X COST -1 LIM 1
RHS
 B LIM 4
BOUNDS
 UP S X -1
ENDATA
";

/// A path within a limit of steps: its end, and the basis that it reaches, where that is looked at.
struct Path {
    name: &'static str,
    deck: &'static [u8],
    sense: Sense,
    way: Way,
    limit: u32,
    end: &'static str,
    basis: &'static str,
}

const LEAST_COST: &str = "OPTIMAL STEPS 3 POINT 54 3 10 7 4 -1 6 PRICES 0 0 1 8 0 12 0";

const BEALES_END: &str =
    "OPTIMAL STEPS 6 POINT -1/20 -3/100 0 1 1/25 0 1 0 PRICES 0 0 -3/2 -1/20 0 15 0 21/2";

const PATHS: [Path; 33] = [
    Path {
        name: "the least cost",
        deck: TESTPROB,
        sense: Sense::Min,
        way: Way::Table,
        limit: 3,
        end: LEAST_COST,
        basis: " BS BS LL LL BS LL BS",
    },
    Path {
        name: "the least cost after two steps",
        deck: TESTPROB,
        sense: Sense::Min,
        way: Way::Table,
        limit: 2,
        end: "LIMIT",
        basis: "",
    },
    Path {
        name: "the least cost before any step",
        deck: TESTPROB,
        sense: Sense::Min,
        way: Way::Table,
        limit: 0,
        end: "LIMIT",
        basis: " BS BS BS BS LL LL LL",
    },
    Path {
        name: "the least cost by columns",
        deck: TESTPROB,
        sense: Sense::Min,
        way: Way::Columns,
        limit: 3,
        end: LEAST_COST,
        basis: "",
    },
    Path {
        name: "the least cost by the product form",
        deck: TESTPROB,
        sense: Sense::Min,
        way: Way::ProductForm,
        limit: 3,
        end: LEAST_COST,
        basis: "",
    },
    Path {
        name: "the greatest objective",
        deck: UP_TO_FOUR,
        sense: Sense::Max,
        way: Way::Table,
        limit: 1,
        end: "OPTIMAL STEPS 1 POINT 12 4 4 PRICES 0 3 0",
        basis: "",
    },
    Path {
        name: "a column stops at its own limit",
        deck: COLUMN_UP_TO_FIVE,
        sense: Sense::Max,
        way: Way::Table,
        limit: 1,
        end: "OPTIMAL STEPS 1 POINT 15 5 5 PRICES 0 0 3",
        basis: " BS BS UL",
    },
    Path {
        name: "a range on an equality",
        deck: TWO_TO_FIVE,
        sense: Sense::Min,
        way: Way::Table,
        limit: 1,
        end: "OPTIMAL STEPS 1 POINT 2 2 2 PRICES 0 1 0",
        basis: "",
    },
    Path {
        name: "a negative upper bound alone",
        deck: COLUMN_UP_TO_MINUS_ONE,
        sense: Sense::Max,
        way: Way::Table,
        limit: 0,
        end: "OPTIMAL STEPS 0 POINT -3 -1 -1 PRICES 0 0 3",
        basis: "",
    },
    Path {
        name: "a free column falls",
        deck: FREE_COLUMN,
        sense: Sense::Min,
        way: Way::Table,
        limit: 1,
        end: "OPTIMAL STEPS 1 POINT -3 -3 -3 PRICES 0 1 0",
        basis: "",
    },
    Path {
        name: "a free column opens",
        deck: FREE_COLUMN,
        sense: Sense::Min,
        way: Way::Table,
        limit: 0,
        end: "LIMIT",
        basis: " BS BS FR",
    },
    Path {
        name: "a negative upper bound crosses",
        deck: CROSSED,
        sense: Sense::Min,
        way: Way::Table,
        limit: 0,
        end: "CROSSED 3",
        basis: "",
    },
    Path {
        name: "the least number at a step of no length",
        deck: TWO_LIMITS,
        sense: Sense::Min,
        way: Way::Table,
        limit: 1,
        end: "OPTIMAL STEPS 1 POINT 0 0 0 0 PRICES 0 -1 0 0",
        basis: " BS UL BS BS",
    },
    Path {
        name: "a ray where nothing is feasible",
        deck: APART,
        sense: Sense::Min,
        way: Way::Table,
        limit: 1,
        end: "INFEASIBLE STEPS 1 RAY 0 -1 1 0",
        basis: "",
    },
    Path {
        name: "a direction without end",
        deck: UNBOUNDED,
        sense: Sense::Min,
        way: Way::Table,
        limit: 0,
        end: "UNBOUNDED STEPS 0 POINT 0 0 0 DIRECTION -1 1 1",
        basis: "",
    },
    Path {
        name: "the opening point is too large",
        deck: LARGE_POINT,
        sense: Sense::Min,
        way: Way::Table,
        limit: 10,
        end: "FORMULA 10 WAY 0 P 0 Q 0 I 2 J 3 TERM 0 THETA 0: \
              999999999000000000000000000 * 999999999000000000000000000 has no exact result in 128 bits",
        basis: " BS BS LL",
    },
    Path {
        name: "the length of a step is too large",
        deck: LARGE_LENGTH,
        sense: Sense::Min,
        way: Way::Table,
        limit: 10,
        end: "FORMULA 7 WAY 0 P 0 Q 3 I 2 J 0 TERM 2 THETA 0: \
              999999999000000000000000000 / 1/10000000000000000000 has no exact result in 128 bits",
        basis: " BS BS LL",
    },
    Path {
        name: "a step is too large",
        deck: LARGE_STEP,
        sense: Sense::Min,
        way: Way::Table,
        limit: 10,
        end: "FORMULA 8 WAY 0 P 3 Q 3 I 2 J 0 TERM 0 THETA 0: \
              999999999000000000000000000 * 999999999000000000000000000 has no exact result in 128 bits",
        basis: " BS BS LL",
    },
    Path {
        name: "a length is not needed where something else stops",
        deck: SHORTER_STEP,
        sense: Sense::Min,
        way: Way::Table,
        limit: 1,
        end: "OPTIMAL STEPS 1 POINT -1 1/10000000000000000000 1 PRICES 0 0 -1",
        basis: "",
    },
    Path {
        name: "Beale's problem",
        deck: BEALE,
        sense: Sense::Min,
        way: Way::Table,
        limit: 6,
        end: BEALES_END,
        basis: "",
    },
    Path {
        name: "Beale's problem without a limit",
        deck: BEALE,
        sense: Sense::Min,
        way: Way::Free,
        limit: 0,
        end: BEALES_END,
        basis: "",
    },
    Path {
        name: "Beale's problem by the product form",
        deck: BEALE,
        sense: Sense::Min,
        way: Way::ProductForm,
        limit: 6,
        end: BEALES_END,
        basis: "",
    },
    Path {
        name: "Chvatal's problem",
        deck: CHVATAL,
        sense: Sense::Max,
        way: Way::Free,
        limit: 0,
        end: "OPTIMAL STEPS 5 POINT 1 -2 0 1 1 0 1 0 PRICES 0 0 18 1 0 -30 0 -42",
        basis: "",
    },
    Path {
        name: "Kuhn's problem",
        deck: KUHN,
        sense: Sense::Min,
        way: Way::Free,
        limit: 0,
        end: "OPTIMAL STEPS 2 POINT -2 -2 0 2 2 0 2 0 PRICES 0 0 0 -1 0 0 0 0",
        basis: "",
    },
    Path {
        name: "the least cost by the dual path",
        deck: TESTPROB,
        sense: Sense::Min,
        way: Way::Dual,
        limit: 3,
        end: LEAST_COST,
        basis: "",
    },
    Path {
        name: "the dual path after two steps",
        deck: TESTPROB,
        sense: Sense::Min,
        way: Way::Dual,
        limit: 2,
        end: "LIMIT",
        basis: "",
    },
    Path {
        name: "the dual path before any step",
        deck: TESTPROB,
        sense: Sense::Min,
        way: Way::Dual,
        limit: 0,
        end: "LIMIT",
        basis: "",
    },
    Path {
        name: "a dual path rises",
        deck: RISES,
        sense: Sense::Min,
        way: Way::Dual,
        limit: 1,
        end: "OPTIMAL STEPS 1 POINT 3 -3 3 PRICES 0 -1 0",
        basis: "",
    },
    Path {
        name: "a dual path falls",
        deck: FALLS,
        sense: Sense::Min,
        way: Way::Dual,
        limit: 1,
        end: "OPTIMAL STEPS 1 POINT -3 3 3 PRICES 0 -1 0",
        basis: "",
    },
    Path {
        name: "a fixed column is too low",
        deck: FIXED_BELOW,
        sense: Sense::Min,
        way: Way::Dual,
        limit: 0,
        end: "INFEASIBLE STEPS 0 RAY 0 -1 1",
        basis: "",
    },
    Path {
        name: "a dual path from crossed limits",
        deck: CROSSED_BELOW,
        sense: Sense::Min,
        way: Way::Dual,
        limit: 10,
        end: "CROSSED 3",
        basis: "",
    },
    Path {
        name: "a dual path from a wrong price",
        deck: WRONG_PRICE,
        sense: Sense::Min,
        way: Way::Dual,
        limit: 10,
        end: "WRONG PRICE 3",
        basis: "",
    },
    Path {
        name: "a dual path of two rows",
        deck: APART,
        sense: Sense::Min,
        way: Way::Dual,
        limit: 1,
        end: "INFEASIBLE STEPS 1 RAY 0 -1 1 0",
        basis: "",
    },
];

/// The end of a path, and the basis that it reaches.
fn path_text(alloc: Global, path: &Path) -> Result<(String, String), Fail> {
    let lp = program_of(alloc, path.deck, path.sense)?;
    let (end, basis) = followed(alloc, &lp, path.way, path.limit)?;
    let reached = statuses_text(alloc, basis.statuses())?;
    Ok((end_text(alloc, &lp, end)?, reached))
}

#[test]
fn paths_end(rt: HostRuntime) -> Result<(), Fail> {
    for path in &PATHS {
        let (end, basis) = path_text(rt.alloc(), path)?;
        let is_reached = path.basis.is_empty() || basis.as_str() == path.basis;
        assert_eq!(rt;
            (end.as_str(), is_reached),
            (path.end, true),
            "{}",
            path.name
        );
    }
    Ok(())
}
